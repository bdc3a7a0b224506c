use xa_limits::DIGEST_BYTES;
use xa_log::Format;

/// What was copied.
#[derive(Clone, Copy, Debug, PartialEq, Eq)]
pub struct Copied {
    /// How many records.
    pub records: u64,
    /// Where the next record would begin, in bytes.
    pub end: u64,
    /// The log's generation: the number in its first record, the boot's.
    pub generation: usize,
    /// Whether it was read from the first file.
    pub on_first: bool,
    pub format: Format,
    /// That of the last record.
    pub digest: [u8; DIGEST_BYTES],
    /// Whether none of them was appended: a checkpoint's alone.
    pub is_snapshot: bool,
}

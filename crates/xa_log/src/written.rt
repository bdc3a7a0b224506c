use xa_disk::DiskFault;
use xa_limits::DIGEST_BYTES;

/// A group on its way into a log: its records are written after the log's end, and their sync has to follow. Until it
/// is settled the log takes no other.
#[derive(Debug, Drop)]
pub struct Written {
    // Where the closing length ends, the last record's digest, and the log's generation with them.
    pub(crate) to: u64,
    pub(crate) digest: [u8; DIGEST_BYTES],
    pub(crate) generation: usize,
    // What the write returned.
    pub(crate) write: Result<(), DiskFault>,
}

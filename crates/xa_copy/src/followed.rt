/// What a standby took from its source.
#[derive(Clone, Copy, Debug, PartialEq, Eq)]
pub struct Followed {
    /// How many records: all that the log has, if it was begun anew.
    pub records: u64,
    /// Whether the source's log was begun anew since the standby took some of it, so that the standby's was, too.
    pub is_anew: bool,
    /// Where the next record would begin, in bytes.
    pub end: u64,
    /// The log's generation.
    pub generation: usize,
}

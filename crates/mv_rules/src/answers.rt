use xa_codes::Bytes;

/// The answer to a get.
#[derive(Debug, Drop)]
pub enum Got {
    /// The value that the branch reads.
    Value(Bytes),
    /// The key has no value at the branch's timestamp.
    Absent,
    /// The source is the write of another branch, of this timestamp, that is still undecided.
    Busy(u64),
    /// Out of memory.
    Memory,
}

/// The answer to a put.
#[derive(Clone, Copy, Debug, PartialEq, Eq)]
pub enum Put {
    /// The branch has written the key.
    Done,
    /// A read above the branch's timestamp has seen a version below it.
    Late,
    /// The branch has written as many other keys as it may.
    Limit,
    /// Out of memory.
    Memory,
}

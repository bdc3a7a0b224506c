/// What a refusal is about, besides its code.
#[derive(Clone, Copy, Debug, PartialEq, Eq)]
pub enum Detail {
    Nothing,
    /// There was no memory. Nothing changed.
    Memory,
    /// The log's device failed.
    Device,
    /// The version to be read belongs to another branch, which is undecided.
    Busy,
    /// A branch with a later timestamp has read what this write would have changed.
    Late,
    /// A limit of the manager was reached.
    Limit,
    /// The request doesn't decode.
    Frame,
    /// The log has no room for the record.
    LogFull,
    /// Whoever asks may not ask for this. Nothing changed.
    Access,
}

/// What the device made of an append.
#[derive(Clone, Copy, Debug, PartialEq, Eq)]
pub enum Appending {
    /// The record is stable.
    Kept,
    /// The record is known to have left nothing.
    Refused,
    /// The record's fate is unknown until the log is read again.
    Lost,
}

/// What the device did in an event.
#[derive(Clone, Copy, Debug, PartialEq, Eq)]
pub enum Outcome {
    /// No device call was made.
    Quiet,
    /// One record had to be appended, alone or as the first of a group that one device call appends.
    Appended(Appending),
    /// A further record of the group had to be appended, with the entry before.
    Joined(Appending),
    /// In a restart or an opening: the log could not be read.
    Failed,
    /// In a restart or an opening: the log was read. `survived` of the records whose fates were unknown are there,
    /// the first ones; and what became of the record of the new boot, if one had to be appended.
    Reread {
        survived: usize,
        appended: Option<Appending>,
    },
}

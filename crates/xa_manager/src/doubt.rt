/// What a manager keeps of records whose append was lost, so that the next restart can tell how many of them stand in
/// the log.
#[derive(Clone, Copy, Debug, PartialEq, Eq)]
pub enum Doubt {
    /// The first record of a boot with this number, of which a checkpoint was lost.
    Boot(u32),
    /// Records after the log's end, which is this.
    Record(u64),
}

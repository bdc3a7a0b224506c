use xa_codes::Direction;

/// What of a branch outlives the boot: that it is prepared, with its timestamp, or the direction in which the operator
/// completed it.
#[derive(Clone, Copy, Debug, PartialEq, Eq)]
pub enum Lasting {
    Prepared(u64),
    Completed(Direction),
}

use xa_codes::{Code, Direction};

/// What is known of an XID: nothing, a branch at work with the mark that it may have, one in doubt, or what the
/// operator decided.
#[derive(Clone, Copy, Debug, PartialEq, Eq)]
pub enum Known {
    Unknown,
    AtWork(Option<Code>),
    InDoubt,
    Completed(Direction),
}

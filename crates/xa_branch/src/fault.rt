use thiserror::Error;
use xa_limits::{MOST_BRANCHES, MOST_GIVEN};

/// Why a branch doesn't begin. Nothing changes.
#[derive(Clone, Copy, Debug, PartialEq, Eq, Error)]
pub enum BeginFault {
    /// The XID is known.
    #[error("XID known")]
    Duplicate = 1,
    /// `MOST_BRANCHES` are known.
    #[error("{most} branches known", most = MOST_BRANCHES)]
    Full = 2,
    /// The boot has given `MOST_GIVEN` timestamps, all of its own.
    #[error("{most} timestamps given", most = MOST_GIVEN)]
    Spent = 3,
    /// There was no memory.
    #[error("no memory")]
    Memory = 4,
}

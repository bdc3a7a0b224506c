use xa_codes::{Direction, Listing, Write};
use xa_xid::Xid;

/// Writes that contracts see as a list.
pub type Writes = Listing<Write>;

/// What one record of the log says.
#[derive(Debug, Drop)]
pub enum Record {
    /// A boot began. The first boot is 1.
    Opened {
        boot: u32,
    },
    /// A branch was prepared, with 1 to `MOST_WRITES` writes, ascending by key.
    Prepared {
        xid: Xid,
        timestamp: u64,
        writes: Writes,
    },
    /// A branch was committed in one phase.
    Committed {
        xid: Xid,
        timestamp: u64,
        writes: Writes,
    },
    /// A prepared branch was completed, otherwise than by the operator.
    Completed {
        xid: Xid,
        direction: Direction,
    },
    /// The operator decided a prepared branch.
    Decided {
        xid: Xid,
        direction: Direction,
    },
    /// A decided branch was forgotten.
    Forgotten {
        xid: Xid,
    },
    /// Snapshot: a committed branch, with those of its writes that are the last of their keys.
    Base {
        timestamp: u64,
        writes: Writes,
    },
    /// Snapshot: a branch is prepared.
    Held {
        xid: Xid,
        timestamp: u64,
        writes: Writes,
    },
    /// Snapshot: the operator completed a branch that isn't forgotten.
    Known {
        xid: Xid,
        direction: Direction,
    },
}

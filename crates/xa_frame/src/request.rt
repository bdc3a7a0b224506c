use xa_codes::{Bytes, Direction};
use xa_fields::Key;
use xa_xid::Xid;

/// What a session asks for: C193's calls of a resource manager (`xa_open` to `xa_recover`), gets, puts and deletes of
/// records, the operator's calls, branches' time limits, a shorter log, and a list of the known branches. Flags are C193's,
/// or-ed. A value has at most `MOST_VALUE` bytes, an open info at most `MOST_INFO`; these alone take memory.
#[derive(Debug, Drop)]
pub enum Request {
    Open { flags: u32, info: Bytes },
    Close { flags: u32 },
    Start { flags: u32, xid: Xid },
    End { flags: u32, xid: Xid },
    Prepare { flags: u32, xid: Xid },
    Commit { flags: u32, xid: Xid },
    Rollback { flags: u32, xid: Xid },
    Forget { flags: u32, xid: Xid },
    Recover { flags: u32, count: u32 },
    Get { key: Key },
    Put { key: Key, value: Bytes },
    Delete { key: Key },
    Decide { direction: Direction, xid: Xid },
    Doom { xid: Xid },
    Restart,
    /// Branches that the session begins later may be at work for this many seconds; 0 sets no limit.
    Timeout { seconds: u32 },
    /// What the clock says, in seconds from an instant that all who report it share.
    Tick { moment: u64 },
    /// What lasts, and it alone, goes into the other file of the log, which is the current one from then on; branches at
    /// work go on.
    Trim,
    /// The first `count` known branches above an XID, or of all.
    Branches { count: u32, after: Option<Xid> },
}

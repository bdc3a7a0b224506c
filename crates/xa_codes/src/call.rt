/// The calls of a session: C193's entry points that a resource manager has, reads and writes of records, the operator's
/// calls, and those of branches' time limits.
#[derive(Clone, Copy, Debug, PartialEq, Eq)]
pub enum Call {
    Open,
    Close,
    Start,
    End,
    Prepare,
    Commit,
    Rollback,
    Recover,
    Forget,
    Get,
    Put,
    Delete,
    Decide,
    Doom,
    Restart,
    /// Sets the limit of branches that the session begins later.
    Timeout,
    /// Tells the moment, and ends what has passed its limit.
    Tick,
    /// Starts a new log, with what lasts, while branches go on.
    Trim,
    /// Lists the known branches.
    Branches,
}

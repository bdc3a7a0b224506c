//! The rows that log: what each appends, and what it answers.
ghost use Rattle.std.specs.Prelude.{◌≡◌, option_map};
ghost use Rattle.xa_manager.specs.Rows.{asked_row, commit_row, more_of, refused_code, unwritten_code, written_record};

use xa_codes::{Code, Direction, TMONEPHASE, XA_OK, XA_RDONLY, XA_RETRY, XAER_RMERR};
use xa_frame::Request;
use xa_record::{Record, Writes};
use xa_xid::Xid;

/// A row that logs, with what it is asked besides the XID.
#[derive(Clone, Copy, Debug, PartialEq, Eq)]
pub enum Row {
    /// Its record has what the branch wrote.
    Writes(Writing),
    CommitTwoPhase,
    Rollback,
    Decide(Direction),
    Forget,
}

/// How a branch that is at work comes into the log.
#[derive(Clone, Copy, Debug, PartialEq, Eq)]
pub enum Writing {
    Prepare,
    CommitOnePhase,
}

impl Row {
    /// That of a request, with its XID, if its row logs.
    pub fn of(request: &Request) -> Option<(Row, &Xid)>
        ensures { option_map (λ x. (x.0, x.1.now)) result ≡ asked_row request.now }
    {
        match request {
            Request::Prepare { xid, .. } => Some((Row::Writes(Writing::Prepare), xid)),
            Request::Commit { flags, xid } => Some((Row::of_commit(*flags), xid)),
            Request::Rollback { xid, .. } => Some((Row::Rollback, xid)),
            Request::Forget { xid, .. } => Some((Row::Forget, xid)),
            Request::Decide { direction, xid } => Some((Row::Decide(*direction), xid)),
            Request::Open { .. }
            | Request::Close { .. }
            | Request::Start { .. }
            | Request::End { .. }
            | Request::Recover { .. }
            | Request::Get { .. }
            | Request::Put { .. }
            | Request::Delete { .. }
            | Request::Doom { .. }
            | Request::Restart
            | Request::Timeout { .. }
            | Request::Tick { .. }
            | Request::Trim
            | Request::Branches { .. } => None,
        }
    }

    /// That of a commit with these flags.
    pub fn of_commit(flags: u32) -> Row
        ensures { result ≡ commit_row flags }
    {
        if flags & TMONEPHASE == TMONEPHASE {
            Row::Writes(Writing::CommitOnePhase)
        } else {
            Row::CommitTwoPhase
        }
    }

    /// What is answered if the record is refused: the coordinator may ask again for a commit in two phases.
    pub fn refused_code(self) -> Code
        ensures { result ≡ refused_code self }
    {
        match self {
            Row::CommitTwoPhase => XA_RETRY,
            Row::Writes(_) | Row::Rollback | Row::Decide(_) | Row::Forget => XAER_RMERR,
        }
    }
}

impl Writing {
    /// The record of a branch that has written.
    pub fn record(self, xid: Xid, timestamp: u64, writes: Writes) -> Record
        ensures { result ≡ written_record self xid timestamp writes }
    {
        match self {
            Writing::Prepare => Record::Prepared {
                xid,
                timestamp,
                writes,
            },
            Writing::CommitOnePhase => Record::Committed {
                xid,
                timestamp,
                writes,
            },
        }
    }

    /// How many more branches are prepared once the record is kept.
    pub fn more(self) -> u64
        ensures { result ≡ more_of self }
    {
        match self {
            Writing::Prepare => 1,
            Writing::CommitOnePhase => 0,
        }
    }

    /// What is answered for a branch that has written nothing.
    pub fn unwritten_code(self) -> Code
        ensures { result ≡ unwritten_code self }
    {
        match self {
            Writing::Prepare => XA_RDONLY,
            Writing::CommitOnePhase => XA_OK,
        }
    }
}

ghost use Rattle.std.specs.Prelude.{◌≡◌, ◌<◌, ◌^◌, IfOk};
ghost use Rattle.xa_frame.specs.Limits.{Holds, HoldsCursor};

use crate::known_branch::KnownBranch;
use crate::request::Request;
use std::alloc::{AllocError, Global};
use xa_xid::Xid;

impl Request {
    /// A copy. Values and open infos take memory.
    pub fn copied(&self, alloc: Global) -> Result<Request, AllocError>
        ensures { IfOk result (λ r. r ≡ self.now) }
    {
        Ok(match self {
            Request::Open { flags, info } => Request::Open {
                flags: *flags,
                info: info.copied(alloc)?,
            },
            Request::Close { flags } => Request::Close { flags: *flags },
            Request::Start { flags, xid } => Request::Start {
                flags: *flags,
                xid: xid.copied(),
            },
            Request::End { flags, xid } => Request::End {
                flags: *flags,
                xid: xid.copied(),
            },
            Request::Prepare { flags, xid } => Request::Prepare {
                flags: *flags,
                xid: xid.copied(),
            },
            Request::Commit { flags, xid } => Request::Commit {
                flags: *flags,
                xid: xid.copied(),
            },
            Request::Rollback { flags, xid } => Request::Rollback {
                flags: *flags,
                xid: xid.copied(),
            },
            Request::Forget { flags, xid } => Request::Forget {
                flags: *flags,
                xid: xid.copied(),
            },
            Request::Recover { flags, count } => Request::Recover {
                flags: *flags,
                count: *count,
            },
            Request::Get { key } => Request::Get { key: key.copied() },
            Request::Put { key, value } => Request::Put {
                key: key.copied(),
                value: value.copied(alloc)?,
            },
            Request::Delete { key } => Request::Delete { key: key.copied() },
            Request::Decide { direction, xid } => Request::Decide {
                direction: *direction,
                xid: xid.copied(),
            },
            Request::Doom { xid } => Request::Doom { xid: xid.copied() },
            Request::Restart => Request::Restart,
            Request::Timeout { seconds } => Request::Timeout { seconds: *seconds },
            Request::Tick { moment } => Request::Tick { moment: *moment },
            Request::Trim => Request::Trim,
            Request::Branches { count, after } => Request::Branches {
                count: *count,
                after: copied_cursor(after),
            },
        })
    }

    /// What the types of its parts hold: numbers of 32 and of 64 bits, and XIDs. It does nothing.
    pub fn hold(&self)
        ensures { Holds self.now }
    {
        match self {
            Request::Open { flags, .. } | Request::Close { flags } => hold_number(*flags),
            Request::Recover { flags, count } => {
                hold_number(*flags);
                hold_number(*count);
            }
            Request::Start { flags, xid }
            | Request::End { flags, xid }
            | Request::Prepare { flags, xid }
            | Request::Commit { flags, xid }
            | Request::Rollback { flags, xid }
            | Request::Forget { flags, xid } => {
                hold_number(*flags);
                xid.hold();
            }
            Request::Decide { xid, .. } | Request::Doom { xid } => xid.hold(),
            Request::Timeout { seconds } => hold_number(*seconds),
            Request::Tick { moment } => hold_moment(*moment),
            Request::Branches { count, after } => {
                hold_number(*count);
                hold_cursor(after);
            }
            Request::Get { .. }
            | Request::Put { .. }
            | Request::Delete { .. }
            | Request::Restart
            | Request::Trim => {}
        }
    }
}

impl KnownBranch {
    /// A copy. Takes no memory.
    pub fn copied(&self) -> KnownBranch
        ensures { result ≡ self.now }
    {
        KnownBranch {
            xid: self.xid.copied(),
            state: self.state,
            mark: self.mark,
            timestamp: self.timestamp,
            associations: self.associations,
        }
    }
}

fn copied_cursor(after: &Option<Xid>) -> Option<Xid>
    ensures { result ≡ after.now }
{
    match after {
        Some(xid) => Some(xid.copied()),
        None => None,
    }
}

/// What a number of 32 bits holds.
fn hold_number(number: u32)
    ensures { number < 2 ^ 32 }
{
    let _number = number;
}

/// What a number of 64 bits holds.
fn hold_moment(moment: u64)
    ensures { moment < 2 ^ 64 }
{
    let _moment = moment;
}

/// What an XID holds, if there is one.
fn hold_cursor(after: &Option<Xid>)
    ensures { HoldsCursor after.now }
{
    if let Some(xid) = after {
        xid.hold();
    }
}

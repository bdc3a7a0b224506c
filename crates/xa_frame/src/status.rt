ghost use Rattle.std.specs.Int.{w64};
ghost use Rattle.std.specs.Prelude.{◌≡◌, ◌++◌, OnOk};
ghost use Rattle.xa_fields.specs.Answers.{Gives};
ghost use Rattle.xa_frame.specs.{Limits.HoldsStatus, Reading.status_at, Spelling.status_bytes};

use crate::fault::FrameFault;
use crate::fields::u64_at;
use std::alloc::AllocError;
use xa_bytes::put_u64;

/// How a server is doing. Of a manager that is down `boot`, `end`, `branches`, `prepared` and `completed` are 0: nothing
/// is known of them until it is restarted.
#[derive(Clone, Copy, Debug, PartialEq, Eq)]
pub struct Status {
    /// The boot of the manager's timestamps, from 1.
    pub boot: u64,
    /// Where the log ends, in bytes.
    pub end: u64,
    /// How many bytes each of the log's files may have.
    pub bytes: u64,
    /// How many branches are known.
    pub branches: u64,
    /// How many of them are prepared.
    pub prepared: u64,
    /// How many of them the operator completed that are not forgotten.
    pub completed: u64,
    /// How many sessions are connected.
    pub sessions: u64,
    /// How many versions of all keys are kept in memory.
    pub versions: u64,
    /// How many entries the history has: connects, calls and hang-ups.
    pub calls: u64,
    /// For how many seconds the server has been up.
    pub seconds: u64,
}

// The numbers of a program have 64 bits.
fn hold(_status: Status)
    ensures { HoldsStatus _status }
{}

pub(crate) fn put_status(out: &mut Vec<u8>, status: Status) -> Result<(), AllocError>
    ensures bytes { OnOk result (out.new.items ≡ out.old.items ++ status_bytes status) }
    ensures holds { HoldsStatus status }
{
    hold(status);
    put_u64(out, status.boot)?;
    put_u64(out, status.end)?;
    put_u64(out, status.bytes)?;
    put_u64(out, status.branches)?;
    put_u64(out, status.prepared)?;
    put_u64(out, status.completed)?;
    put_u64(out, status.sessions)?;
    put_u64(out, status.versions)?;
    put_u64(out, status.calls)?;
    put_u64(out, status.seconds)
}

/// The numbers of a status. Takes no memory.
#[tactic(auto, unfolding(crate::specs::Reading::status_at))]
pub(crate) fn status_front(bytes: &[u8]) -> Result<(Status, &[u8]), FrameFault>
    ensures { Gives (λ x. (x.0, x.1.now)) result (status_at bytes.now) }
{
    let (boot, rest) = u64_at(bytes)?;
    let (end, rest) = u64_at(rest)?;
    let (bytes, rest) = u64_at(rest)?;
    let (branches, rest) = u64_at(rest)?;
    let (prepared, rest) = u64_at(rest)?;
    let (completed, rest) = u64_at(rest)?;
    let (sessions, rest) = u64_at(rest)?;
    let (versions, rest) = u64_at(rest)?;
    let (calls, rest) = u64_at(rest)?;
    let (seconds, rest) = u64_at(rest)?;
    let status = Status {
        boot,
        end,
        bytes,
        branches,
        prepared,
        completed,
        sessions,
        versions,
        calls,
        seconds,
    };
    Ok((status, rest))
}

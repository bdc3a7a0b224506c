ghost use Rattle.std.specs.Prelude.{◌≡◌};
ghost use Rattle.xa_reactor.specs.Visited.{replied, visited_by};

use std::fmt;
use xa_assoc::ConnectFault;
use xa_codes::{Code, Detail, XA_OK, XAER_INVAL, XAER_RMERR, XAER_RMFAIL};
use xa_frame::{Body, Reply};

/// What became of a call that a loop makes by a session of its own: a Trim, or a Tick.
#[derive(Clone, Copy, Debug, PartialEq, Eq)]
pub(crate) enum Visited {
    /// It was done, with this number: where the log ends, or how many branches were marked.
    Done(u64),
    /// Nothing changed.
    Refused(Reason),
    /// The manager is down, since then or before. Of that the watch tells.
    Down,
}

/// Why it was refused. Its text is what is told of it.
#[derive(Clone, Copy, Debug, PartialEq, Eq)]
pub(crate) enum Reason {
    Memory,
    /// As many sessions are connected as may be.
    Sessions,
    /// The boots are used up.
    Boots,
    /// The snapshot has no room.
    Full,
    /// A device call failed.
    Device,
    /// The moment is before the last one.
    Clock,
    /// It was answered by this code, by which neither is.
    Other(Code),
}

/// What became of it, by its reply, or by why no session was connected for it.
pub(crate) fn visited_by(answered: &Result<Reply, ConnectFault>) -> Visited
    ensures { result ≡ visited_by answered.now }
{
    match answered {
        Ok(reply) => replied(reply),
        Err(ConnectFault::Memory) => Visited::Refused(Reason::Memory),
        Err(ConnectFault::Full) => Visited::Refused(Reason::Sessions),
    }
}

fn replied(reply: &Reply) -> Visited
    ensures { result ≡ replied reply.now }
{
    match (reply.code, reply.detail, &reply.body) {
        (XA_OK, _, Body::Number(end)) => Visited::Done(*end),
        (XAER_RMERR, Detail::Limit, _) => Visited::Refused(Reason::Boots),
        (XAER_RMERR, Detail::LogFull, _) => Visited::Refused(Reason::Full),
        (XAER_RMERR, Detail::Device, _) => Visited::Refused(Reason::Device),
        (XAER_RMFAIL, Detail::Memory, _) => Visited::Refused(Reason::Memory),
        (XAER_RMFAIL, _, _) => Visited::Down,
        (XAER_INVAL, Detail::Nothing, _) => Visited::Refused(Reason::Clock),
        (code, _, _) => Visited::Refused(Reason::Other(code)),
    }
}

impl fmt::Display for Reason {
    fn fmt<W: fmt::Write>(&self, f: &mut fmt::Formatter<W>) -> fmt::Result {
        match self {
            Reason::Memory => f.write_str("out of memory"),
            Reason::Sessions => f.write_str("there is no free session"),
            Reason::Boots => f.write_str("no boots are left for trims"),
            Reason::Clock => f.write_str("the clock went back"),
            Reason::Full => f.write_str("the log has no room for what is still needed"),
            Reason::Device => f.write_str("a device call failed"),
            Reason::Other(code) => write!(f, "the call returned {code}"),
        }
    }
}

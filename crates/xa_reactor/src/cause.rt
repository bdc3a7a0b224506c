ghost use Rattle.std.specs.Prelude.{◌≡◌, Some};
ghost use Rattle.xa_reactor.specs.Believed.Down.{cause_of, news_of};

use std::fmt;
use xa_codes::{Detail, XA_OK, XAER_RMFAIL};
use xa_frame::Reply;

/// Why a manager went down. Its text is what is told of it.
#[derive(Clone, Copy, Debug, PartialEq, Eq)]
pub(crate) enum Cause {
    /// A call's record may have reached the log, and may not.
    Lost,
    /// A device call of a Restart failed.
    Device,
    /// A Restart found files that aren't its log.
    Log,
    /// A Restart found no room in the log for the new boot.
    Full,
    /// A Restart found the boots used up.
    Boots,
}

/// The causes by their numbers.
const CAUSES: [Cause; 5] = [
    Cause::Lost,
    Cause::Device,
    Cause::Log,
    Cause::Full,
    Cause::Boots,
];

impl Cause {
    ghost use Rattle.std.specs.Prelude.{slice_get};
    ghost use Rattle.xa_reactor.specs.declared.cause.TheConstants.{CAUSES};

    pub(crate) fn number(self) -> u64
        ensures { slice_get CAUSES result ≡ Some self }
    {
        match self {
            Cause::Lost => 0,
            Cause::Device => 1,
            Cause::Log => 2,
            Cause::Full => 3,
            Cause::Boots => 4,
        }
    }

    /// The cause with a number.
    pub(crate) fn numbered(number: u64) -> Option<Cause>
        ensures { result ≡ slice_get CAUSES number }
    {
        CAUSES.get(number as usize).copied()
    }
}

/// Why the manager is down from this reply on, to a Restart or to another call; None if it isn't, or was before.
pub(crate) fn cause_of(is_restart: bool, reply: &Reply) -> Option<Cause>
    ensures { result ≡ cause_of is_restart reply.now }
{
    match (reply.code, is_restart, reply.detail) {
        (XAER_RMFAIL, false, Detail::Device) => Some(Cause::Lost),
        (XAER_RMFAIL, true, Detail::Device) => Some(Cause::Device),
        (XAER_RMFAIL, true, Detail::Nothing) => Some(Cause::Log),
        (XAER_RMFAIL, true, Detail::LogFull) => Some(Cause::Full),
        (XAER_RMFAIL, true, Detail::Limit) => Some(Cause::Boots),
        _ => None,
    }
}

/// What a reply tells of the manager.
#[derive(Clone, Copy, Debug, PartialEq, Eq)]
pub(crate) enum News {
    /// It is down from this reply on.
    Down(Cause),
    /// A Restart succeeded.
    Up,
}

/// What this reply tells of the manager, to a Restart or to another call.
pub(crate) fn news_of(is_restart: bool, reply: &Reply) -> Option<News>
    ensures { result ≡ news_of is_restart reply.now }
{
    if let Some(cause) = cause_of(is_restart, reply) {
        return Some(News::Down(cause));
    }
    match (reply.code, is_restart, reply.detail) {
        (XA_OK, true, Detail::Nothing) => Some(News::Up),
        _ => None,
    }
}

impl fmt::Display for Cause {
    fn fmt<W: fmt::Write>(&self, f: &mut fmt::Formatter<W>) -> fmt::Result {
        f.write_str(match self {
            Cause::Lost => "it is unknown whether a record reached the log",
            Cause::Device => "a device call failed during a Restart",
            Cause::Log => "the files are no longer this manager's log",
            Cause::Full => "the log has no room for a new boot",
            Cause::Boots => "all boots are used up",
        })
    }
}

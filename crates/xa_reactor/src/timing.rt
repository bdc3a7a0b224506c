//! The times of a loop, in milliseconds.
ghost use Rattle.std.specs.Prelude.{◌≡◌};
ghost use Rattle.std.specs.Duration.{as_nanos};
ghost use Rattle.xa_reactor.specs.Timing.{IsToEnd, gather_nanos, is_overdue, is_too_quiet, looks_of, wait_of};

use crate::common::Settings;
use crate::reception::Reception;
use std::time::Duration;
use xa_waits::{LOOKS, QUICK_GATHERS};

/// For how long accepting pauses after an accept failed.
pub(crate) const PAUSE: u64 = 100;

/// How long it is from one look for connections that are overdue to the next.
pub(crate) const LOOK: u64 = 1_000;

/// How often a loop with this many connections looks: the more they are, the sooner one of them wakes it, and the more others
/// want the processor.
pub(crate) fn looks_of(connections: usize) -> usize
    ensures { result ≡ looks_of connections }
{
    LOOKS / connections.max(1)
}

/// For how long it waits for events when it has looked so often: not at all, later a millisecond.
pub(crate) fn gather_wait(looks: u32) -> Duration
    ensures { as_nanos result ≡ gather_nanos looks }
{
    Duration::from_millis(u64::from(looks >= QUICK_GATHERS))
}

/// Whether a connection is overdue: it brought a part of a frame, and for this many seconds, if there is such a limit, no
/// byte more.
pub(crate) fn is_overdue(is_inside: bool, quiet: u64, seconds: u64) -> bool
    ensures { result ≡ is_overdue is_inside quiet seconds }
{
    is_inside && is_too_quiet(quiet, seconds)
}

/// Whether a connection was quiet for this many seconds, if there is such a limit. For how long it was is in milliseconds.
pub(crate) fn is_too_quiet(quiet: u64, seconds: u64) -> bool
    ensures { result ≡ is_too_quiet quiet seconds }
{
    seconds > 0 && quiet / 1_000 >= seconds
}

/// How long to wait for an event, None until one comes: not at all if a connection has a turn; a moment if accepting pauses, or
/// something that was asked is to be looked at again; until the next look, if there are connections.
pub(crate) fn wait_of(has_turn: bool, pauses: bool, has_connections: bool) -> Option<u64>
    ensures { result ≡ wait_of has_turn pauses has_connections }
{
    if has_turn {
        Some(0)
    } else if pauses {
        Some(PAUSE)
    } else if has_connections {
        Some(LOOK)
    } else {
        None
    }
}

/// Whether the connection of a session is to end, by whether it is inside a frame, and for how long it was quiet. A session
/// all of whose branches are marked counts as idle.
pub(crate) fn is_to_end<D: Reception>(
    door: &D,
    session: u64,
    is_inside: bool,
    quiet: u64,
    settings: &Settings,
) -> bool
    ensures { IsToEnd (D.ties door.now session) is_inside quiet settings.now result }
{
    if is_overdue(is_inside, quiet, settings.frame_seconds) {
        return true;
    }
    let ends_idle = is_too_quiet(quiet, settings.idle_seconds);
    let ends_busy = is_too_quiet(quiet, settings.branch_seconds);
    if ends_idle == ends_busy {
        return ends_idle;
    }
    if ends_busy {
        door.has_association(session)
    } else {
        !door.has_unmarked(session)
    }
}

//! The loops tell the manager the time, by a session of its own.
ghost use Rattle.std.specs.Prelude.{◌≡◌, ◌⊎◌, ◌<◌};
ghost use Rattle.xa_reactor.specs.{Ticks.IsTimed, Ticks.after_visit, Ticks.next_tick, Visited.visited_by};

use crate::common::Common;
use crate::reception::Reception;
use crate::ticks::Ticks;
use crate::visited::{Visited, visited_by};
use crate::visiting::visit;
use std::rt::Clock;
use std::sync::Wait;
use xa_assoc::ConnectFault;
use xa_frame::{Reply, Request, encode_request};

/// For how many milliseconds a tick that is due waits at most until no other loop is at the device.
const LATE: u64 = 10_000;

/// Tells the manager the time if that is due, and what came of it. When it is due next, by the loop's clock. The first time
/// comes before the loop accepts a connection, so no branch begins before it.
pub(crate) fn keep_time<D: Reception, R: AllocGlobal + Clock + Eprint + Wait>(
    rt: &R,
    common: &Common<'_>,
    door: &mut D,
    now: u64,
    due: u64,
) -> u64
    ensures timed { IsTimed D.connected D.called D.left door.old door.new }
    ensures never { common.now.settings.tick_seconds ≡ 0 → door.new ≡ door.old }
    ensures early { now < due → door.new ≡ door.old }
    ensures next { (result ≡ due) ⊎ (result ≡ next_tick now common.now.settings.tick_seconds) }
{
    let seconds = common.settings.tick_seconds;
    if seconds == 0 || now < due || common.watch.is_down() {
        return due;
    }
    let is_first = due == 0;
    if !is_first && now - due < LATE && !door.is_free() {
        return due;
    }
    let ticks = if is_first {
        Some(common.ticks.lock(rt))
    } else {
        common.ticks.try_lock()
    };
    if let Some(mut ticks) = ticks {
        tell(rt, door, &mut ticks, seconds);
    }
    now.saturating_add(seconds.saturating_mul(1_000)).max(1)
}

// Tells the manager the moment that the system's clock says, unless it was told less than this many seconds ago.
fn tell<D: Reception, R: AllocGlobal + Clock + Eprint>(
    rt: &R,
    door: &mut D,
    ticks: &mut Ticks,
    seconds: u64,
)
    ensures { IsTimed D.connected D.called D.left door.old door.new }
{
    let Ok(since) = rt.since_1970() else {
        return;
    };
    let moment = since.as_secs();
    if !ticks.is_due(moment, seconds) {
        return;
    }
    let Ok(content) = encode_request(rt.alloc(), &Request::Tick { moment }) else {
        return;
    };
    let answered = visit(rt.alloc(), door, content.as_slice());
    note(rt, ticks, moment, &answered);
}

// Notes what came of a tick, and tells it: which branches it marked, or why it was refused, once.
fn note<R: Eprint>(rt: &R, ticks: &mut Ticks, moment: u64, answered: &Result<Reply, ConnectFault>)
    ensures { ticks.new ≡ after_visit ticks.old moment (visited_by answered.now) }
{
    match visited_by(answered) {
        Visited::Done(marked) => {
            ticks.finish(moment);
            tell_marked(rt, marked);
        }
        Visited::Refused(reason) => {
            if ticks.refuse() {
                let _ = eprintln!(rt; "xarm: tick refused: {reason}");
            }
        }
        Visited::Down => {}
    }
}

// Tells how many branches were marked, if any were.
fn tell_marked<R: Eprint>(rt: &R, marked: u64) {
    let branches = if marked == 1 { "branch" } else { "branches" };
    if marked > 0 {
        let _ = eprintln!(rt; "xarm: {marked} {branches} marked rollback-only: time limit");
    }
}

//! A trim of the log, by an operator's session of its own.
ghost use Rattle.std.specs.Prelude.{◌≡◌, ◌<◌, ◌≤◌, IsTrue, true};
ghost use Rattle.xa_reactor.specs.Aside.{IsAside};
ghost use Rattle.xa_reactor.specs.Trims.{IsTrimmedAt, bound_of, is_quick};

use crate::clock::LoopClock;
use crate::common::Common;
use crate::reception::Reception;
use crate::trims::Trims;
use crate::visited::{Visited, visited_by};
use crate::visiting::visit;
use std::rt::Clock;
use std::sync::Wait;
use std::time::Instant;

/// The content of the frame of a Trim.
const TRIM: [u8; 2] = [1, 65];

/// After how many calls at its door that may have moved the log's end a loop asks for that.
const PACE: u64 = 4;

/// The same if it would have to wait for other loops.
const SLOW_PACE: u64 = 16;

/// A loop begins: it looks where the log ends, before anybody is answered.
pub(crate) fn begin_trims<D: Reception, R: Wait>(rt: &R, common: &Common<'_>, door: &D) {
    if common.settings.trim_bytes > 0 {
        let end = door.log_end();
        common.trims.lock(rt).look(end);
    }
}

/// Trims the log if that is due, and tells of it, for which it may wait. The calls at the door are `seen` when the log's
/// end is asked for.
pub(crate) fn keep_short<D: Reception, R: AllocGlobal + Clock + Eprint + Wait>(
    rt: &R,
    common: &Common<'_>,
    door: &mut D,
    clock: &mut LoopClock,
    seen: &mut u64,
)
    ensures aside { IsAside D.connected D.called D.left TRIM door.old door.new }
    ensures above { IsTrimmedAt D.ends (λ end. bound_of common.now.settings.trim_bytes common.now.settings.log_bytes < end) door.old
        door.new }
    ensures never { common.now.settings.trim_bytes ≡ 0 → door.new ≡ door.old }
    ensures waited { clock.new.is_past ≡ true }
{
    let now = clock.now(rt);
    clock.pass();
    let logged = door.logged();
    if common.settings.trim_bytes == 0 || !is_to_look(door, logged.wrapping_sub(*seen)) {
        return;
    }
    *seen = logged;
    if common.watch.is_down() {
        return;
    }
    // no two loops trim one log
    let Some(mut trims) = common.trims.try_lock() else {
        return;
    };
    let end = door.log_end();
    trims.look(end);
    if trims.is_to_trim(&common.settings, now, end) {
        trim(rt, door, &mut trims, now, end);
    }
}

/// Trims the log as the server ends, if that is quick and makes it shorter: so the next start reads less.
pub(crate) fn trim_last<D: Reception, R: AllocGlobal + Clock + Eprint + Wait>(
    rt: &R,
    common: &Common<'_>,
    door: &mut D,
    now: u64,
)
    ensures aside { IsAside D.connected D.called D.left TRIM door.old door.new }
    ensures quick { IsTrimmedAt D.ends (λ end. is_quick end ≡ true) door.old door.new }
    ensures never { common.now.settings.trim_bytes ≡ 0 → door.new ≡ door.old }
{
    if common.settings.trim_bytes == 0 || common.watch.is_down() {
        return;
    }
    let Some(mut trims) = common.trims.try_lock() else {
        return;
    };
    let end = door.log_end();
    if trims.is_to_trim_last(end) {
        trim(rt, door, &mut trims, now, end);
    }
}

// Whether to ask for the log's end, this many calls after it was asked for.
fn is_to_look<D: Reception>(door: &D, calls: u64) -> bool
    ensures seldom { IsTrue result → 4 ≤ calls }
    ensures often { 16 ≤ calls → result ≡ true }
{
    calls >= SLOW_PACE || calls >= PACE && door.is_free()
}

// Trims the log, which ends there, and tells of it.
fn trim<D: Reception, R: AllocGlobal + Clock + Eprint>(
    rt: &R,
    door: &mut D,
    trims: &mut Trims,
    now: u64,
    end: u64,
)
    ensures { IsAside D.connected D.called D.left TRIM door.old door.new }
{
    let began = Instant::now(rt).ok();
    let answered = visit(rt.alloc(), door, &TRIM);
    match visited_by(&answered) {
        Visited::Done(after) => {
            trims.finish(after);
            let millis = millis_since(rt, began);
            let _ = eprintln!(rt; "xarm: log trimmed from {end} to {after} bytes in {millis} ms");
        }
        Visited::Refused(reason) => {
            if trims.refuse(now, end) {
                let _ = eprintln!(rt; "xarm: log not trimmed: {reason}");
            }
        }
        Visited::Down => {}
    }
}

// How many milliseconds have passed, 0 if the clock doesn't tell.
fn millis_since<R: Clock>(rt: &R, began: Option<Instant>) -> u64 {
    let Some(began) = began else {
        return 0;
    };
    match began.elapsed(rt) {
        Ok(elapsed) => u64::try_from(elapsed.as_millis()).unwrap_or(u64::MAX),
        Err(_) => 0,
    }
}

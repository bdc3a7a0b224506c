//! What a loop does between its rounds of what connections asked of the server itself.
ghost use Rattle.xa_reactor.specs.{Users.IsPassed, Users.LogsAt, Users.users_of};
ghost use Rattle.xa_reactor.specs.Believed.Tending.{sessions_of};
ghost use Rattle.std.specs.Prelude.{◌≡◌, Err, IfErr, IfOk};
ghost use Rattle.xa_codes.specs.declared.detail.Detail.TheVariants as detail;
ghost use Rattle.xa_reactor.specs.Orders.{IsOutcome, TellsSessions};
ghost use Rattle.xa_reactor.specs.ForAll.{PeersTend, PeersTendAs};

use crate::clock::LoopClock;
use crate::common::Common;
use crate::cutting::cut_peers;
use crate::logging_in::Passed;
use crate::orders::Wish;
use crate::peer::Step;
use crate::peers::Peers;
use crate::reception::Reception;
use crate::round::Round;
use std::alloc::{AllocError, Global};
use std::random::RandomSource;
use std::rt::Clock;
use std::sync::Wait;
use xa_codes::{Detail, XAER_INVAL, XAER_RMFAIL};
use xa_control::{Answer, Control, FEATURES, Hello, LOGINS, Numbers, REVISION};
use xa_users::Users;

/// Answers what connections asked of the server itself, and ends those that any loop was ordered to.
pub(crate) fn attend<D: Reception, R: Clock + Eprint + RandomSource + Wait>(
    rt: &R,
    common: &Common<'_>,
    index: usize,
    round: Round<'_>,
    clock: &mut LoopClock,
    peers: &mut Peers,
    door: &mut D,
)
    ensures { PeersTendAs D.connected D.called D.left (users_of common.now) peers.old.all door.old peers.new.all door.new }
{
    attend_all(rt, common, round, clock, peers, door);
    cut_all(rt, common, index, peers, door);
    // what waited for no other loop is answered at once
    attend_all(rt, common, round, clock, peers, door);
}

// Attends to each that asked something, once.
fn attend_all<D: Reception, R: Clock + Eprint + RandomSource + Wait>(
    rt: &R,
    common: &Common<'_>,
    round: Round<'_>,
    clock: &mut LoopClock,
    peers: &mut Peers,
    door: &mut D,
)
    ensures { PeersTendAs D.connected D.called D.left (users_of common.now) peers.old.all door.old peers.new.all door.new }
{
    for _ in 0..peers.orders.len() {
        let Some(wish) = peers.orders.next() else {
            return;
        };
        attend_one(rt, common, round, clock, peers, door, wish);
    }
}

/// What becomes of something that was asked.
#[derive(Debug, Drop)]
enum Outcome {
    /// Nothing is asked any more.
    Gone,
    /// It is looked at again later: it is a login that failed.
    PutOff,
    /// It waits for the order of this number.
    Waits(u64),
    Answered(Answer),
}

fn attend_one<D: Reception, R: Clock + Eprint + RandomSource + Wait>(
    rt: &R,
    common: &Common<'_>,
    round: Round<'_>,
    clock: &mut LoopClock,
    peers: &mut Peers,
    door: &mut D,
    wish: Wish,
)
    ensures { PeersTendAs D.connected D.called D.left (users_of common.now) peers.old.all door.old peers.new.all door.new }
{
    let outcome = look_at(rt, common, round, clock, peers, door, wish);
    settle(rt, common, round, clock, peers, door, wish, outcome);
}

// What becomes of what was asked. A connection may have logged in by it.
fn look_at<D: Reception, R: Clock + Eprint + RandomSource + Wait>(
    rt: &R,
    common: &Common<'_>,
    round: Round<'_>,
    clock: &mut LoopClock,
    peers: &mut Peers,
    door: &D,
    wish: Wish,
) -> Outcome
    ensures logs { LogsAt (users_of common.now) (sessions_of peers.old.all) (sessions_of peers.new.all) }
    ensures answer { IsOutcome result }
{
    if let Some(number) = wish.cut {
        return outcome_of(rt, common, number);
    }
    let now = clock.now(rt);
    if let Some(until) = peers.pause(wish.key) {
        return if now < until {
            Outcome::PutOff
        } else {
            Outcome::Answered(Answer::Refused(XAER_INVAL, Detail::Access))
        };
    }
    match peers.control(round.alloc, wish.key) {
        Some(Control::First(_) | Control::Final(_)) => {
            passed(peers.log_in(rt, common, round.alloc, now, wish.key))
        }
        Some(control) => begin(rt, common, round.alloc, door, control),
        None => Outcome::Gone,
    }
}

// What becomes of a part of a login.
fn passed(passed: Passed) -> Outcome
    requires { IsPassed passed }
    ensures { IsOutcome result }
{
    match passed {
        Passed::Nothing => Outcome::Gone,
        Passed::Answers(answer) => Outcome::Answered(answer),
        Passed::Fails => Outcome::PutOff,
    }
}

// What was asked is answered, or waits.
fn settle<D: Reception, R: Clock + Eprint + Wait>(
    rt: &R,
    common: &Common<'_>,
    round: Round<'_>,
    clock: &mut LoopClock,
    peers: &mut Peers,
    door: &mut D,
    wish: Wish,
    outcome: Outcome,
)
    requires { IsOutcome outcome }
    ensures { PeersTend D.connected D.called D.left peers.old.all door.old peers.new.all door.new }
{
    match outcome {
        Outcome::Gone => {}
        Outcome::PutOff => {
            if !peers.put_off(wish.key) {
                peers.go_on(door, wish.key, Step::Ends);
            }
        }
        Outcome::Waits(number) => {
            if !peers.wait_for(wish.key, number) {
                let _ = common.cuts.take(rt, number);
                peers.go_on(door, wish.key, Step::Ends);
            }
        }
        Outcome::Answered(answer) => {
            if let Some(step) = peers.answer_control(rt, round, clock, wish, &answer) {
                peers.go_on(door, wish.key, step);
            }
        }
    }
}

// What becomes of what was asked for the first time.
fn begin<D: Reception, R: Wait>(
    rt: &R,
    common: &Common<'_>,
    alloc: Global,
    door: &D,
    control: Control,
) -> Outcome
    ensures answer { IsOutcome result }
    ensures sessions { TellsSessions (D.attached door.now) control result }
{
    match control {
        Control::Hello(_) => Outcome::Answered(Answer::Hello(Hello {
            revision: REVISION,
            features: features_of(common.users),
        })),
        Control::Disconnect(session) => match common.cuts.give(rt, session) {
            Ok(number) => {
                common.wake_all();
                Outcome::Waits(number)
            }
            Err(_) => Outcome::Answered(Answer::Refused(XAER_RMFAIL, Detail::Memory)),
        },
        Control::Sessions(xid) => match numbers_of(door.sessions_of(alloc, &xid)) {
            Ok(sessions) => Outcome::Answered(Answer::Sessions(sessions)),
            Err(detail) => Outcome::Answered(Answer::Refused(XAER_RMFAIL, detail)),
        },
        Control::Metrics => match numbers_of(counted(common, alloc, door)) {
            Ok(counts) => Outcome::Answered(Answer::Metrics(counts)),
            Err(detail) => Outcome::Answered(Answer::Refused(XAER_RMFAIL, detail)),
        },
        // these are looked at before
        Control::First(_) | Control::Final(_) | Control::Shutdown => {
            Outcome::Answered(Answer::Refused(XAER_INVAL, Detail::Frame))
        }
    }
}

// What a server does, by whether there are users.
fn features_of(users: Option<&Users>) -> u64 {
    match users {
        Some(_) => FEATURES + LOGINS,
        None => FEATURES,
    }
}

// The same numbers, if there was memory for them, and they aren't too many for an answer.
fn numbers_of(numbers: Result<Vec<u64>, AllocError>) -> Result<Numbers, Detail>
    ensures same { IfOk result (λ all. IfOk numbers (λ v. all ≡ v.items)) }
    ensures none { IfErr numbers (λ _. result ≡ Err detail.Memory) }
{
    match numbers {
        Ok(numbers) => Numbers::new(numbers).ok_or(Detail::Limit),
        Err(_) => Err(Detail::Memory),
    }
}

// What the loops have counted, and the doors.
fn counted<D: Reception>(
    common: &Common<'_>,
    alloc: Global,
    door: &D,
) -> Result<Vec<u64>, AllocError> {
    let mut counts = Vec::new(alloc);
    common.put_counts(&mut counts)?;
    door.put_counts(&mut counts)?;
    Ok(counts)
}

// What becomes of an order: once each loop has looked at it, whether a connection was ended.
fn outcome_of<R: Wait>(rt: &R, common: &Common<'_>, number: u64) -> Outcome
    ensures { IsOutcome result }
{
    if !common.all_have_looked(number) {
        return Outcome::Waits(number);
    }
    if common.cuts.take(rt, number) {
        Outcome::Answered(Answer::Done)
    } else {
        Outcome::Answered(Answer::Refused(XAER_INVAL, Detail::Nothing))
    }
}

// Ends the connections of the loop that orders mean at which it hasn't looked.
fn cut_all<D: Reception, R: Wait>(
    rt: &R,
    common: &Common<'_>,
    index: usize,
    peers: &mut Peers,
    door: &mut D,
)
    ensures { PeersTend D.connected D.called D.left peers.old.all door.old peers.new.all door.new }
{
    let given = common.cuts.given();
    let mut looked = common.looked(index);
    if looked >= given {
        return;
    }
    for _ in 0..u32::MAX {
        let Some(cut) = common.cuts.next(rt, looked) else {
            break;
        };
        if cut_peers(peers, door, cut) {
            common.cuts.end(rt, cut.number);
        }
        looked = cut.number.saturating_add(1);
    }
    common.look(index, looked.max(given));
}

ghost use Rattle.std.specs.Prelude.{ℕ, ◌≡◌, ◌+◌, ◌<◌, IfSome};
ghost use Rattle.xa_frame.specs.Limits.{IsRequest};
ghost use Rattle.xa_model.specs.State.{State};
ghost use Rattle.xa_sequencer.specs.Believed.GroupManager.{alone};

use crate::desks::opened;
use std::alloc::Global;
use std::marker::Brand;
use std::rt::Clock;
use std::sync::Wait;
use xa_codes::XA_OK;
use xa_disk::MemDisk;
use xa_frame::Request;
use xa_handles::{Content, Handle, Held, SharedSequencer, Tally};
use xa_history::Start;
use xa_manager::Manager;
use xa_script::{Line, read_line};
use xa_sequencer::{Manages, Sequencer};
use xa_tokens::{Book, Opened};

pub fn call_of(alloc: Global, line: &str) -> Option<(u64, Request)>
    ensures { IfSome result (λ call. IsRequest call.1) }
{
    match read_line(alloc, line.as_bytes()).ok()? {
        Line::Call(session, request) => Some((session, request)),
        _ => None,
    }
}

// Whether each line is answered by 0.
fn calls<M: Manages, S: Start, B: Book, R: Clock + Wait>(
    alloc: Global,
    handle: &mut Handle<'_, M, S, B, R>,
    lines: &[&str],
) -> Option<bool> {
    let mut are_right = true;
    for line in lines {
        let (session, request) = call_of(alloc, line)?;
        let held = handle.hold();
        let (reply, _held) = handle.call_held(held, session, request);
        are_right &= reply.code == XA_OK;
    }
    Some(are_right)
}

fn posts<M: Manages, S: Start, B: Book, R: Clock + Wait>(
    alloc: Global,
    handle: &mut Handle<'_, M, S, B, R>,
    place: usize,
    line: &str,
) -> Option<()> {
    let (session, request) = call_of(alloc, line)?;
    let owed = handle.owed();
    handle.post(place, session, &request);
    (handle.owed() > owed).then_some(())
}

// The number of the next answer, if it is 0 to this line, at this place, and to no other session.
fn takes<M: Manages, S: Start, B: Book, R: Clock + Wait>(
    alloc: Global,
    handle: &mut Handle<'_, M, S, B, R>,
    held: &mut Held<'_, M, S, B>,
    place: usize,
    line: &str,
) -> Option<u64> {
    let (session, request) = call_of(alloc, line)?;
    if handle.owed() == 0 {
        return None;
    }
    let letter = handle.next_letter(held)?;
    let is_right = letter.place() == place
        && letter.is_of(session, &request)
        && !letter.is_of(0, &request);
    let (_, _, Content::Answered(answered)) = letter.into_parts() else {
        return None;
    };
    let reply = handle.take_answer(answered);
    (is_right && reply.code == XA_OK).then_some(reply.place)
}

// The number of the next call that comes back as it was, which its handle then answers itself.
fn takes_back<'a, M: Manages, S: Start, B: Book, R: Clock + Wait>(
    handle: &mut Handle<'a, M, S, B, R>,
    held: Held<'a, M, S, B>,
) -> Option<u64> {
    if handle.owed() == 0 {
        return None;
    }
    let mut held = held;
    let letter = handle.next_letter(&mut held)?;
    let (_, _, Content::Posted(posted)) = letter.into_parts() else {
        return None;
    };
    let (reply, _held) = handle.call_back(held, posted);
    Some(reply.place)
}

// Whether each call that the handle posted has come back to it, and was answered.
fn has_all<M: Manages, S: Start, B: Book, R: Clock + Wait>(
    handle: &Handle<'_, M, S, B, R>,
    held: &mut Held<'_, M, S, B>,
) -> bool {
    handle.next_letter(held).is_none() && handle.owed() == 0
}

// What the first handle asks between the group's answer and the moment when it takes its own.
const MEANWHILE: [&str; 8] = [
    "1 start TMNOFLAGS 1:ac:",
    "1 put 70 01",
    "1 get 70",
    "1 put 71 02",
    "1 get 71",
    "1 delete 70",
    "1 end TMSUCCESS 1:ac:",
    "1 rollback TMNOFLAGS 1:ac:",
];

// Two prepares that two handles post are answered together, by the one that has the lock. The first handle takes its answer
// when it has asked for more of its own than there was in all after the group, and nobody asks for it again.
fn share<M: Manages, S: Start, B: Book, R: Clock + Wait>(
    alloc: Global,
    first: &mut Handle<'_, M, S, B, R>,
    second: &mut Handle<'_, M, S, B, R>,
) -> Option<bool> {
    posts(alloc, first, 3, "1 prepare TMNOFLAGS 1:aa:")?;
    posts(alloc, second, 5, "2 prepare TMNOFLAGS 1:bb:")?;
    let held = second.hold();
    drop(second.answer_posted(held));
    let goes_on = calls(alloc, first, &MEANWHILE)?;
    let mut held = second.hold();
    let later = takes(alloc, second, &mut held, 5, "2 prepare TMNOFLAGS 1:bb:")?;
    let earlier = takes(alloc, first, &mut held, 3, "1 prepare TMNOFLAGS 1:aa:")?;
    let is_over = has_all(first, &mut held) && has_all(second, &mut held);
    Some(goes_on && is_over && earlier == 11 && later == 12)
}

// So is a call that is posted alone, with this number.
fn answers_alone<M: Manages, S: Start, B: Book, R: Clock + Wait>(
    alloc: Global,
    handle: &mut Handle<'_, M, S, B, R>,
    line: &str,
    number: u64,
) -> Option<bool> {
    posts(alloc, handle, 0, line)?;
    let held = handle.hold();
    let mut held = handle.answer_posted(held);
    let is_right = takes(alloc, handle, &mut held, 0, line)? == number;
    Some(is_right && has_all(handle, &mut held))
}

// One that logs nothing is left to its handle.
fn leaves<M: Manages, S: Start, B: Book, R: Clock + Wait>(
    alloc: Global,
    handle: &mut Handle<'_, M, S, B, R>,
    line: &str,
    number: u64,
) -> Option<bool> {
    posts(alloc, handle, 0, line)?;
    let held = handle.hold();
    let held = handle.answer_posted(held);
    let is_right = takes_back(handle, held)? == number;
    let mut held = handle.hold();
    Some(is_right && has_all(handle, &mut held))
}

fn answers<M: Manages, S: Start, B: Book, R: Clock + Wait>(
    alloc: Global,
    first: &mut Handle<'_, M, S, B, R>,
    second: &mut Handle<'_, M, S, B, R>,
) -> Option<bool> {
    let are_connected = first.connect() == (Ok(1), 1) && second.connect() == (Ok(2), 2);
    let is_ready = calls(
        alloc,
        first,
        &[
            "1 open TMNOFLAGS xarm",
            "1 start TMNOFLAGS 1:aa:",
            "1 put 6b 76",
            "1 end TMSUCCESS 1:aa:",
        ],
    )?;
    let is_other_ready = calls(
        alloc,
        second,
        &[
            "2 open TMNOFLAGS xarm",
            "2 start TMNOFLAGS 1:bb:",
            "2 put 6c 76",
            "2 end TMSUCCESS 1:bb:",
        ],
    )?;
    let is_shared = share(alloc, first, second)?;
    let is_alone = answers_alone(alloc, first, "1 commit TMNOFLAGS 1:aa:", 21)?;
    let is_left = leaves(alloc, first, "1 forget TMNOFLAGS 1:aa:", 22)?;
    Some(are_connected && is_ready && is_other_ready && is_shared && is_alone && is_left)
}

fn shares_both<M: Manages + Drop, S: Start, B: Book, R: Clock + Wait>(
    rt: &R,
    alloc: Global,
    manager: M,
    history: Opened,
) -> Option<bool>
    requires start { (s : State) → S.start s → M.manages.stands (alone manager) s }
    requires base { M.manages.failures (alone manager) ≡ S.base }
    requires name { history ≡ B.table }
{
    let sequencer: Sequencer<M, S> = Sequencer::new(manager);
    let (shared, mut share) = SharedSequencer::<M, S, B>::new(alloc, sequencer, history);
    let other = shared.split(&mut share);
    let tally = Tally::new(alloc).ok()?;
    let mut first = Handle::new(rt, &shared, &tally, share, alloc).ok()?;
    let mut second = Handle::new(rt, &shared, &tally, other, alloc).ok()?;
    let are_right = answers(alloc, &mut first, &mut second)?;
    Some(are_right && second.status().calls == 22)
}

#[test]
fn posted_calls_share_an_append(rt: HostRuntime) {
    let manager = opened(rt.alloc()).expect(&rt, "a manager");
    let history = Opened::new(rt.alloc()).expect(&rt, "a history");
    let found = shares_both::<Manager<MemDisk>, Brand, Brand, HostRuntime>(
        &rt,
        rt.alloc(),
        manager,
        history,
    );
    assert!(rt; found == Some(true));
}

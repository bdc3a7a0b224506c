ghost use Rattle.std.specs.Prelude.{◌≡◌};
ghost use Rattle.xa_model.specs.State.{State};
ghost use Rattle.xa_sequencer.specs.Believed.GroupManager.{alone};

use crate::desks::opened;
use crate::tests::callers::{Asks, Visit, is_visited};
use crate::tests::pending::are_told;
use crate::tests::posted::call_of;
use crate::tests::rows::none_wrong;
use crate::tests::told::Told;
use std::alloc::Global;
use std::marker::Brand;
use xa_codes::{XA_OK, XAER_PROTO};
use xa_disk::MemDisk;
use xa_frame::{Reply, Request};
use xa_history::{Receipt, Start, placed};
use xa_manager::{Asked, Manager, connect_reply};
use xa_model::Event;
use xa_room::{AuditFault, Room, audit};
use xa_rows::first_wrong;
use xa_script::{Line, read_line};
use xa_sequencer::{Manages, Sequencer};

// Asks what a line of a script says.
fn say<D: Asks>(alloc: Global, caller: &mut D, line: &str) -> Option<()> {
    match read_line(alloc, line.as_bytes()).ok()? {
        Line::Connect => {
            let _session = caller.connect()?;
        }
        Line::Hangup(session) => caller.hangup(session),
        Line::Call(session, request) => {
            let _reply = caller.call(session, request);
        }
        _ => return None,
    }
    Some(())
}

fn say_all<D: Asks>(alloc: Global, caller: &mut D, lines: &[&str]) -> bool {
    lines.iter().all(|line| say(alloc, caller, line).is_some())
}

const OPENS: [&str; 4] = [
    "connect",
    "1 open TMNOFLAGS xarm",
    "connect",
    "2 open TMNOFLAGS xarm",
];

/// What is told in place of four receipts.
#[derive(Clone, Copy)]
enum Change {
    Nothing,
    /// The last one is missing.
    Missing,
    /// The third has another code.
    Code,
    /// The first comes again after them, or in place of the last.
    Again,
    Instead,
    /// The second has this place.
    Place(u64),
}

// The receipt of the first connect.
fn first_receipt() -> Receipt {
    Receipt {
        place: 1,
        event: Event::Connect,
        reply: placed(connect_reply(Ok(1)), 1),
    }
}

fn make(change: Change, told: &mut Vec<Receipt>) -> Option<()> {
    match change {
        Change::Nothing => {}
        Change::Missing => {
            let _last = told.pop()?;
        }
        Change::Code => told.get_mut(2)?.reply.code = XAER_PROTO,
        Change::Again => told.push(first_receipt()).ok()?,
        Change::Instead => *told.get_mut(3)? = first_receipt(),
        Change::Place(place) => told.get_mut(1)?.place = place,
    }
    Some(())
}

/// What is told, how many receipts were dropped and lost, and what an audit finds then.
#[derive(Drop)]
struct Audited(Change, u64, u64, Result<(), AuditFault>);

impl Visit for Audited {
    fn visit<D: Asks>(&self, alloc: Global, caller: &mut D) -> bool {
        say_all(alloc, caller, &OPENS)
    }

    fn judge(&self, alloc: Global, kept: &[Receipt], _lost: u64, told: Vec<Receipt>) -> bool {
        let Audited(change, dropped, lost, wanted) = self;
        let mut told = told;
        make(*change, &mut told).is_some() && audit(alloc, kept, *lost, &told, *dropped) == *wanted
    }
}

const COUNT: Result<(), AuditFault> = Err(AuditFault::Count);

// The second's place isn't one of four.
fn outside(place: u64) -> Audited {
    let fault = AuditFault::Place {
        receipt: 1,
        place,
        last: 4,
    };
    Audited(Change::Place(place), 0, 0, Err(fault))
}

#[test]
fn an_audit_finds_each_fault(rt: HostRuntime) {
    let rows = [
        Audited(Change::Nothing, 0, 0, Ok(())),
        Audited(Change::Missing, 1, 0, Ok(())),
        Audited(Change::Nothing, 1, 0, COUNT),
        Audited(Change::Missing, 0, 0, COUNT),
        Audited(Change::Nothing, 0, 1, COUNT),
        Audited(Change::Again, 0, 0, COUNT),
        Audited(Change::Code, 0, 0, Err(AuditFault::Differs(2))),
        Audited(Change::Instead, 0, 0, Err(AuditFault::Repeats(3))),
        outside(0),
        outside(5),
    ];
    none_wrong(&rt, first_wrong(&rows, |row| is_visited(&rt, 1, row)));
}

/// A get outside a branch, which is refused, and two hang-ups, of which the second is of nobody.
const EVENTS: [&str; 5] = [
    "connect",
    "1 open TMNOFLAGS xarm",
    "1 get 6b",
    "1 hangup",
    "1 hangup",
];

struct Kept;

// Whether the third is a refused call, and the last the hang-up.
fn are_events(kept: &[Receipt]) -> bool {
    match (kept.get(2), kept.get(3)) {
        (Some(get), Some(last)) => {
            get.reply.code == XAER_PROTO && matches!(&last.event, Event::Hangup(1))
        }
        _ => false,
    }
}

impl Visit for Kept {
    fn visit<D: Asks>(&self, alloc: Global, caller: &mut D) -> bool {
        say_all(alloc, caller, &EVENTS)
    }

    fn judge(&self, alloc: Global, kept: &[Receipt], lost: u64, told: Vec<Receipt>) -> bool {
        kept.len() == 4 && are_events(kept) && audit(alloc, kept, lost, &told, 0).is_ok()
    }
}

#[test]
fn a_room_keeps_each_event(rt: HostRuntime) {
    assert!(rt; is_visited(&rt, 1, &Kept));
}

/// What a room answers as its manager does.
const SOME: [&str; 16] = [
    "connect",
    "1 open TMNOFLAGS xarm",
    "1 start TMNOFLAGS 1:aa:",
    "1 put 6b 76",
    "connect",
    "2 start TMNOFLAGS 1:bb:",
    "2 open TMNOFLAGS xarm",
    "1 get 6b",
    "1 end TMSUCCESS 1:aa:",
    "1 prepare TMNOFLAGS 1:aa:",
    "2 recover TMSTARTRSCAN|TMENDRSCAN 9",
    "2 branches 9",
    "1 commit TMNOFLAGS 1:aa:",
    "1 commit TMNOFLAGS 1:aa:",
    "1 hangup",
    "2 restart",
];

struct Alike;

// What a manager alone tells whoever asks what the line says.
fn tells(alloc: Global, manager: &mut Manager<MemDisk>, told: &mut Told, line: &str) -> Option<()> {
    let place = (told.receipts.len() as u64).saturating_add(1);
    match read_line(alloc, line.as_bytes()).ok()? {
        Line::Connect => {
            let reply = connect_reply(manager.connect());
            told.keep(Event::Connect, &placed(reply, place));
        }
        Line::Hangup(session) => {
            manager.hangup(session);
            told.keep(Event::Hangup(session), &placed(Reply::plain(XA_OK), place));
        }
        Line::Call(session, request) => {
            request.hold();
            let copy = told.copied(&request);
            let reply = manager.call(session, request);
            told.keep_call(session, copy, &placed(reply, place));
        }
        _ => return None,
    }
    Some(())
}

fn told_alone(alloc: Global, lines: &[&str]) -> Option<Told> {
    let mut manager = opened(alloc)?;
    let mut told = Told::new(alloc);
    for line in lines {
        tells(alloc, &mut manager, &mut told, line)?;
    }
    Some(told)
}

impl Visit for Alike {
    fn visit<D: Asks>(&self, alloc: Global, caller: &mut D) -> bool {
        say_all(alloc, caller, &SOME)
    }

    fn judge(&self, alloc: Global, kept: &[Receipt], lost: u64, _told: Vec<Receipt>) -> bool {
        match told_alone(alloc, &SOME) {
            Some(told) => told.is_whole && audit(alloc, kept, lost, &told.receipts, 0).is_ok(),
            None => false,
        }
    }
}

#[test]
fn a_room_answers_as_its_manager_does(rt: HostRuntime) {
    assert!(rt; is_visited(&rt, 1, &Alike));
}

/// Two branches that are prepared.
const PREPARED: [&str; 10] = [
    "1 open TMNOFLAGS xarm",
    "1 start TMNOFLAGS 1:aa:",
    "1 put 6b 76",
    "1 end TMSUCCESS 1:aa:",
    "1 prepare TMNOFLAGS 1:aa:",
    "2 open TMNOFLAGS xarm",
    "2 start TMNOFLAGS 1:bb:",
    "2 put 6c 76",
    "2 end TMSUCCESS 1:bb:",
    "2 prepare TMNOFLAGS 1:bb:",
];

/// The calls of a group.
const COMMITS: [&str; 2] = ["1 commit TMNOFLAGS 1:aa:", "2 commit TMNOFLAGS 1:bb:"];

fn begins<M: Manages, S: Start>(alloc: Global, sequencer: &mut Sequencer<M, S>) -> Option<()> {
    let (session, request) = call_of(alloc, COMMITS[0])?;
    let (other, asked) = call_of(alloc, COMMITS[1])?;
    let mut group = Vec::with_capacity(alloc, 2).ok()?;
    group.push(Asked { session, request }).ok()?;
    group
        .push(Asked {
            session: other,
            request: asked,
        })
        .ok()?;
    if !sequencer.is_settled() {
        return None;
    }
    sequencer.begin_group(group).ok()
}

// Whether a receipt is that of a commit of the group, which was answered by 0.
fn is_commit(receipt: &Receipt, calls: &[Asked], told: &(usize, Reply)) -> bool {
    let is_of = match (&receipt.event, calls.get(told.0)) {
        (Event::Call(session, Request::Commit { .. }), Some(call)) => *session == call.session,
        _ => false,
    };
    is_of
        && receipt.place == told.1.place
        && receipt.reply.place == told.1.place
        && receipt.reply.code == XA_OK
        && told.1.code == XA_OK
}

// Whether the last receipts are those of the calls of the group, in the order of their replies.
fn are_commits(kept: &[Receipt], calls: &[Asked], replies: &[(usize, Reply)]) -> bool {
    let before = PREPARED.len() + 2;
    let (_, last) = kept.split_at(before.min(kept.len()));
    last.len() == 2
        && replies.len() == 2
        && last
            .iter()
            .zip(replies)
            .all(|(receipt, told)| is_commit(receipt, calls, told))
}

fn keeps_a_group<M: Manages + Drop, S: Start>(alloc: Global, manager: M) -> Option<bool>
    requires start { (s : State) → S.start s → M.manages.stands (alone manager) s }
    requires base { M.manages.failures (alone manager) ≡ S.base }
{
    let room: Room<M, S> = Room::new(alloc, manager);
    let mut sequencer: Sequencer<Room<M, S>, S> = Sequencer::new(room);
    let are_connected = sequencer.connect() == Ok(1) && sequencer.connect() == Ok(2);
    let are_prepared = are_told(alloc, &mut sequencer, &PREPARED, false)?;
    begins(alloc, &mut sequencer)?;
    if sequencer.is_settled() {
        return None;
    }
    let (replies, calls) = sequencer.finish_group(sequencer.syncer().sync());
    let room = sequencer.into_manager();
    let are_kept = are_commits(room.receipts(), &calls, &replies) && room.lost() == 0;
    Some(are_connected && are_prepared && are_kept)
}

#[test]
fn a_room_keeps_a_group(rt: HostRuntime) {
    let manager = opened(rt.alloc()).expect(&rt, "a manager");
    let found = keeps_a_group::<Manager<MemDisk>, Brand>(rt.alloc(), manager);
    assert!(rt; found == Some(true));
}

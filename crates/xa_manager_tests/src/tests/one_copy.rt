use crate::one_copy_scripts::{Act, Chance, Phase, commits, next_phase, request};
use crate::tests::managers::{answer, connected, manager};
use crate::tests::one_copy_branches::{
    Branches, Operation, begin, commit, is_one_copy, note, wrong_check,
};
use crate::tests::rows::none_wrong;
use std::alloc::Global;
use std::collections::BTreeMap;
use xa_codes::{Bytes, Detail, TMNOFLAGS, XA_OK};
use xa_disk::MemDisk;
use xa_frame::{Body, Reply, Request};
use xa_manager::Manager;

// Scripts of four sessions that read and write three keys in each other's way, with restarts in between, and in some of
// them a trim after each call. What was committed is executed again, branch by branch and by timestamp, on a map of
// std: each get has to find what it was answered.

const SCRIPTS: u64 = 100;

const TRIMMED_SCRIPTS: u64 = 10;

/// The events of a script. Its first eight connect the sessions, and open the resource manager for them.
const EVENTS: u64 = 1000;

/// A session's branch: the number that its XID is made of, its timestamp, and how far the session is with it; and
/// whether a restart came since it was prepared.
#[derive(Clone, Copy)]
struct Seat {
    phase: Phase,
    number: u64,
    timestamp: u64,
    restarted: bool,
}

const IDLE: Seat = Seat {
    phase: Phase::Idle,
    number: 0,
    timestamp: 0,
    restarted: false,
};

/// What happened: without it the comparison would show little.
#[derive(Clone, Copy)]
struct Counts {
    one_phase: u64,
    two_phase: u64,
    read_only: u64,
    /// Prepared in one boot, and committed in a later one.
    held: u64,
    restarts: u64,
    late: u64,
    busy: u64,
    /// Scripts that would be no one copy if all branches had committed.
    telling: u64,
}

const NONE: Counts = Counts {
    one_phase: 0,
    two_phase: 0,
    read_only: 0,
    held: 0,
    restarts: 0,
    late: 0,
    busy: 0,
    telling: 0,
};

fn add(count: &mut u64, happened: bool) {
    if happened {
        *count = count.saturating_add(1);
    }
}

impl Counts {
    fn count(&mut self, act: Act, seat: Seat, reply: &Reply) {
        let committed = commits(act, reply.code);
        add(&mut self.one_phase, committed && act == Act::CommitAtOnce);
        add(&mut self.two_phase, committed && act == Act::Commit);
        add(&mut self.read_only, committed && act == Act::Prepare);
        add(&mut self.held, committed && seat.restarted);
        add(&mut self.restarts, act == Act::Restart);
        add(&mut self.late, reply.detail == Detail::Late);
        add(&mut self.busy, reply.detail == Detail::Busy);
    }

    /// Whether `scripts` scripts had enough of all.
    fn are_many(&self, scripts: u64) -> bool {
        self.one_phase / 30 >= scripts
            && self.two_phase / 10 >= scripts
            && self.read_only / 10 >= scripts
            && self.held >= scripts
            && self.restarts / 8 >= scripts
            && self.late / 10 >= scripts
            && self.busy / 30 >= scripts
            && self.telling >= scripts / 2
    }
}

#[derive(Drop)]
struct Script {
    manager: Manager<MemDisk>,
    chance: Chance,
    seats: Vec<Seat>,
    branches: Branches,
}

/// A value is the eight bytes of a number.
fn number_of(value: &[u8]) -> Option<u64> {
    let mut number = 0u64;
    for byte in value {
        number = number.wrapping_mul(256).wrapping_add(u64::from(*byte));
    }
    if value.len() == 8 { Some(number) } else { None }
}

/// What a get was answered. `None` is an answer that mustn't come.
fn got(key: u8, body: &Body) -> Option<Operation> {
    match body {
        Body::Absent => Some(Operation::Got(key, None)),
        Body::Value(value) => {
            let number = number_of(value.as_slice())?;
            Some(Operation::Got(key, Some(number)))
        }
        _ => None,
    }
}

/// What the branch did with a key, if it was done. `None` is also an answer that mustn't come.
fn done(act: Act, body: &Body) -> Option<Operation> {
    match act {
        Act::Get(key) => got(key, body),
        Act::Put(key, value) => Some(Operation::Wrote(key, Some(value))),
        Act::Delete(key) => Some(Operation::Wrote(key, None)),
        _ => None,
    }
}

fn is_on_key(act: Act) -> bool {
    matches!(act, Act::Get(_) | Act::Put(_, _) | Act::Delete(_))
}

fn behind_restart(seat: Seat) -> Seat {
    match seat.phase {
        Phase::Prepared => Seat {
            phase: seat.phase,
            number: seat.number,
            timestamp: seat.timestamp,
            restarted: true,
        },
        _ => IDLE,
    }
}

impl Script {
    fn seat(&self, session: u64) -> Seat {
        match self.seats.get(session as usize) {
            Some(seat) => *seat,
            None => IDLE,
        }
    }

    fn sit(&mut self, session: u64, seat: Seat) {
        if let Some(mine) = self.seats.get_mut(session as usize) {
            *mine = seat;
        }
    }

    fn restart(&mut self) {
        for session in 0..4u64 {
            let seat = self.seat(session);
            self.sit(session, behind_restart(seat));
        }
    }

    /// A branch begins: its timestamp is a new one.
    fn begin(&mut self, alloc: Global, session: u64, number: u64, reply: &Reply) -> Option<bool> {
        let Body::Number(timestamp) = &reply.body else {
            return Some(false);
        };
        let seat = Seat {
            phase: Phase::Working,
            number,
            timestamp: *timestamp,
            restarted: false,
        };
        self.sit(session, seat);
        begin(alloc, &mut self.branches, *timestamp).ok()
    }

    /// The session's branch did what was answered.
    fn go_on(&mut self, session: u64, act: Act, phase: Phase, reply: &Reply) -> Option<bool> {
        let seat = self.seat(session);
        if is_on_key(act) && reply.code == XA_OK {
            let Some(operation) = done(act, &reply.body) else {
                return Some(false);
            };
            note(&mut self.branches, seat.timestamp, operation).ok()?;
        }
        if commits(act, reply.code) {
            commit(&mut self.branches, seat.timestamp);
        }
        let seat = Seat {
            phase,
            number: seat.number,
            timestamp: seat.timestamp,
            restarted: seat.restarted,
        };
        self.sit(session, seat);
        Some(true)
    }

    /// Takes an answer in. `Some(false)` is one that mustn't come, `None` lack of memory.
    fn take(
        &mut self,
        alloc: Global,
        session: u64,
        event: u64,
        act: Act,
        reply: &Reply,
    ) -> Option<bool> {
        if act == Act::Restart {
            self.restart();
            return Some(reply.code == XA_OK);
        }
        match next_phase(act, reply.code) {
            Some(_) if act == Act::Start => self.begin(alloc, session, event, reply),
            Some(phase) => self.go_on(session, act, phase, reply),
            None => Some(false),
        }
    }

    /// A trim by a session that has come, whatever it works for, is answered with the log's end.
    fn trim(&mut self, alloc: Global) -> Option<bool> {
        let reply = answer(&mut self.manager, alloc, 1, Request::Trim)?;
        if reply.detail == Detail::Memory {
            return None;
        }
        Some(reply.code == XA_OK && matches!(reply.body, Body::Number(_)))
    }

    /// One event, whose number is what a put puts and what a new branch's XID is made of.
    fn happen(&mut self, alloc: Global, event: u64, counts: &mut Counts) -> Option<bool> {
        let session = self.chance.session();
        let seat = self.seat(session);
        let act = self.chance.act(seat.phase, event);
        let number = if act == Act::Start {
            event
        } else {
            seat.number
        };
        let request = request(alloc, act, number)?;
        let reply = answer(&mut self.manager, alloc, session.saturating_add(1), request)?;
        if reply.detail == Detail::Memory {
            return None;
        }
        counts.count(act, seat, &reply);
        self.take(alloc, session, event, act, &reply)
    }
}

fn open(manager: &mut Manager<MemDisk>, alloc: Global, session: u64) -> Option<()> {
    if connected(manager) != Some(session) {
        return None;
    }
    let request = Request::Open {
        flags: TMNOFLAGS,
        info: Bytes::from_slice(alloc, b"xarm").ok()?,
    };
    let reply = answer(manager, alloc, session, request)?;
    if reply.code == XA_OK { Some(()) } else { None }
}

fn opened(alloc: Global, script: u64) -> Option<Script> {
    let mut manager = manager(alloc)?;
    let mut seats = Vec::new(alloc);
    for session in 1..=4u64 {
        open(&mut manager, alloc, session)?;
        seats.push(IDLE).ok()?;
    }
    Some(Script {
        manager,
        chance: Chance::of_script(script),
        seats,
        branches: BTreeMap::new(alloc),
    })
}

/// Whether the script goes on as it should: with an event, and a trim after it if there have to be trims.
fn goes_on(
    script: &mut Script,
    alloc: Global,
    event: u64,
    trims: bool,
    counts: &mut Counts,
) -> Option<bool> {
    let right = script.happen(alloc, event, counts)?;
    Some(right && (!trims || script.trim(alloc)?))
}

/// Whether a script's committed branches are one copy. `None` is lack of memory.
fn plays(alloc: Global, script: u64, trims: bool, counts: &mut Counts) -> Option<bool> {
    let mut script = opened(alloc, script)?;
    for event in 8..EVENTS {
        if !goes_on(&mut script, alloc, event, trims, counts)? {
            return Some(false);
        }
    }
    let with_all = is_one_copy(alloc, &script.branches, true).ok()?;
    add(&mut counts.telling, !with_all);
    is_one_copy(alloc, &script.branches, false).ok()
}

// Once more if memory ran out.
fn is_right(alloc: Global, script: u64, trims: bool, counts: &mut Counts) -> bool {
    match plays(alloc, script, trims, counts) {
        Some(right) => right,
        None => plays(alloc, script, trims, counts) == Some(true),
    }
}

/// The first script that is no one copy; otherwise how many there were, if they didn't have enough of all.
fn wrong_script(alloc: Global, scripts: u64, trims: bool) -> Option<usize> {
    let mut counts = NONE;
    for script in 0..scripts {
        if !is_right(alloc, script, trims, &mut counts) {
            return Some(script as usize);
        }
    }
    if counts.are_many(scripts) {
        None
    } else {
        Some(scripts as usize)
    }
}

#[test]
fn one_copy(rt: HostRuntime) {
    none_wrong(&rt, wrong_script(rt.alloc(), SCRIPTS, false));
}

#[test]
fn one_copy_between_trims(rt: HostRuntime) {
    none_wrong(&rt, wrong_script(rt.alloc(), TRIMMED_SCRIPTS, true));
}

#[test]
fn checks_one_copy(rt: HostRuntime) {
    none_wrong(&rt, wrong_check(rt.alloc()));
}

ghost use Rattle.std.specs.Prelude.{◌≡◌, true};
ghost use Rattle.std.specs.List.{AllByRecursion};
ghost use Rattle.xa_log.specs.{Believed.Chain.IsBody, Reading.bodies_of};

use crate::log_pairs::{DECIDED, OPENED, PREPARED, are, copies, log_of};
use crate::tests::rows::none_wrong;
use std::alloc::Global;
use xa_disk::{Disk, Effect, MemDisk};
use xa_log::{Appended, Group, Log};
use xa_rows::{LOG_BYTES, first_wrong};

// A log of one record, and the group of three that is appended to it.
const ONE: [&[u8]; 1] = [&OPENED];

const GROUP: [&[u8]; 3] = [&PREPARED, &DECIDED, &PREPARED];

const ALL: &[&[u8]] = &[&OPENED, &PREPARED, &DECIDED, &PREPARED];

// Whether the log's current file takes each.
fn are_bodies_of<D: Disk>(log: &Log<D>, bodies: &[Vec<u8>]) -> bool
    ensures { result ≡ true → AllByRecursion (IsBody log.now.format) (bodies_of bodies.now) }
{
    for body in bodies {
        if body.is_empty() || body.len() > log.most_body() {
            return false;
        }
    }
    true
}

// What an append of these as a group comes to.
fn appends_group<D: Disk>(log: &mut Log<D>, bodies: &[Vec<u8>]) -> Option<Appended> {
    let group = Group::Many(bodies);
    if bodies.is_empty() || !are_bodies_of(log, bodies) || log.reserve_group(group) != Ok(true) {
        return None;
    }
    if !are_bodies_of(log, bodies) {
        return None;
    }
    Some(log.append_group(group))
}

// What the same comes to in two parts, with a sync by whoever has the syncer in between. Until then nothing else is
// appended.
fn settles_group(log: &mut Log<MemDisk>, bodies: &[Vec<u8>]) -> Option<Appended> {
    let group = Group::Many(bodies);
    if bodies.is_empty() || !are_bodies_of(log, bodies) || log.reserve_group(group) != Ok(true) {
        return None;
    }
    if !are_bodies_of(log, bodies) {
        return None;
    }
    let written = log.write_group(group)?;
    if DECIDED.len() > log.most_body() || log.append(&DECIDED) != Appended::Lost {
        return None;
    }
    let answer = log.syncer().sync();
    Some(log.settle(written, answer))
}

// What an append of this as a group of one comes to.
fn appends_alone<D: Disk>(log: &mut Log<D>, body: &[u8]) -> Option<Appended> {
    let group = Group::One(body);
    if log.reserve_group(group) != Ok(true) || body.is_empty() || body.len() > log.most_body() {
        return None;
    }
    Some(log.append_group(group))
}

/// Which calls on the current file fail, what the group comes to, and how many records a rescan then finds.
type Fault = (&'static [(u64, Effect)], Appended, usize);

const FAULTS: &[Fault] = &[
    (&[], Appended::Kept, 4),
    // The write, or its sync: zeros are written over the whole range, and synced.
    (&[(1, Effect::Lost)], Appended::Refused, 1),
    (&[(1, Effect::Kept)], Appended::Refused, 1),
    (&[(2, Effect::Lost)], Appended::Refused, 1),
    (&[(2, Effect::Kept)], Appended::Refused, 1),
    // The repair too.
    (&[(1, Effect::Lost), (2, Effect::Lost)], Appended::Lost, 1),
    (&[(1, Effect::Kept), (2, Effect::Lost)], Appended::Lost, 4),
    (&[(1, Effect::Kept), (2, Effect::Kept)], Appended::Lost, 1),
    (&[(2, Effect::Lost), (3, Effect::Lost)], Appended::Lost, 4),
    (&[(1, Effect::Lost), (3, Effect::Lost)], Appended::Lost, 1),
];

fn came_to(alloc: Global, log: &mut Log<MemDisk>) -> Option<Appended> {
    let group = copies(alloc, &GROUP)?;
    appends_group(log, &group)
}

fn came_to_in_parts(alloc: Global, log: &mut Log<MemDisk>) -> Option<Appended> {
    let group = copies(alloc, &GROUP)?;
    settles_group(log, &group)
}

fn are_first(bodies: &[Vec<u8>], found: usize) -> bool {
    match ALL.get(..found) {
        Some(first) => are(bodies, first),
        None => false,
    }
}

fn finds(log: &mut Log<MemDisk>, found: usize) -> bool {
    match log.rescan() {
        Ok(bodies) => are_first(&bodies, found),
        Err(_) => false,
    }
}

// What a group comes to on such a disk, and the records that are found then.
fn is_fault(alloc: Global, row: &Fault) -> Option<bool> {
    let (plans, answer, found) = row;
    let mut log = planned(alloc, plans)?;
    Some(came_to(alloc, &mut log) == Some(*answer) && finds(&mut log, *found))
}

fn is_fault_in_parts(alloc: Global, row: &Fault) -> Option<bool> {
    let (plans, answer, found) = row;
    let mut log = planned(alloc, plans)?;
    Some(came_to_in_parts(alloc, &mut log) == Some(*answer) && finds(&mut log, *found))
}

fn planned(alloc: Global, plans: &[(u64, Effect)]) -> Option<Log<MemDisk>> {
    let mut log = log_of(alloc, &ONE)?;
    for (k, effect) in plans {
        log.fail(*k, *effect).ok()?;
    }
    Some(log)
}

fn wrong_fault(alloc: Global, rows: &[Fault]) -> Option<usize> {
    first_wrong(
        rows,
        |row| is_fault(alloc, row) == Some(true) && is_fault_in_parts(alloc, row) == Some(true),
    )
}

#[test]
fn device_faults_in_a_group(rt: HostRuntime) {
    none_wrong(&rt, wrong_fault(rt.alloc(), FAULTS));
}

// A record takes 36 bytes besides its body, so the three end 61, 107 and 168 bytes after the log that stood. How many
// bytes of the write are there after a crash, and the records that are found.
const CUTS: &[(u64, usize)] = &[
    (0, 1),
    (1, 1),
    (4, 1),
    (60, 1),
    (61, 2),
    (62, 2),
    (65, 2),
    (106, 2),
    (107, 3),
    (108, 3),
    (167, 3),
    (168, 4),
    (172, 4),
];

// The disk stops at the sync, and a crash keeps the first `kept` bytes of the write.
fn is_cut(alloc: Global, kept: u64, found: usize) -> Option<bool> {
    let mut log = log_of(alloc, &ONE)?;
    log.stop(2);
    let lost = came_to(alloc, &mut log) == Some(Appended::Lost);
    let (first, second) = log.into_crashed_disks(kept, 0).ok()?;
    let (_log, bodies) = Log::open(alloc, first, second, LOG_BYTES).ok()?;
    Some(lost && are_first(&bodies, found))
}

fn wrong_cut(alloc: Global, rows: &[(u64, usize)]) -> Option<usize> {
    first_wrong(
        rows,
        |(kept, found)| is_cut(alloc, *kept, *found) == Some(true),
    )
}

#[test]
fn crashes_in_a_group(rt: HostRuntime) {
    none_wrong(&rt, wrong_cut(rt.alloc(), CUTS));
}

// What a group comes to in `most` bytes, and where the log then ends.
fn comes_to(
    alloc: Global,
    most: u64,
    bodies: &[&[u8]],
    answer: Appended,
    end: u64,
) -> Option<bool> {
    let mut log = log_within(alloc, most)?;
    let group = copies(alloc, bodies)?;
    Some(appends_group(&mut log, &group) == Some(answer) && log.end() == end)
}

fn fits_alone(log: &mut Log<MemDisk>) -> bool {
    appends_alone(log, &DECIDED) == Some(Appended::Kept)
        && log.end() == 95
        && appends_alone(log, &DECIDED) == Some(Appended::Full)
}

fn is_alone(alloc: Global) -> Option<bool> {
    let mut log = log_within(alloc, 95 + 4)?;
    Some(fits_alone(&mut log))
}

// A log of at most `most` bytes that has the one record.
fn log_within(alloc: Global, most: u64) -> Option<Log<MemDisk>> {
    let mut log = Log::create(alloc, MemDisk::new(alloc), MemDisk::new(alloc), most).ok()?;
    if crate::log_pairs::keeps_all(&mut log, &ONE) {
        Some(log)
    } else {
        None
    }
}

// A group that fits exactly, one that lacks a byte, and one of a single body, as a list and alone: 8 bytes, a record
// of 41, the three of 168, and a closing length.
#[test]
fn limits_of_a_group(rt: HostRuntime) {
    let alloc = rt.alloc();
    assert!(rt;
        comes_to(alloc, 221, &GROUP, Appended::Kept, 217) == Some(true)
            && comes_to(alloc, 220, &GROUP, Appended::Full, 49) == Some(true)
            && comes_to(alloc, 220, &[&DECIDED], Appended::Kept, 95) == Some(true)
            && is_alone(alloc) == Some(true)
    );
}

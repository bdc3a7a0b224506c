//! What a log says of itself after calls that fail: where its next record begins, and its generation; and that nothing
//! is written to it once a record or a checkpoint is lost.
use crate::log_pairs::{
    AGAIN, HELD, NEW, OLD, OPENED, PREPARED, appends, are, checkpoint_of, log_of,
};
use crate::tests::rows::none_wrong;
use std::alloc::Global;
use xa_disk::{Effect, MemDisk};
use xa_log::{Appended, Log};
use xa_rows::{LOG_BYTES, first_wrong};

// A checkpoint of one body makes six calls: a write and a sync of the first 12 bytes, of the record, and of its length.
const ONE: [&[u8]; 1] = [&AGAIN];

// Those of the boots after it.
const LATER: [&[u8]; 2] = [&[1, 0, 0, 0, 3], &HELD];

const LAST: [&[u8]; 2] = [&[1, 0, 0, 0, 4], &HELD];

/// Which calls fail, where the next record begins once one was appended, or a checkpoint made, and after a rescan.
type Ends = (&'static [(u64, Effect)], (u64, u64));

fn with_plans(alloc: Global, bodies: &[&[u8]], plans: &[(u64, Effect)]) -> Option<Log<MemDisk>> {
    let mut log = log_of(alloc, bodies)?;
    for (k, effect) in plans {
        log.fail(*k, *effect).ok()?;
    }
    Some(log)
}

fn with_other_plans(alloc: Global, plans: &[(u64, Effect)]) -> Option<Log<MemDisk>> {
    let mut log = log_of(alloc, &OLD)?;
    for (k, effect) in plans {
        log.fail_other(*k, *effect).ok()?;
    }
    Some(log)
}

fn end_and_again(log: &mut Log<MemDisk>) -> Option<(u64, u64)> {
    let end = log.end();
    log.rescan().ok()?;
    Some((end, log.end()))
}

fn behind_an_append(alloc: Global, plans: &[(u64, Effect)]) -> Option<(u64, u64)> {
    let mut log = with_plans(alloc, &[], plans)?;
    appends(&mut log, &OPENED)?;
    end_and_again(&mut log)
}

fn behind_a_checkpoint(alloc: Global, plans: &[(u64, Effect)]) -> Option<(u64, u64)> {
    let mut log = with_other_plans(alloc, plans)?;
    checkpoint_of(alloc, &mut log, &ONE)?;
    end_and_again(&mut log)
}

const APPENDS: &[Ends] = &[
    (&[], (49, 49)),
    (&[(1, Effect::Kept)], (8, 8)),
    // The record isn't there, or it is and its repair isn't.
    (&[(1, Effect::Lost), (2, Effect::Lost)], (8, 8)),
    (&[(1, Effect::Kept), (2, Effect::Lost)], (8, 49)),
];

// By the calls that fail on the other file.
const CHECKPOINTS: &[Ends] = &[
    (&[], (49, 49)),
    (&[(1, Effect::Lost)], (110, 110)),
    // The first length isn't there, or it is and its repair isn't.
    (&[(5, Effect::Lost), (6, Effect::Lost)], (110, 110)),
    (&[(6, Effect::Kept), (7, Effect::Lost)], (110, 49)),
];

#[test]
fn ends_of_logs(rt: HostRuntime) {
    let alloc = rt.alloc();
    none_wrong(
        &rt,
        first_wrong(
            APPENDS,
            |(plans, ends)| behind_an_append(alloc, plans) == Some(*ends),
        ),
    );
    none_wrong(
        &rt,
        first_wrong(
            CHECKPOINTS,
            |(plans, ends)| behind_a_checkpoint(alloc, plans) == Some(*ends),
        ),
    );
}

// What a checkpoint, an append and a checkpoint of a later boot come to, one after another.
type Three = (Option<Appended>, Option<Appended>, Option<Appended>);

const KEPT: Three = (
    Some(Appended::Kept),
    Some(Appended::Kept),
    Some(Appended::Kept),
);

const LOST: Three = (
    Some(Appended::Lost),
    Some(Appended::Lost),
    Some(Appended::Lost),
);

fn three(alloc: Global, log: &mut Log<MemDisk>, bodies: &[&[u8]], later: &[&[u8]]) -> Three {
    let first = checkpoint_of(alloc, log, bodies);
    let second = appends(log, &OPENED);
    (first, second, checkpoint_of(alloc, log, later))
}

fn finds(log: &mut Log<MemDisk>, rows: &[&[u8]]) -> bool {
    match log.rescan() {
        Ok(bodies) => are(&bodies, rows),
        Err(_) => false,
    }
}

// What is lost stays so until a rescan, which finds these in the first file or in the second; then all goes on.
fn is_lost_until_read(
    alloc: Global,
    log: &mut Log<MemDisk>,
    rows: &[&[u8]],
    on_first: bool,
) -> bool {
    three(alloc, log, &ONE, &LATER) == LOST
        && finds(log, rows)
        && log.on_first() == on_first
        && three(alloc, log, &LATER, &LAST) == KEPT
}

// The first length isn't there, or it is and its repair isn't.
const UNSEALED: &[(u64, Effect)] = &[(5, Effect::Lost), (6, Effect::Lost)];

const SEALED: &[(u64, Effect)] = &[(5, Effect::Kept), (6, Effect::Lost)];

fn is_checkpoint_lost(alloc: Global) -> Option<bool> {
    let mut log = with_other_plans(alloc, UNSEALED)?;
    let mut sealed = with_other_plans(alloc, SEALED)?;
    Some(
        is_lost_until_read(alloc, &mut log, &OLD, true)
            && is_lost_until_read(alloc, &mut sealed, &ONE, false),
    )
}

// An append that was lost stops all of them too.
fn is_append_lost(alloc: Global) -> Option<bool> {
    let mut log = with_plans(alloc, &OLD, &[(1, Effect::Lost), (2, Effect::Lost)])?;
    let lost = appends(&mut log, &OPENED) == Some(Appended::Lost);
    Some(lost && is_lost_until_read(alloc, &mut log, &OLD, true))
}

#[test]
fn nothing_is_written_once_one_is_lost(rt: HostRuntime) {
    let alloc = rt.alloc();
    assert!(rt; is_checkpoint_lost(alloc) == Some(true) && is_append_lost(alloc) == Some(true));
}

// What is free then, and the generation, after an append, and after a checkpoint.
fn appended(log: &mut Log<MemDisk>, body: &[u8]) -> Option<(u64, usize)> {
    appends(log, body)?;
    Some((log.free(), log.generation()))
}

fn checkpointed(alloc: Global, log: &mut Log<MemDisk>) -> Option<(u64, usize)> {
    checkpoint_of(alloc, log, &NEW)?;
    Some((log.free(), log.generation()))
}

fn read(log: &mut Log<MemDisk>) -> Option<usize> {
    log.rescan().ok()?;
    Some(log.generation())
}

fn reopened(alloc: Global, log: Log<MemDisk>) -> Option<usize> {
    let (mut one, mut other) = log.into_disks();
    one.crash().ok()?;
    other.crash().ok()?;
    let (log, _bodies) = Log::open(alloc, one, other, LOG_BYTES).ok()?;
    Some(log.generation())
}

// The generation of a log that is made, with a record and with two, after a checkpoint, a look and an opening.
fn have_generations(alloc: Global) -> Option<bool> {
    let mut log = log_of(alloc, &[])?;
    let made = log.generation() == 0;
    let right = appended(&mut log, &OPENED) == Some((LOG_BYTES - 53, 1))
        && appended(&mut log, &PREPARED) == Some((LOG_BYTES - 114, 1))
        && checkpointed(alloc, &mut log) == Some((LOG_BYTES - 114, 2))
        && read(&mut log) == Some(2);
    Some(made && right && reopened(alloc, log) == Some(2))
}

#[test]
fn a_log_has_the_generation_of_its_first_record(rt: HostRuntime) {
    assert!(rt; have_generations(rt.alloc()) == Some(true));
}

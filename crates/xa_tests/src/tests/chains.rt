use crate::tests::rows::none_wrong;
use mv_chain::{Chain, Fate, Pool, ValueBytes};
use std::alloc::{AllocError, Global};

/// What is asked of a chain, at a timestamp.
#[derive(Clone, Copy)]
enum Ask {
    Source,
    Value,
    Late,
    /// The version of this timestamp was read by a branch of the other.
    Mark(u64),
    Install(Option<u8>),
    Settle(Fate),
    /// Up to this timestamp.
    Prune,
    Idle,
    /// How many versions the pool has, whatever the timestamp.
    Versions,
}

#[derive(Clone, Copy, PartialEq, Eq)]
enum Told {
    Done,
    From(u64),
    Pending(u64),
    Absent,
    Value(u8),
    Late,
    InTime,
    Idle,
    InUse,
    Versions(usize),
}

use Ask::{Idle, Install, Late, Mark, Prune, Settle, Source, Value, Versions};

// The first three timestamps of the first boot.
const FIRST: u64 = 4294967297;

const SECOND: u64 = 4294967298;

const THIRD: u64 = 4294967299;

/// Independent rows, each on a new chain.
const ROWS: [&[(u64, Ask, Told)]; 6] = [
    // The second branch has read the key as absent, so a write by the first is late.
    &[
        (SECOND, Source, Told::From(0)),
        (0, Value, Told::Absent),
        (FIRST, Late, Told::InTime),
        (0, Mark(SECOND), Told::Done),
        (FIRST, Late, Told::Late),
        (THIRD, Late, Told::InTime),
    ],
    // The second branch writes 2 and commits, then the first writes 1 and commits: the third reads 2.
    &[
        (SECOND, Install(Some(0x32)), Told::Done),
        (SECOND, Settle(Fate::Committed), Told::Done),
        (FIRST, Late, Told::InTime),
        (FIRST, Install(Some(0x31)), Told::Done),
        (FIRST, Settle(Fate::Committed), Told::Done),
        (THIRD, Source, Told::From(SECOND)),
        (SECOND, Value, Told::Value(0x32)),
    ],
    // A read above a pending write has to wait; one below it isn't. What is rolled back is seen by no one.
    &[
        (FIRST, Install(Some(0x76)), Told::Done),
        (SECOND, Source, Told::Pending(FIRST)),
        (FIRST, Settle(Fate::Committed), Told::Done),
        (SECOND, Source, Told::From(FIRST)),
        (FIRST, Value, Told::Value(0x76)),
        (THIRD, Install(None), Told::Done),
        (SECOND, Source, Told::From(FIRST)),
        (THIRD, Settle(Fate::RolledBack), Told::Done),
        (THIRD, Source, Told::From(FIRST)),
    ],
    // What a read from the low water on doesn't see goes: not what is undecided, nor what is read at the low water.
    &[
        (FIRST, Install(Some(0x31)), Told::Done),
        (FIRST, Settle(Fate::Committed), Told::Done),
        (SECOND, Install(Some(0x32)), Told::Done),
        (FIRST, Versions, Told::Versions(3)),
        (SECOND, Prune, Told::Done),
        (FIRST, Versions, Told::Versions(2)),
        (FIRST, Source, Told::From(FIRST)),
        (SECOND, Settle(Fate::Committed), Told::Done),
        (FIRST, Prune, Told::Done),
        (FIRST, Versions, Told::Versions(2)),
        (SECOND, Prune, Told::Done),
        (SECOND, Versions, Told::Versions(1)),
        (SECOND, Value, Told::Value(0x32)),
    ],
    // A key that was only read is idle from its read on, and not below.
    &[
        (FIRST, Idle, Told::Idle),
        (0, Mark(SECOND), Told::Done),
        (FIRST, Idle, Told::InUse),
        (SECOND, Idle, Told::Idle),
        (THIRD, Install(Some(0x76)), Told::Done),
        (THIRD, Idle, Told::InUse),
        (THIRD, Settle(Fate::RolledBack), Told::Done),
        (THIRD, Idle, Told::Idle),
    ],
    // What is late isn't installed, nor what its branch has committed.
    &[
        (0, Mark(SECOND), Told::Done),
        (FIRST, Install(Some(0x31)), Told::Done),
        (FIRST, Source, Told::From(0)),
        (SECOND, Install(Some(0x32)), Told::Done),
        (SECOND, Install(Some(0x33)), Told::Done),
        (SECOND, Settle(Fate::Committed), Told::Done),
        (SECOND, Install(Some(0x34)), Told::Done),
        (SECOND, Value, Told::Value(0x33)),
    ],
];

fn source(pool: &Pool, chain: &Chain, ts: u64) -> Told {
    let found = chain.source(pool, ts);
    if found.pending {
        Told::Pending(found.from)
    } else {
        Told::From(found.from)
    }
}

fn value(pool: &Pool, chain: &Chain, from: u64) -> Told {
    match chain.value(pool, from) {
        Some([byte]) => Told::Value(*byte),
        _ => Told::Absent,
    }
}

fn late(pool: &Pool, chain: &Chain, ts: u64) -> Told {
    if chain.late(pool, ts) {
        Told::Late
    } else {
        Told::InTime
    }
}

fn idle(pool: &Pool, chain: &Chain, low: u64) -> Told {
    if chain.is_idle(pool, low) {
        Told::Idle
    } else {
        Told::InUse
    }
}

fn install(
    alloc: Global,
    pool: &mut Pool,
    chain: &mut Chain,
    ts: u64,
    byte: Option<u8>,
) -> Result<(), AllocError> {
    match byte {
        None => chain.install(pool, ts, None),
        Some(byte) => chain.install(pool, ts, Some([byte].to_vec(alloc)?)),
    }
}

fn answered(
    alloc: Global,
    pool: &mut Pool,
    chain: &mut Chain,
    ts: u64,
    ask: Ask,
) -> Result<Told, AllocError> {
    match ask {
        Ask::Source => return Ok(source(pool, chain, ts)),
        Ask::Value => return Ok(value(pool, chain, ts)),
        Ask::Late => return Ok(late(pool, chain, ts)),
        Ask::Idle => return Ok(idle(pool, chain, ts)),
        Ask::Versions => return Ok(Told::Versions(pool.versions())),
        Ask::Mark(reader) => chain.mark(pool, ts, reader),
        Ask::Install(byte) => install(alloc, pool, chain, ts, byte)?,
        Ask::Settle(fate) => chain.settle(pool, ts, fate),
        Ask::Prune => chain.prune(pool, ts),
    }
    Ok(Told::Done)
}

fn wrong_answer(
    alloc: Global,
    pool: &mut Pool,
    chain: &mut Chain,
    row: &[(u64, Ask, Told)],
) -> Option<usize> {
    row.iter().position(|(ts, ask, want)| answered(alloc, pool, chain, *ts, *ask) != Ok(*want))
}

#[test]
fn rows(rt: HostRuntime) {
    for row in ROWS {
        let mut pool = Pool::new(rt.alloc());
        let mut chain = Chain::new(&mut pool).expect(&rt, "a chain");
        none_wrong(&rt, wrong_answer(rt.alloc(), &mut pool, &mut chain, row));
    }
}

/// 300 branches one after another each write the key and commit. The low water follows them, or stays.
fn written(pool: &mut Pool, chain: &mut Chain, follows: bool) -> Result<(), AllocError> {
    for ts in FIRST..FIRST + 300 {
        let look = chain.look(pool, ts);
        chain.install_at(pool, &look, ValueBytes::new(None))?;
        chain.settle(pool, ts, Fate::Committed);
        if follows {
            chain.prune(pool, ts);
        }
    }
    Ok(())
}

/// How many versions are left of that.
fn left(alloc: Global, follows: bool) -> Result<usize, AllocError> {
    let mut pool = Pool::new(alloc);
    let mut chain = Chain::new(&mut pool)?;
    written(&mut pool, &mut chain, follows)?;
    Ok(pool.versions())
}

#[test]
fn pruned(rt: HostRuntime) {
    let alloc = rt.alloc();
    let right = left(alloc, true) == Ok(1) && left(alloc, false) == Ok(301);
    assert!(rt; right, "1 version with the low water behind, 301 without");
}

/// The value of the key's last version is this byte.
fn shows(pool: &Pool, chain: &Chain, byte: u8) -> bool {
    let look = chain.look(pool, u64::MAX);
    match chain.value_at(pool, &look) {
        Some([shown]) => *shown == byte,
        _ => false,
    }
}

/// Reads the key at the first timestamp, and writes the byte at the second.
fn write(alloc: Global, pool: &mut Pool, chain: &mut Chain, byte: u8) -> Result<(), AllocError> {
    let read = chain.look(pool, FIRST);
    chain.mark_at(pool, &read);
    let look = chain.look(pool, SECOND);
    chain.install_at(pool, &look, ValueBytes::new(Some([byte].to_vec(alloc)?)))
}

/// A new key, read and written like that.
fn written_once(alloc: Global, pool: &mut Pool, byte: u8) -> Result<Chain, AllocError> {
    let mut chain = Chain::new(pool)?;
    write(alloc, pool, &mut chain, byte)?;
    Ok(chain)
}

/// One key is cleared and another made: its slots are used again, and a third key shows what it showed.
fn used_again(alloc: Global) -> Result<bool, AllocError> {
    let mut pool = Pool::new(alloc);
    let mut gone = written_once(alloc, &mut pool, 0x31)?;
    let stays = written_once(alloc, &mut pool, 0x32)?;
    let before = pool.versions();
    gone.clear(&mut pool);
    let between = pool.versions();
    let made = written_once(alloc, &mut pool, 0x33)?;
    let counted = before == 4 && between == 2 && pool.versions() == 4;
    Ok(counted && shows(&pool, &stays, 0x32) && shows(&pool, &made, 0x33))
}

#[test]
fn cleared(rt: HostRuntime) {
    assert!(rt;
        used_again(rt.alloc()) == Ok(true),
        "the pool's slots are used again"
    );
}

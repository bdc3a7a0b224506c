use crate::tests::rows::none_wrong;
use mv_chain::Fate;
use mv_rules::{Got, Put, Records};
use std::alloc::{AllocError, Global};
use xa_codes::{Bytes, Write};

/// What is asked of records, for a branch of a timestamp.
#[derive(Clone, Copy)]
enum Ask {
    Get(&'static [u8]),
    Put(&'static [u8], Option<u8>),
    Settle(Fate),
    /// A branch that lasted, and its fate if that is known.
    Restore(&'static [KeyWrite], Option<Fate>),
}

type KeyWrite = (&'static [u8], Option<u8>);

#[derive(Clone, Copy, PartialEq, Eq)]
enum Told {
    Done,
    Late,
    Limit,
    Memory,
    Busy(u64),
    Absent,
    Value(u8),
    Bytes,
}

// The first three timestamps of the first boot.
const FIRST: u64 = 4294967297;

const SECOND: u64 = 4294967298;

const THIRD: u64 = 4294967299;

// The first of the second boot.
const LATER: u64 = 8589934593;

// What branches of the first boot wrote.
const WROTE: [KeyWrite; 2] = [(b"k", Some(0x31)), (b"l", None)];

const WROTE_LATER: [KeyWrite; 1] = [(b"k", Some(0x32))];

/// Independent rows, each on new records.
const ROWS: [&[(u64, Ask, Told)]; 4] = [
    // The second branch has read the key as absent, so a write by the first is late.
    &[
        (SECOND, Ask::Get(b"k"), Told::Absent),
        (FIRST, Ask::Put(b"k", Some(0x76)), Told::Late),
        (FIRST, Ask::Put(b"l", Some(0x76)), Told::Done),
    ],
    // What lasted and was committed is read in a later boot.
    &[
        (
            FIRST,
            Ask::Restore(&WROTE, Some(Fate::Committed)),
            Told::Done,
        ),
        (LATER, Ask::Get(b"k"), Told::Value(0x31)),
        (LATER, Ask::Get(b"l"), Told::Absent),
        (LATER, Ask::Put(b"l", Some(0x33)), Told::Done),
    ],
    // What lasted and is undecided has to be waited for, until it is committed.
    &[
        (SECOND, Ask::Restore(&WROTE_LATER, None), Told::Done),
        (
            FIRST,
            Ask::Restore(&WROTE, Some(Fate::Committed)),
            Told::Done,
        ),
        (LATER, Ask::Get(b"k"), Told::Busy(SECOND)),
        (LATER, Ask::Get(b"l"), Told::Absent),
        (SECOND, Ask::Settle(Fate::Committed), Told::Done),
        (LATER, Ask::Get(b"k"), Told::Value(0x32)),
    ],
    // Or rolled back.
    &[
        (
            FIRST,
            Ask::Restore(&WROTE, Some(Fate::Committed)),
            Told::Done,
        ),
        (SECOND, Ask::Restore(&WROTE_LATER, None), Told::Done),
        (
            THIRD,
            Ask::Restore(&WROTE, Some(Fate::RolledBack)),
            Told::Done,
        ),
        (LATER, Ask::Get(b"k"), Told::Busy(SECOND)),
        (SECOND, Ask::Settle(Fate::RolledBack), Told::Done),
        (LATER, Ask::Get(b"k"), Told::Value(0x31)),
    ],
];

fn value_of(alloc: Global, byte: Option<u8>) -> Result<Option<Vec<u8>>, AllocError> {
    match byte {
        Some(byte) => Ok(Some([byte].to_vec(alloc)?)),
        None => Ok(None),
    }
}

fn bytes_of(alloc: Global, byte: Option<u8>) -> Result<Option<Bytes>, AllocError> {
    match byte {
        Some(byte) => Ok(Some(Bytes::from_slice(alloc, &[byte])?)),
        None => Ok(None),
    }
}

fn write_of(alloc: Global, key: &[u8], byte: Option<u8>) -> Result<Write, AllocError> {
    Ok(Write {
        key: Bytes::from_slice(alloc, key)?,
        value: bytes_of(alloc, byte)?,
    })
}

fn writes_of(alloc: Global, rows: &[KeyWrite]) -> Result<Vec<Write>, AllocError> {
    let mut writes = Vec::new(alloc);
    for (key, byte) in rows {
        writes.push(write_of(alloc, key, *byte)?)?;
    }
    Ok(writes)
}

fn put(records: &mut Records, ts: u64, key: &[u8], value: Option<Vec<u8>>) -> Told {
    match records.put(ts, key, value) {
        Put::Done => Told::Done,
        Put::Late => Told::Late,
        Put::Limit => Told::Limit,
        Put::Memory => Told::Memory,
    }
}

fn got(records: &mut Records, ts: u64, key: &[u8]) -> Told {
    match records.get(ts, key) {
        Got::Value(bytes) => match bytes.as_slice() {
            [byte] => Told::Value(*byte),
            _ => Told::Bytes,
        },
        Got::Absent => Told::Absent,
        Got::Busy(from) => Told::Busy(from),
        Got::Memory => Told::Memory,
    }
}

fn answered(alloc: Global, records: &mut Records, ts: u64, ask: Ask) -> Result<Told, AllocError> {
    match ask {
        Ask::Get(key) => Ok(got(records, ts, key)),
        Ask::Put(key, byte) => Ok(put(records, ts, key, value_of(alloc, byte)?)),
        Ask::Settle(fate) => {
            records.settle(ts, fate);
            Ok(Told::Done)
        }
        Ask::Restore(rows, fate) => {
            let writes = writes_of(alloc, rows)?;
            records.restore(ts, &writes, fate, None)?;
            Ok(Told::Done)
        }
    }
}

fn wrong_answer(alloc: Global, records: &mut Records, row: &[(u64, Ask, Told)]) -> Option<usize> {
    row.iter().position(|(ts, ask, want)| answered(alloc, records, *ts, *ask) != Ok(*want))
}

#[test]
fn rows(rt: HostRuntime) {
    for row in ROWS {
        let mut records = Records::new(rt.alloc());
        none_wrong(&rt, wrong_answer(rt.alloc(), &mut records, row));
    }
}

fn is_write(write: &Write, key: &[u8], byte: Option<u8>) -> bool {
    let same = match (&write.value, byte) {
        (Some(bytes), Some(byte)) => bytes.as_slice() == [byte].as_slice(),
        (None, None) => true,
        _ => false,
    };
    same && write.key.as_slice() == key
}

const PUTS: [KeyWrite; 4] = [
    (b"m", Some(1)),
    (b"ka", Some(2)),
    (b"k", None),
    (b"m", Some(3)),
];

const WRITES: [KeyWrite; 3] = [(b"k", None), (b"ka", Some(2)), (b"m", Some(3))];

fn put_byte(records: &mut Records, alloc: Global, key: &[u8], byte: Option<u8>) -> Told {
    match value_of(alloc, byte) {
        Ok(value) => put(records, FIRST, key, value),
        Err(_) => Told::Memory,
    }
}

fn wrong_put(records: &mut Records, alloc: Global, rows: &[KeyWrite]) -> Option<usize> {
    for (index, (key, byte)) in rows.iter().enumerate() {
        if put_byte(records, alloc, key, *byte) != Told::Done {
            return Some(index);
        }
    }
    None
}

fn are_writes(writes: &[Write], wanted: &[KeyWrite]) -> bool {
    for (write, (key, byte)) in writes.iter().zip(wanted) {
        if !is_write(write, key, *byte) {
            return false;
        }
    }
    writes.len() == wanted.len()
}

fn has_writes(records: &Records, ts: u64, wanted: &[KeyWrite]) -> bool {
    match records.writes_of(ts) {
        Ok(writes) => are_writes(&writes, wanted),
        Err(_) => false,
    }
}

// What lasted of a branch, until it is decided.
fn keeps_restored(alloc: Global) -> Result<bool, AllocError> {
    let mut records = Records::new(alloc);
    records.restore(FIRST, &writes_of(alloc, &WROTE)?, None, None)?;
    let before = has_writes(&records, FIRST, &WROTE);
    records.settle(FIRST, Fate::Committed);
    Ok(before && has_writes(&records, FIRST, &[]))
}

#[test]
fn restored_writes(rt: HostRuntime) {
    assert!(rt; keeps_restored(rt.alloc()) == Ok(true));
}

// The last write of each key, ascending by key.
fn keeps_last_writes(records: &Records) -> bool {
    has_writes(records, FIRST, &WRITES) && has_writes(records, SECOND, &[])
}

#[test]
fn writes(rt: HostRuntime) {
    let mut records = Records::new(rt.alloc());
    none_wrong(&rt, wrong_put(&mut records, rt.alloc(), &PUTS));
    assert!(rt; keeps_last_writes(&records));
}

// How many versions are left if one branch after another reads a key of its own that nobody wrote. Some tenths of a
// second; `rt try`, which looks at each address, takes minutes.
fn read_in_turn(alloc: Global) -> Option<u64> {
    let mut records = Records::new(alloc);
    for count in 0..1_000_000u32 {
        let ts = FIRST + u64::from(count);
        if got(&mut records, ts, &count.to_be_bytes()) != Told::Absent {
            return None;
        }
        records.settle(ts, Fate::RolledBack);
        records.low_water(ts + 1);
    }
    Some(records.versions())
}

#[test]
fn read_only(rt: HostRuntime) {
    assert!(rt; read_in_turn(rt.alloc()) == Some(0));
}

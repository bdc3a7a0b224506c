use arrayvec::ArrayVec;
use std::alloc::{AllocError, Global};
use xa_codes::{Bytes, Direction};
use xa_limits::MOST_SMALL;
use xa_record::{Record, Writes, read, write, write_small};
use xa_xid::Xid;

// 1:aa:bb at timestamp 4294967297 writes 76 under 6b; a base is the same without the XID
pub const PREPARED: [u8; 25] = [
    2, 0, 0, 0, 1, 1, 1, 0xaa, 0xbb, 0, 0, 0, 1, 0, 0, 0, 1, 0, 1, 1, 0x6b, 1, 0, 1, 0x76,
];

pub const BASE: [u8; 17] = [7, 0, 0, 0, 1, 0, 0, 0, 1, 0, 1, 1, 0x6b, 1, 0, 1, 0x76];

pub const HELD: [u8; 25] = [
    8, 0, 0, 0, 1, 1, 1, 0xaa, 0xbb, 0, 0, 0, 1, 0, 0, 0, 1, 0, 1, 1, 0x6b, 1, 0, 1, 0x76,
];

// 1:aa:bb was rolled back
pub const KNOWN: [u8; 10] = [9, 0, 0, 0, 1, 1, 1, 0xaa, 0xbb, 2];

fn is_v(value: &Option<Bytes>) -> bool {
    match value {
        Some(value) => value.as_slice() == b"v".as_slice(),
        None => false,
    }
}

fn is_k_with_v(writes: &Writes) -> bool {
    match writes.as_slice() {
        [write] => write.key.as_slice() == b"k".as_slice() && is_v(&write.value),
        _ => false,
    }
}

fn is_body(body: Result<Vec<u8>, AllocError>, wanted: &[u8]) -> bool {
    match body {
        Ok(body) => body.as_slice() == wanted,
        Err(_) => false,
    }
}

fn is_prepared(record: &Record, named: &Xid) -> bool {
    match record {
        Record::Prepared {
            xid,
            timestamp,
            writes,
        } => *xid == *named && *timestamp == 4294967297 && is_k_with_v(writes),
        _ => false,
    }
}

// A body's record, if that is written again as it was.
fn read_again(alloc: Global, body: &[u8]) -> Option<Record> {
    let record = read(alloc, body).ok()?;
    if is_body(write(alloc, &record), body) {
        Some(record)
    } else {
        None
    }
}

fn reads_prepared(alloc: Global) -> Option<bool> {
    let named = Xid::take_text(b"1:aa:bb")?;
    Some(is_prepared(&read_again(alloc, &PREPARED)?, &named))
}

fn writes_opened() -> bool {
    let mut out: ArrayVec<u8, MOST_SMALL> = ArrayVec::new();
    write_small(&Record::Opened { boot: 1 }, &mut out);
    out.as_slice() == [1, 0, 0, 0, 1].as_slice()
}

fn reads_opened(alloc: Global) -> bool {
    match read(alloc, &[1, 0, 0, 0, 1]) {
        Ok(record) => matches!(record, Record::Opened { boot: 1 }),
        Err(_) => false,
    }
}

#[test]
fn opened(rt: HostRuntime) {
    assert!(rt; writes_opened() && reads_opened(rt.alloc()));
}

fn is_base(record: &Record) -> bool {
    match record {
        Record::Base { timestamp, writes } => *timestamp == 4294967297 && is_k_with_v(writes),
        _ => false,
    }
}

fn reads_base(alloc: Global) -> Option<bool> {
    Some(is_base(&read_again(alloc, &BASE)?))
}

#[test]
fn base(rt: HostRuntime) {
    assert!(rt; reads_base(rt.alloc()) == Some(true));
}

fn is_held(record: &Record, named: &Xid) -> bool {
    match record {
        Record::Held {
            xid,
            timestamp,
            writes,
        } => *xid == *named && *timestamp == 4294967297 && is_k_with_v(writes),
        _ => false,
    }
}

fn reads_held(alloc: Global) -> Option<bool> {
    let named = Xid::take_text(b"1:aa:bb")?;
    Some(is_held(&read_again(alloc, &HELD)?, &named))
}

#[test]
fn prepared_and_held(rt: HostRuntime) {
    let alloc = rt.alloc();
    assert!(rt; reads_prepared(alloc) == Some(true) && reads_held(alloc) == Some(true));
}

fn writes_known() -> Option<bool> {
    let record = Record::Known {
        xid: Xid::take_text(b"1:aa:bb")?,
        direction: Direction::Rollback,
    };
    let mut small: ArrayVec<u8, MOST_SMALL> = ArrayVec::new();
    write_small(&record, &mut small);
    Some(small.as_slice() == KNOWN.as_slice())
}

fn is_known(record: &Record, named: &Xid) -> bool {
    match record {
        Record::Known { xid, direction } => {
            *xid == *named && matches!(direction, Direction::Rollback)
        }
        _ => false,
    }
}

fn reads_known(alloc: Global) -> Option<bool> {
    let named = Xid::take_text(b"1:aa:bb")?;
    match read(alloc, &KNOWN) {
        Ok(record) => {
            let again = write(alloc, &record);
            Some(is_known(&record, &named) && is_body(again, &KNOWN))
        }
        Err(_) => None,
    }
}

#[test]
fn known(rt: HostRuntime) {
    assert!(rt; writes_known() == Some(true) && reads_known(rt.alloc()) == Some(true));
}

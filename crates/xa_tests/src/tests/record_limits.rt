use crate::tests::records::{BASE, HELD, KNOWN, PREPARED};
use crate::tests::rows::none_wrong;
use std::alloc::{AllocError, Global};
use xa_record::{RecordFault, read, write};
use xa_rows::{KEY_BYTES, PART_BYTES, VALUE_BYTES, WRITES};

// 1:aa: at timestamp 1 deletes k
const DELETED: [u8; 21] = [
    3, 0, 0, 0, 1, 1, 0, 0xaa, 0, 0, 0, 0, 0, 0, 0, 1, 0, 1, 1, 0x6b, 0,
];

/// A body: what stands before the XID, whether there is one, and what stands after it.
type Body = (&'static [u8], bool, &'static [u8]);

const BODIES: [Body; 14] = [
    (&[1, 0, 0, 0, 1], false, &[]),
    (&[1, 255, 255, 255, 255], false, &[]),
    (&[4], true, &[1]),
    (&[4], true, &[2]),
    (&[5], true, &[1]),
    (&[5], true, &[2]),
    (&[6], true, &[]),
    (&[9], true, &[1]),
    (&[9], true, &[2]),
    // with writes, whole
    (&PREPARED, false, &[]),
    (&DELETED, false, &[]),
    (&BASE, false, &[]),
    (&HELD, false, &[]),
    // of no boot
    (&[7, 0, 0, 0, 0, 0, 0, 0, 0, 0, 1, 1, 0x6b, 0], false, &[]),
];

/// The kinds of record that have writes.
const KINDS: [u8; 4] = [2, 3, 7, 8];

/// Writes at their limits: how many, the length of each key, and of each value, or a delete.
type WritesAt = (u16, u8, Option<u16>);

const AT_LIMITS: [WritesAt; 8] = [
    (1, 1, None),
    (1, 1, Some(0)),
    (1, KEY_BYTES, Some(VALUE_BYTES)),
    (2, 1, Some(VALUE_BYTES)),
    (2, KEY_BYTES, Some(0)),
    (WRITES, 1, Some(0)),
    (WRITES, KEY_BYTES, None),
    (WRITES, KEY_BYTES, Some(VALUE_BYTES)),
];

/// A key and a value that are too long.
const PAST: [WritesAt; 2] = [(1, KEY_BYTES + 1, None), (1, 1, Some(VALUE_BYTES + 1))];

fn put_xid(out: &mut Vec<u8>, greatest: bool) -> Result<(), AllocError> {
    if greatest {
        out.extend_from_slice(&[127, 255, 255, 255, 64, 64])?;
        out.extend_from_slice(&[0xa5; 2 * PART_BYTES as usize])
    } else {
        out.extend_from_slice(&[128, 0, 0, 0, 1, 0, 0xa5])
    }
}

fn put_write(out: &mut Vec<u8>, first: u8, key: u8, value: Option<u16>) -> Result<(), AllocError> {
    out.push(key)?;
    out.push(first)?;
    for _ in 1..key {
        out.push(0xa5)?;
    }
    match value {
        None => out.push(0)?,
        Some(n) => {
            out.push(1)?;
            out.extend_from_slice(&n.to_be_bytes())?;
            for _ in 0..n {
                out.push(0x5a)?;
            }
        }
    }
    Ok(())
}

/// What stands before the writes. A base has no XID.
fn head(alloc: Global, kind: u8, greatest: bool, count: u16) -> Result<Vec<u8>, AllocError> {
    let mut out = Vec::new(alloc);
    out.push(kind)?;
    if kind != 7 {
        put_xid(&mut out, greatest)?;
    }
    out.extend_from_slice(&[255; 8])?;
    out.extend_from_slice(&count.to_be_bytes())?;
    Ok(out)
}

fn with_writes(
    alloc: Global,
    kind: u8,
    greatest: bool,
    (count, key, value): WritesAt,
) -> Result<Vec<u8>, AllocError> {
    let mut out = head(alloc, kind, greatest, count)?;
    for index in 0..count {
        let [_, first] = index.to_be_bytes();
        put_write(&mut out, first, key, value)?;
    }
    Ok(out)
}

/// Deletes of ascending keys of two bytes.
fn deletes(alloc: Global, kind: u8, count: u16) -> Result<Vec<u8>, AllocError> {
    let mut out = head(alloc, kind, false, count)?;
    for index in 0..count {
        out.push(2)?;
        out.extend_from_slice(&index.to_be_bytes())?;
        out.push(0)?;
    }
    Ok(out)
}

fn written_again(alloc: Global, body: &[u8]) -> Option<Vec<u8>> {
    match read(alloc, body) {
        Ok(record) => write(alloc, &record).ok(),
        Err(_) => None,
    }
}

fn is_again(alloc: Global, body: Result<Vec<u8>, AllocError>) -> bool {
    match body {
        Ok(body) => match written_again(alloc, &body) {
            Some(again) => again.as_slice() == body.as_slice(),
            None => false,
        },
        Err(_) => false,
    }
}

fn body(alloc: Global, row: &Body, greatest: bool) -> Result<Vec<u8>, AllocError> {
    let (front, named, end) = row;
    let mut body = front.to_vec(alloc)?;
    if *named {
        put_xid(&mut body, greatest)?;
    }
    body.extend_from_slice(end)?;
    Ok(body)
}

fn wrong_body(alloc: Global, rows: &[Body], greatest: bool) -> Option<usize> {
    for (index, row) in rows.iter().enumerate() {
        if !is_again(alloc, body(alloc, row, greatest)) {
            return Some(index);
        }
    }
    None
}

fn wrong_writes(alloc: Global, rows: &[WritesAt], kind: u8, greatest: bool) -> Option<usize> {
    for (index, row) in rows.iter().enumerate() {
        if !is_again(alloc, with_writes(alloc, kind, greatest, *row)) {
            return Some(index);
        }
    }
    None
}

#[test]
fn limits(rt: HostRuntime) {
    none_wrong(&rt, wrong_body(rt.alloc(), &BODIES, false));
    none_wrong(&rt, wrong_body(rt.alloc(), &BODIES, true));
    for kind in KINDS {
        none_wrong(&rt, wrong_writes(rt.alloc(), &AT_LIMITS, kind, false));
        none_wrong(&rt, wrong_writes(rt.alloc(), &AT_LIMITS, kind, true));
    }
}

fn is_malformed(alloc: Global, body: &[u8]) -> bool {
    matches!(read(alloc, body), Err(RecordFault::Malformed))
}

fn is_malformed_made(alloc: Global, body: Result<Vec<u8>, AllocError>) -> bool {
    match body {
        Ok(body) => is_malformed(alloc, &body),
        Err(_) => false,
    }
}

fn wrong_past(alloc: Global, rows: &[WritesAt], kind: u8) -> Option<usize> {
    for (index, row) in rows.iter().enumerate() {
        if !is_malformed_made(alloc, with_writes(alloc, kind, false, *row)) {
            return Some(index);
        }
    }
    None
}

fn wrong_count(alloc: Global, kinds: &[u8]) -> Option<usize> {
    for (index, kind) in kinds.iter().enumerate() {
        let none = is_malformed_made(alloc, deletes(alloc, *kind, 0));
        let most = is_again(alloc, deletes(alloc, *kind, WRITES));
        let past = is_malformed_made(alloc, deletes(alloc, *kind, WRITES + 1));
        if !(none && most && past) {
            return Some(index);
        }
    }
    None
}

#[test]
fn past_limits(rt: HostRuntime) {
    none_wrong(&rt, wrong_count(rt.alloc(), &KINDS));
    for kind in KINDS {
        none_wrong(&rt, wrong_past(rt.alloc(), &PAST, kind));
    }
}

const MALFORMED: [&[u8]; 18] = [
    &[],
    &[0],
    &[10, 0, 0, 0, 1, 1, 0, 0xaa],
    &[10, 0, 0, 0, 1, 1, 0, 0xaa, 1],
    &[1, 0, 0, 0, 0],
    &[1, 0, 0, 1],
    &[1, 0, 0, 0, 1, 0],
    &[6, 255, 255, 255, 255, 1, 0, 0xaa],
    &[6, 0, 0, 0, 1, 1, 0, 0xaa, 0],
    &[4, 0, 0, 0, 1, 1, 0, 0xaa],
    &[4, 0, 0, 0, 1, 1, 0, 0xaa, 3],
    &[9, 0, 0, 0, 1, 1, 0, 0xaa, 0],
    &[9, 0, 0, 0, 1, 1, 0, 0xaa, 3],
    // an empty key
    &[
        2, 0, 0, 0, 1, 1, 0, 0xaa, 0, 0, 0, 0, 0, 0, 0, 1, 0, 1, 0, 0,
    ],
    &[7, 0, 0, 0, 0, 0, 0, 0, 1, 0, 1, 0, 0],
    // two keys that don't ascend
    &[
        2, 0, 0, 0, 1, 1, 0, 0xaa, 0, 0, 0, 0, 0, 0, 0, 1, 0, 2, 1, 0x6b, 0, 1, 0x6b, 0,
    ],
    &[7, 0, 0, 0, 0, 0, 0, 0, 1, 0, 2, 1, 0x6b, 0, 1, 0x6b, 0],
    &[
        8, 0, 0, 0, 1, 1, 0, 0xaa, 0, 0, 0, 0, 0, 0, 0, 1, 0, 2, 1, 0x6c, 0, 1, 0x6b, 0,
    ],
];

fn wrong_malformed(alloc: Global, bodies: &[&[u8]]) -> Option<usize> {
    for (index, body) in bodies.iter().enumerate() {
        if !is_malformed(alloc, body) {
            return Some(index);
        }
    }
    None
}

const WHOLE: [&[u8]; 4] = [&PREPARED, &BASE, &HELD, &KNOWN];

fn is_every_cut_malformed(alloc: Global, body: &[u8]) -> bool {
    for cut in 0..body.len() {
        if !is_malformed(alloc, &body[..cut]) {
            return false;
        }
    }
    true
}

fn longer(alloc: Global, body: &[u8]) -> Result<Vec<u8>, AllocError> {
    let mut longer = body.to_vec(alloc)?;
    longer.push(0)?;
    Ok(longer)
}

fn wrong_end(alloc: Global, bodies: &[&[u8]]) -> Option<usize> {
    for (index, body) in bodies.iter().enumerate() {
        let cut = is_every_cut_malformed(alloc, body);
        if !(cut && is_malformed_made(alloc, longer(alloc, body))) {
            return Some(index);
        }
    }
    None
}

#[test]
fn malformed(rt: HostRuntime) {
    none_wrong(&rt, wrong_malformed(rt.alloc(), &MALFORMED));
    none_wrong(&rt, wrong_end(rt.alloc(), &WHOLE));
}

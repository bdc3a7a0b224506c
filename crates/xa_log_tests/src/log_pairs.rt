ghost use Rattle.std.specs.Prelude.{◌≡◌, true};
ghost use Rattle.std.specs.List.{AllByRecursion};
ghost use Rattle.xa_log.specs.{Buffer.HoldsEach, Believed.Chain.IsBody, Believed.Chain.newest};

use std::alloc::Global;
use xa_disk::{Disk, MemDisk};
use xa_limits::MOST_BODY_OF_ONE as BODY_OF_ONE;
use xa_log::{Appended, Log, generation_of_snapshot};
use xa_rows::LOG_BYTES;
use xa_shared::SharedBytes;

// The first boot's record.
pub const OPENED: [u8; 5] = [1, 0, 0, 0, 1];

// Branch 1:aa:bb of timestamp 4294967297 prepared, with the value 76 under the key 6b.
pub const PREPARED: [u8; 25] = [
    2, 0, 0, 0, 1, 1, 1, 0xaa, 0xbb, 0, 0, 0, 1, 0, 0, 0, 1, 0, 1, 1, 0x6b, 1, 0, 1, 0x76,
];

// The second boot's record, and the branch as a snapshot has it.
pub const AGAIN: [u8; 5] = [1, 0, 0, 0, 2];

pub const HELD: [u8; 25] = [
    8, 0, 0, 0, 1, 1, 1, 0xaa, 0xbb, 0, 0, 0, 1, 0, 0, 0, 1, 0, 1, 1, 0x6b, 1, 0, 1, 0x76,
];

// A completion of the branch by the operator.
pub const DECIDED: [u8; 10] = [5, 0, 0, 0, 1, 1, 1, 0xaa, 0xbb, 1];

// Two records before a checkpoint, and two of it.
pub const OLD: [&[u8]; 2] = [&OPENED, &PREPARED];

pub const NEW: [&[u8]; 2] = [&AGAIN, &HELD];

// Whether they are bodies of the newest format.
fn are_bodies(bodies: &[SharedBytes]) -> bool
    ensures { result ≡ true → AllByRecursion (IsBody newest) bodies.now }
{
    for body in bodies {
        if body.is_empty() || body.len() > BODY_OF_ONE {
            return false;
        }
    }
    true
}

// Whether a log has room for each without making more.
fn are_held<D>(log: &Log<D>, bodies: &[SharedBytes]) -> bool
    ensures { result ≡ true → HoldsEach log.now bodies.now }
{
    for body in bodies {
        if body.len() > BODY_OF_ONE {
            return false;
        }
    }
    true
}

fn shared(alloc: Global, bodies: &[Vec<u8>]) -> Option<Vec<SharedBytes>> {
    let mut all = Vec::new(alloc);
    for body in bodies {
        let copy = Vec::from_slice(alloc, body).ok()?;
        all.push(SharedBytes::new(alloc, copy).ok()?).ok()?;
    }
    Some(all)
}

/// What a checkpoint of these comes to, if they are bodies of a generation above the log's.
pub fn checkpoints<D: Disk>(
    alloc: Global,
    log: &mut Log<D>,
    bodies: &[Vec<u8>],
) -> Option<Appended> {
    let bodies = shared(alloc, bodies)?;
    if bodies.is_empty() || !are_bodies(&bodies) || !are_held(log, &bodies) {
        return None;
    }
    if generation_of_snapshot(&bodies) <= log.generation() {
        return None;
    }
    Some(log.checkpoint(&bodies))
}

/// What an append of this comes to, if it is a body.
pub fn appends<D: Disk>(log: &mut Log<D>, body: &[u8]) -> Option<Appended> {
    if body.is_empty() || body.len() > log.most_body() {
        return None;
    }
    log.reserve(body.len()).ok()?;
    Some(log.append(body))
}

/// All are appended and kept.
pub fn keeps_all<D: Disk>(log: &mut Log<D>, bodies: &[&[u8]]) -> bool {
    for body in bodies {
        if appends(log, body) != Some(Appended::Kept) {
            return false;
        }
    }
    true
}

pub fn copies(alloc: Global, bodies: &[&[u8]]) -> Option<Vec<Vec<u8>>> {
    let mut all = Vec::new(alloc);
    for body in bodies {
        all.push(Vec::from_slice(alloc, body).ok()?).ok()?;
    }
    Some(all)
}

/// What a checkpoint of these comes to.
pub fn checkpoint_of<D: Disk>(
    alloc: Global,
    log: &mut Log<D>,
    bodies: &[&[u8]],
) -> Option<Appended> {
    checkpoints(alloc, log, &copies(alloc, bodies)?)
}

/// These are the bodies.
pub fn are(bodies: &[Vec<u8>], rows: &[&[u8]]) -> bool {
    for (body, row) in bodies.iter().zip(rows) {
        if body.as_slice() != *row {
            return false;
        }
    }
    bodies.len() == rows.len()
}

/// A log of these on the first of two disks in memory, of which the second is empty.
pub fn log_of(alloc: Global, bodies: &[&[u8]]) -> Option<Log<MemDisk>> {
    let mut log = Log::create(alloc, MemDisk::new(alloc), MemDisk::new(alloc), LOG_BYTES).ok()?;
    if keeps_all(&mut log, bodies) {
        Some(log)
    } else {
        None
    }
}

/// A disk of these bytes, all of them stable.
pub fn disk_of(alloc: Global, bytes: &[u8]) -> Option<MemDisk> {
    Some(MemDisk::with_bytes(Vec::from_slice(alloc, bytes).ok()?))
}

/// These are all bytes of a disk.
pub fn has_bytes(alloc: Global, disk: &mut MemDisk, wanted: &[u8]) -> bool {
    match bytes_on(alloc, disk) {
        Some(bytes) => bytes.as_slice() == wanted,
        None => false,
    }
}

fn bytes_on(alloc: Global, disk: &mut MemDisk) -> Option<Vec<u8>> {
    let len = disk.length().ok()?;
    let mut bytes = vec![in alloc; 0; len as usize].ok()?;
    if !bytes.is_empty() {
        disk.read_at(0, &mut bytes).ok()?;
    }
    Some(bytes)
}

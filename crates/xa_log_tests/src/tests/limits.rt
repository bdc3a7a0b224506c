//! What no program reaches: the longest body, a body that only the newer format takes, files that are full to the byte, and
//! logs that are made in files that aren't empty, or in too few bytes.
use crate::log_pairs::{
    AGAIN, NEW, OPENED, PREPARED, appends, are, checkpoint_of, disk_of, has_bytes,
};
use crate::tests::rows::none_wrong;
use std::alloc::Global;
use xa_disk::{Disk, Effect, MemDisk};
use xa_log::{Appended, Log, OpenFault, create_on, read_log};
use xa_rows::first_wrong;

// The most bytes of a body in a file of format 1, and in one of format 2.
const SHORT: usize = 524_288;

const LONG: usize = 8_388_608;

// Room for a few of the longest.
const MOST: u64 = 33_554_432;

fn filled(alloc: Global, size: usize) -> Option<Vec<u8>> {
    vec![in alloc; 5; size].ok()
}

fn log_within(alloc: Global, most: u64) -> Option<Log<MemDisk>> {
    Log::create(alloc, MemDisk::new(alloc), MemDisk::new(alloc), most).ok()
}

fn reads_as(alloc: Global, disk: &mut MemDisk, bodies: &[&[u8]]) -> bool {
    match read_log(alloc, disk, MOST) {
        Ok(read) => are(&read, bodies),
        Err(_) => false,
    }
}

fn is_longest_kept(alloc: Global) -> Option<bool> {
    let body = filled(alloc, LONG)?;
    let mut log = log_within(alloc, MOST)?;
    let came = appends(&mut log, &body);
    let (mut disk, _empty) = log.into_disks();
    disk.crash().ok()?;
    Some(came == Some(Appended::Kept) && reads_as(alloc, &mut disk, &[&body]))
}

fn is_longer_refused(alloc: Global) -> Option<bool> {
    let longer = filled(alloc, LONG + 1)?;
    let mut log = log_within(alloc, MOST)?;
    Some(appends(&mut log, &longer).is_none())
}

#[test]
fn the_longest_body_is_kept(rt: HostRuntime) {
    let alloc = rt.alloc();
    assert!(rt; is_longest_kept(alloc) == Some(true) && is_longer_refused(alloc) == Some(true));
}

/// A log of format 1 that has the first boot's record. The digest is that of `sha256sum`.
const OLD_LOG: [u8; 49] = [
    0x58, 0x41, 0x52, 0x4d, 0x4c, 0x4f, 0x47, 0x31, 0x00, 0x00, 0x00, 0x05, 0x01, 0x00, 0x00, 0x00,
    0x01, 0x7c, 0x84, 0x58, 0xee, 0x3a, 0x62, 0x10, 0xab, 0x2e, 0x6a, 0x5f, 0x80, 0xe3, 0x81, 0x8f,
    0x93, 0x00, 0xf2, 0x67, 0x2b, 0x94, 0x6d, 0x2c, 0x74, 0x13, 0x21, 0x17, 0xed, 0xec, 0x1f, 0x91,
    0xf2,
];

// A log of format 1 takes its own bodies, until a checkpoint, which writes format 2, and what was too long for it.
fn is_upgraded_for(alloc: Global, log: &mut Log<MemDisk>, body: &[u8]) -> bool {
    log.format() == 1
        && appends(log, body).is_none()
        && appends(log, &PREPARED) == Some(Appended::Kept)
        && log.format() == 1
        && checkpoint_of(alloc, log, &[&AGAIN]) == Some(Appended::Kept)
        && log.format() == 2
        && appends(log, body) == Some(Appended::Kept)
}

fn is_upgraded(alloc: Global) -> Option<bool> {
    let first = disk_of(alloc, &OLD_LOG)?;
    let (mut log, bodies) = Log::open(alloc, first, MemDisk::new(alloc), MOST).ok()?;
    let body = filled(alloc, SHORT + 1)?;
    Some(are(&bodies, &[&OPENED]) && is_upgraded_for(alloc, &mut log, &body))
}

#[test]
fn a_checkpoint_of_format_1_is_of_format_2(rt: HostRuntime) {
    assert!(rt; is_upgraded(rt.alloc()) == Some(true));
}

// A checkpoint of one body.
const ONE: [&[u8]; 1] = [&AGAIN];

// No call is made, and nothing changes.
fn is_full(alloc: Global, log_bytes: u64, bodies: &[&[u8]]) -> Option<bool> {
    let mut log = log_within(alloc, log_bytes)?;
    log.fail_other(1, Effect::Lost).ok()?;
    let came = checkpoint_of(alloc, &mut log, bodies)?;
    let as_before = log.on_first() && log_bytes.checked_sub(12) == Some(log.free());
    let (_first, mut second) = log.into_disks();
    Some(came == Appended::Full && as_before && second.length().is_err())
}

fn is_filled(alloc: Global, log_bytes: u64, bodies: &[&[u8]]) -> Option<bool> {
    let mut log = log_within(alloc, log_bytes)?;
    Some(checkpoint_of(alloc, &mut log, bodies)? == Appended::Kept && log.free() == 0)
}

// The records end at 49 and at 110, and a closing length stands after them.
#[test]
fn a_checkpoint_that_does_not_fit(rt: HostRuntime) {
    let alloc = rt.alloc();
    assert!(rt;
        is_full(alloc, 12, &ONE) == Some(true)
            && is_full(alloc, 52, &ONE) == Some(true)
            && is_filled(alloc, 53, &ONE) == Some(true)
            && is_full(alloc, 113, &NEW) == Some(true)
            && is_filled(alloc, 114, &NEW) == Some(true)
    );
}

/// What stands in two files, the limit of their bytes, and why no log is made in them: only in those that are empty, and
/// in no less than 12 bytes.
type Refused = (&'static [u8], &'static [u8], u64, Option<OpenFault>);

const MADE: &[Refused] = &[
    (b"", b"", 12, None),
    (b"", b"", 11, Some(OpenFault::TooLong)),
    (b"XARMLOG2", b"", 11, Some(OpenFault::TooLong)),
    (b"XARMLOG2", b"", 90, Some(OpenFault::NotALog)),
    (b"", b"XARMLOG2", 90, Some(OpenFault::NotALog)),
    (b"XARMLOG", b"", 90, Some(OpenFault::NotALog)),
    (b"", b"XARMLOG", 90, Some(OpenFault::NotALog)),
    (&OLD_LOG, b"XARMLOG3", 90, Some(OpenFault::NotALog)),
    (b"XARMLOG3", &OLD_LOG, 12, Some(OpenFault::NotALog)),
];

// Whether a log that was made has its twelve bytes in the first, and none in the second.
fn is_made(alloc: Global, first: &mut MemDisk, second: &mut MemDisk) -> bool {
    first.crash().is_ok()
        && second.length() == Ok(0)
        && has_bytes(alloc, first, b"XARMLOG2\0\0\0\0")
}

// Why no log is made on two disks that are lent.
fn made(alloc: Global, row: &Refused) -> Option<bool> {
    let (one, other, most, fault) = row;
    let mut first = disk_of(alloc, one)?;
    let mut second = disk_of(alloc, other)?;
    match create_on(alloc, &mut first, &mut second, *most) {
        Err(came) => Some(Some(came) == *fault),
        Ok(_opened) => Some(fault.is_none() && is_made(alloc, &mut first, &mut second)),
    }
}

fn wrong_making(alloc: Global, rows: &[Refused]) -> Option<usize> {
    first_wrong(rows, |row| made(alloc, row) == Some(true))
}

// Nor is one opened in two empty ones.
fn opens_nothing(alloc: Global) -> bool {
    match Log::open(alloc, MemDisk::new(alloc), MemDisk::new(alloc), MOST) {
        Ok(_log) => false,
        Err(fault) => fault == OpenFault::NotALog,
    }
}

#[test]
fn a_log_on_two_empty_files(rt: HostRuntime) {
    none_wrong(&rt, wrong_making(rt.alloc(), MADE));
    assert!(rt; opens_nothing(rt.alloc()));
}

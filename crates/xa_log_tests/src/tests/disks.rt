use crate::tests::folders::path_of;
use std::alloc::Global;
use std::fs;
use std::io::ErrorKind;
use xa_disk::{Disk, DiskFault, Effect, FileDisk, MemDisk, SyncAnswer};

// A write that is synced, one that isn't, and a plan.
fn written(disk: &mut MemDisk) -> Option<()> {
    disk.write_at(1, b"ab".as_slice()).ok()?;
    disk.sync().ok()?;
    disk.write_at(2, b"cde".as_slice()).ok()?;
    disk.fail(5, Effect::Lost).ok()
}

// What is there then: its length, and its first three bytes.
fn length_and_front(disk: &mut MemDisk) -> Option<(u64, [u8; 3])> {
    let length = disk.length().ok()?;
    let mut bytes = [9; 3];
    disk.read_at(0, &mut bytes).ok()?;
    Some((length, bytes))
}

fn crashed(alloc: Global) -> Option<(u64, [u8; 3])> {
    let mut disk = MemDisk::new(alloc);
    written(&mut disk)?;
    disk.crash().ok()?;
    length_and_front(&mut disk)
}

#[test]
fn a_crash_drops_what_no_sync_made_stable(rt: HostRuntime) {
    assert!(rt; crashed(rt.alloc()) == Some((3, [0, b'a', b'b'])));
}

// Bytes 2 to 4 are written and synced.
fn file_at(rt: &HostRuntime, path: &str) -> Option<FileDisk> {
    let mut disk = FileDisk::at(rt, path).ok()?;
    disk.write_at(2, b"abc".as_slice()).ok()?;
    disk.sync().ok()?;
    Some(disk)
}

fn four_bytes(disk: &mut FileDisk, at: u64) -> Result<[u8; 4], DiskFault> {
    let mut bytes = [9; 4];
    disk.read_at(at, &mut bytes)?;
    Ok(bytes)
}

fn has_five(disk: &mut FileDisk) -> bool {
    disk.length() == Ok(5)
}

fn error_kind(disk: &FileDisk) -> Option<ErrorKind> {
    disk.error().map(|error| error.kind())
}

fn is_a_disk(disk: &mut FileDisk) -> bool {
    has_five(disk)
        && four_bytes(disk, 0) == Ok([0, 0, b'a', b'b'])
        && error_kind(disk).is_none()
        && four_bytes(disk, 2) == Err(DiskFault)
        && error_kind(disk) == Some(ErrorKind::UnexpectedEof)
}

fn is_removed(rt: &HostRuntime, path: &str) -> bool {
    fs::remove_file(rt, path).is_ok()
}

#[test]
fn a_file_in_a_folder(rt: HostRuntime) {
    let path = path_of(&rt, "xa_disk").expect(&rt, "a path");
    let mut disk = file_at(&rt, path.as_str()).expect(&rt, "a disk");
    assert!(rt; is_a_disk(&mut disk) && is_removed(&rt, path.as_str()));
}

// It is cut if it is longer.
fn is_cut(disk: &mut FileDisk) -> bool {
    !disk.shorten(5)
        && has_five(disk)
        && disk.shorten(4)
        && disk.length() == Ok(4)
        && four_bytes(disk, 0) == Ok([0, 0, b'a', b'b'])
        && error_kind(disk).is_none()
}

#[test]
fn a_file_is_cut(rt: HostRuntime) {
    let path = path_of(&rt, "xa_disk-cut").expect(&rt, "a path");
    let mut disk = file_at(&rt, path.as_str()).expect(&rt, "a disk");
    assert!(rt; is_cut(&mut disk) && is_removed(&rt, path.as_str()));
}

// A sync that was made apart is taken, and so is one that was made before the last write, one of another file, or none at
// all: the disk then makes its own. One may also be left.
fn takes_syncs(disk: &mut FileDisk, other: &mut FileDisk) -> Result<(), DiskFault> {
    disk.write_at(0, b"a".as_slice())?;
    let answer = disk.syncer().sync();
    disk.take_sync(answer)?;
    let early = disk.syncer().sync();
    let written = disk.write_at(1, b"b".as_slice());
    disk.take_sync(early)?;
    written?;
    other.write_at(0, b"a".as_slice())?;
    other.write_at(1, b"b".as_slice())?;
    let others = other.syncer().sync();
    disk.take_sync(others)?;
    let left = disk.syncer().sync();
    disk.leave_sync(left);
    disk.take_sync(SyncAnswer::none())
}

#[test]
fn a_sync_is_made_apart(rt: HostRuntime) {
    let path = path_of(&rt, "xa_disk-apart").expect(&rt, "a path");
    let second = path_of(&rt, "xa_disk-beside").expect(&rt, "a path");
    let mut disk = file_at(&rt, path.as_str()).expect(&rt, "a disk");
    let mut other = file_at(&rt, second.as_str()).expect(&rt, "a disk");
    let are_taken = takes_syncs(&mut disk, &mut other) == Ok(());
    assert!(rt; are_taken && is_removed(&rt, path.as_str()) && is_removed(&rt, second.as_str()));
}

// A disk that only reads refuses a write, and the file stays as it was.
fn is_only_read(rt: &HostRuntime, path: &str) -> Option<bool> {
    let mut disk = FileDisk::for_reading(rt, path).ok()?;
    let is_refused = disk.write_at(0, b"x".as_slice()).is_err();
    Some(is_refused && disk.length() == Ok(5) && four_bytes(&mut disk, 0) == Ok([0, 0, b'a', b'b']))
}

fn is_written_at(rt: &HostRuntime, path: &str) -> bool {
    file_at(rt, path).is_some()
}

#[test]
fn a_file_for_reading(rt: HostRuntime) {
    let path = path_of(&rt, "xa_disk-read").expect(&rt, "a path");
    assert!(rt;
        is_written_at(&rt, path.as_str())
            && is_only_read(&rt, path.as_str()) == Some(true)
            && is_removed(&rt, path.as_str())
    );
}

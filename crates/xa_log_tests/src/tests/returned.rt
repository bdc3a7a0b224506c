//! What an opening of a manager refuses, and the disks that it gives back.
use crate::log_pairs::{disk_of, has_bytes};
use std::alloc::Global;
use xa_codes::Bytes;
use xa_disk::MemDisk;
use xa_log::OpenFault;
use xa_manager::{Manager, ManagerFault, Settings};
use xa_rows::LOG_BYTES;

fn settings(alloc: Global) -> Option<Settings> {
    let name = Bytes::from_slice(alloc, b"xarm").ok()?;
    Some(Settings {
        name,
        log_bytes: LOG_BYTES,
    })
}

// Whether an opening of these bytes and an empty file is refused as too new, and gives both back as they were.
fn gives_back(alloc: Global, bytes: &[u8]) -> Option<bool> {
    let first = disk_of(alloc, bytes)?;
    match Manager::open_returning(
        alloc,
        first,
        MemDisk::new(alloc),
        settings(alloc)?,
        &mut None,
    ) {
        Ok(_manager) => Some(false),
        Err(refused) => {
            let (mut first, mut second) = (refused.first, refused.second);
            let is_told = refused.fault == ManagerFault::Log(OpenFault::TooNew);
            Some(
                is_told
                    && has_bytes(alloc, &mut first, bytes)
                    && has_bytes(alloc, &mut second, &[]),
            )
        }
    }
}

#[test]
fn a_refused_opening_gives_its_files_back(rt: HostRuntime) {
    assert!(rt; gives_back(rt.alloc(), b"XARMLOG3") == Some(true));
}

// The disks of a manager that was opened on these.
fn reopened(alloc: Global, first: MemDisk, second: MemDisk) -> Option<(MemDisk, MemDisk)> {
    match Manager::open(alloc, first, second, settings(alloc)?) {
        Ok(manager) => Some(manager.into_disks()),
        Err(_) => None,
    }
}

// The fault of an opening.
fn refused(alloc: Global, first: MemDisk, second: MemDisk) -> Option<Option<ManagerFault>> {
    match Manager::open(alloc, first, second, settings(alloc)?) {
        Ok(_manager) => Some(None),
        Err(fault) => Some(Some(fault)),
    }
}

// Of the log of one boot, with an empty file in place of the one that isn't the current one.
fn without_second(alloc: Global) -> Option<Option<ManagerFault>> {
    let (first, _) = reopened(alloc, MemDisk::new(alloc), MemDisk::new(alloc))?;
    refused(alloc, first, MemDisk::new(alloc))
}

fn without_first(alloc: Global) -> Option<Option<ManagerFault>> {
    let (first, second) = reopened(alloc, MemDisk::new(alloc), MemDisk::new(alloc))?;
    let (_, second) = reopened(alloc, first, second)?;
    refused(alloc, MemDisk::new(alloc), second)
}

fn without_second_again(alloc: Global) -> Option<Option<ManagerFault>> {
    let (first, second) = reopened(alloc, MemDisk::new(alloc), MemDisk::new(alloc))?;
    let (first, second) = reopened(alloc, first, second)?;
    let (first, _) = reopened(alloc, first, second)?;
    refused(alloc, first, MemDisk::new(alloc))
}

#[test]
fn a_missing_file_is_refused(rt: HostRuntime) {
    // the first boot leaves the second file empty
    assert!(rt; without_second(rt.alloc()) == Some(None));
    assert!(rt; without_first(rt.alloc()) == Some(Some(ManagerFault::MissingFirst)));
    assert!(rt; without_second_again(rt.alloc()) == Some(Some(ManagerFault::MissingSecond)));
}

use std::alloc::Global;
use xa_codes::Bytes;
use xa_disk::MemDisk;
use xa_manager::{Manager, Settings};
use xa_rows::LOG_BYTES;

/// A manager on two empty disks, with the longest log, named `xarm`. None if memory ran out.
pub fn opened(alloc: Global) -> Option<Manager<MemDisk>> {
    let settings = Settings {
        name: Bytes::from_slice(alloc, b"xarm").ok()?,
        log_bytes: LOG_BYTES,
    };
    Manager::open(alloc, MemDisk::new(alloc), MemDisk::new(alloc), settings).ok()
}

//! A disk as a log sees it: what a read gives, what a crash may leave, and counts of its calls and of those that
//! failed.
//!
//! - `disk`: the trait `Disk`, whose ghost members say what its calls mean, and `DiskFault`
//! - `counts`: `Counts`, how many device calls of each kind a disk was asked for
//! - `memory`: `MemDisk`, of which all of that is proved; with `call` (the record of its writes and syncs) and `bytes`
//!   (the bytes alone)
//! - `faults`: which calls of a `MemDisk` will fail; `plan`: a single one of them, and with which `Effect`
//! - `file`: `FileDisk`, a file, which is a disk if its `RawFile` is; with `tally` (its counts) and `teller` (what
//!   tells its first fault)
//! - `raw_file`: the trait `RawFile`, the calls on an open file; `host_file`: `HostFile`, the system's
//! - `syncer`: `Syncer`, which makes a sync while others use the disk, and `SyncAnswer`, what it was answered, if it was made:
//!   `Told`; by a handle of the file (`shared_file`: `SharedFile`, `HostHandle`), which has the file's number (`file_id`)
//! - `opening`: how a file is taken as a disk, and `file_fault`: `FileFault`, why it isn't; `file_call`: `FileCall`, the
//!   system's calls on files
//! - `opens`: `Opens`, what opens files as disks
#![tactic(auto)]

mod bytes;
mod call;
mod counts;
mod disk;
mod faults;
mod file;
mod file_call;
mod file_fault;
mod file_id;
mod host_file;
mod memory;
mod opening;
mod opens;
mod plan;
mod raw_file;
mod shared_file;
mod syncer;
mod tally;
mod teller;
mod told;

pub use counts::Counts;
pub use disk::{Disk, DiskFault};
pub use file::FileDisk;
pub use file_call::FileCall;
pub use file_fault::FileFault;
pub use file_id::FileId;
pub use host_file::HostFile;
pub use memory::MemDisk;
pub use opens::Opens;
pub use plan::Effect;
pub use raw_file::RawFile;
pub use shared_file::{HostHandle, SharedFile};
pub use syncer::{SyncAnswer, Syncer};
pub use told::Told;

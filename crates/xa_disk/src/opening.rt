//! How a file is taken as a disk.
use crate::{FileCall, FileFault};
use std::fs::{self, File, OpenOptions, TryLockError};
use std::io;
use std::io::{ErrorKind, Read};
use std::os::fd::AsRawFd;
use std::os::unix::fs::OpenOptionsExt;
use std::path::Path;

// What the file of a log begins with, by its format.
const LOG_NAMES: [&[u8; 8]; 2] = [b"XARMLOG1", b"XARMLOG2"];

// What a call answered, or that it failed.
fn called<T: Drop>(call: FileCall, answer: io::Result<T>) -> Result<T, FileFault> {
    match answer {
        Ok(value) => Ok(value),
        Err(error) => Err(FileFault::Call { call, error }),
    }
}

// Has the system drop what it keeps of a file in memory. It returns the error's number.
fn drop_pages(file: &File) -> io::Result<()> {
    match libc::posix_fadvise(file.as_raw_fd(), 0, 0, libc::POSIX_FADV_DONTNEED) {
        0 => Ok(()),
        error => Err(io::Error::from_raw_os_error(error)),
    }
}

// Has reads give what is on the medium. If a sync had failed, or was still waited for when its process was killed, the
// system may keep pages that it couldn't write, and marks them as written: reads would give them, and no later sync write
// them. The sync comes first, since a page that is still to be written isn't dropped.
fn settle(file: &File) -> Result<(), FileFault> {
    called(FileCall::SyncAll, file.sync_all())?;
    called(FileCall::Advise, drop_pages(file))
}

// Makes the entries of the directory that a path is in durable.
fn sync_folder(rt: &HostRuntime, path: &str) -> io::Result<()> {
    let folder = match Path::new(path).parent() {
        Some(folder) if !folder.as_str().is_empty() => folder,
        _ => Path::new("."),
    };
    match File::open(rt, folder)?.sync_all() {
        // The file system has no such call for directories, and no other one serves. PostgreSQL and LevelDB go on, too.
        Err(error) if error.kind() == ErrorKind::InvalidInput => Ok(()),
        synced => synced,
    }
}

// Makes a file's name durable: of a link its own, and that of the file that it leads to.
fn sync_names(rt: &HostRuntime, path: &str) -> io::Result<()> {
    sync_folder(rt, path)?;
    if fs::symlink_metadata(rt, path)?.is_symlink() {
        let real = fs::canonicalize(rt, path)?;
        sync_folder(rt, real.as_str())?;
    }
    Ok(())
}

// The file at a path, for reading and writing; a new one is its owner's alone. None is made through a link: if it leads
// nowhere, the volume of its file may not be there yet, and an empty file in its place would be taken for a new log's.
fn opened(rt: &HostRuntime, path: &str) -> Result<File, FileFault> {
    let mut how = OpenOptions::new();
    how.read(true).write(true).mode(0o600);
    let opened = match how.create_new(true).open(rt, path) {
        Err(error) if error.kind() == ErrorKind::AlreadyExists => {
            how.create_new(false).open(rt, path)
        }
        made => made,
    };
    match opened {
        Err(error) if error.kind() == ErrorKind::IsADirectory => Err(FileFault::Irregular),
        opened => called(FileCall::Open, opened),
    }
}

// The same, if it is a regular file that no other disk has.
pub(crate) fn locked(rt: &HostRuntime, path: &str) -> Result<File, FileFault> {
    let file = opened(rt, path)?;
    if !called(FileCall::Length, file.metadata())?.is_file() {
        return Err(FileFault::Irregular);
    }
    match file.try_lock() {
        Ok(()) => {}
        Err(TryLockError::WouldBlock) => return Err(FileFault::InUse),
        Err(TryLockError::Error(error)) => return called(FileCall::Lock, Err(error)),
    }
    settle(&file)?;
    // Each time: a file that was moved here from a backup has a name that no disk has made durable.
    called(FileCall::SyncFolder, sync_names(rt, path))?;
    Ok(file)
}

// The regular file at a path, for reading alone, if no disk writes to it. One that can't be locked is read as it is.
pub(crate) fn shared(rt: &HostRuntime, path: &str) -> Result<File, FileFault> {
    // Before it is opened, since that waits for the writer of a pipe.
    if !called(FileCall::Open, fs::metadata(rt, path))?.is_file() {
        return Err(FileFault::Irregular);
    }
    let file = called(FileCall::Open, File::open(rt, path))?;
    match file.try_lock_shared() {
        Err(TryLockError::WouldBlock) => return Err(FileFault::InUse),
        Ok(()) | Err(TryLockError::Error(_)) => {}
    }
    settle(&file)?;
    Ok(file)
}

// Whether nothing is at a path, not even a link.
pub(crate) fn is_absent(rt: &HostRuntime, path: &str) -> bool {
    match fs::symlink_metadata(rt, path) {
        Ok(_) => false,
        Err(error) => error.kind() == ErrorKind::NotFound,
    }
}

// Whether the file at a path begins as a log's do.
pub(crate) fn is_log(rt: &HostRuntime, path: &str) -> bool {
    match fs::metadata(rt, path) {
        Ok(found) if found.is_file() => {}
        _ => return false,
    }
    let mut name = [0; 8];
    match File::open(rt, path) {
        Ok(mut file) => {
            file.read_exact(&mut name).is_ok() && LOG_NAMES.iter().any(|it| **it == name)
        }
        Err(_) => false,
    }
}

//! Copies of a log's two files.
use std::alloc::Global;
use std::fs::{self, Files, OpenFile, OpenOptions};
use std::io::{self, ErrorKind};
use std::os::unix::fs::OpenOptionsExt;
use std::path::Path;

// The greatest number in a copy's name.
const MOST_COPIES: u32 = 1_000_000;

/// Where two files were kept: with `.damaged-` and this number after their names.
#[derive(Clone, Copy, Debug)]
pub(crate) struct Kept {
    pub(crate) number: u32,
}

/// Copies two files beside themselves, with the first number of which neither name is there. The copies, and their names,
/// outlast a crash.
pub(crate) fn keep<R: AllocGlobal + Files>(
    rt: &R,
    path: &str,
    second_path: &str,
) -> io::Result<Kept> {
    for number in 1..=MOST_COPIES {
        let copy = copy_name(rt.alloc(), path, number)?;
        let second_copy = copy_name(rt.alloc(), second_path, number)?;
        if is_there(rt, copy.as_str())? || is_there(rt, second_copy.as_str())? {
            continue;
        }
        copy_file(rt, path, copy.as_str())?;
        copy_file(rt, second_path, second_copy.as_str())?;
        sync_folder(rt, path)?;
        return Ok(Kept { number });
    }
    Err(io::Error::from(ErrorKind::AlreadyExists))
}

fn copy_name(alloc: Global, path: &str, number: u32) -> io::Result<String> {
    Ok(format!(in alloc; "{path}.damaged-{number}")?)
}

// Whether something has this name, if only a link that leads nowhere.
fn is_there<R: Files>(rt: &R, path: &str) -> io::Result<bool> {
    match fs::symlink_metadata(rt, path) {
        Ok(_) => Ok(true),
        Err(error) if error.kind() == ErrorKind::NotFound => Ok(false),
        Err(error) => Err(error),
    }
}

// Copies a file to a new one, its owner's alone, and syncs that.
fn copy_file<R: AllocGlobal + Files>(rt: &R, from: &str, to: &str) -> io::Result<()> {
    let mut source = fs::open(rt, from)?;
    let mut how = OpenOptions::new();
    how.write(true).create_new(true).mode(0o600);
    let mut copy = how.open(rt, to)?;
    io::copy(&mut source, &mut copy)?;
    copy.sync_all()
}

// Makes the names of what is beside a path last. A file system that has no such call for folders is left to itself, as
// where a log is opened.
pub(crate) fn sync_folder<R: Files>(rt: &R, path: &str) -> io::Result<()> {
    let folder = match Path::new(path).parent() {
        Some(folder) if !folder.as_str().is_empty() => folder,
        _ => Path::new("."),
    };
    match fs::open(rt, folder)?.sync_all() {
        Err(error) if error.kind() == ErrorKind::InvalidInput => Ok(()),
        synced => synced,
    }
}

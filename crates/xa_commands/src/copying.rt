//! A log whose server may run is copied to two new files.
ghost use Rattle.std.specs.Prelude.{OnOk};
ghost use Rattle.xa_commands.specs.Copying.{HasCopied, WasCopied};

use crate::checking::second_path;
use crate::copying_fault::{CopyingFault, Side};
use std::fs::{self, Files, OpenOptions};
use std::io::ErrorKind;
use std::os::unix::fs::OpenOptionsExt;
use std::rt::Clock;
use std::thread;
use std::time::Duration;
use xa_copy::{
    Copied, CopyFault, FollowFault, Followed, Source, Sources, Standby, TRIES, copy_log,
};
use xa_disk::{Disk, Opens};

/// After how many milliseconds a copy that follows looks again.
const PAUSE: u64 = 100;

/// Copies the log whose first file is at a path to a new one, whose first file will be at another path, and prints what was
/// copied. Its server may append to it meanwhile. Where that fails, nothing new is left; nothing that was there is touched.
///
/// If the copy is to follow, it goes on to take what the server appends, and tells of each log that this begins anew, until a
/// fault; what it has then stays.
pub fn copy<'a, R: AllocGlobal + Print + Clock + Files + Opens + Sources>(
    rt: &R,
    path: &'a str,
    to: &'a str,
    log_bytes: u64,
    follows: bool,
) -> Result<(), CopyingFault<'a>>
    ensures { OnOk result (HasCopied R.Source.honest R.Source.state R.found R.Disk.honest R.Disk.seen R.Disk.may_leave
        R.opened path.now to.now log_bytes) }
{
    let Made {
        mut first,
        mut second,
        copied,
        copy,
        second_copy,
    } = copy_new(rt, path, to, log_bytes)?;
    if !follows {
        return Ok(());
    }
    match Standby::begin(rt.alloc(), copied, copy, second_copy, log_bytes) {
        Ok(mut standby) => follow(rt, &mut first, &mut second, &mut standby, path, to),
        Err(fault) => Err(CopyingFault::Follow { to, fault }),
    }
}

// A copy that was made, and what of.
#[derive(Drop)]
struct Made<S, D> {
    first: S,
    second: S,
    copied: Copied,
    copy: D,
    second_copy: D,
}

// Copies the log to files that are new, and prints what was copied; if that fails, they are removed.
fn copy_new<'a, R: AllocGlobal + Print + Files + Opens + Sources>(
    rt: &R,
    path: &'a str,
    to: &'a str,
    log_bytes: u64,
) -> Result<Made<R::Source, R::Disk>, CopyingFault<'a>>
    ensures { OnOk result (HasCopied R.Source.honest R.Source.state R.found R.Disk.honest R.Disk.seen R.Disk.may_leave
        R.opened path.now to.now log_bytes) }
{
    let beside = second_path(rt.alloc(), path)?;
    let to_beside = second_path(rt.alloc(), to)?;
    let mut first = match rt.open_source(path) {
        Ok(source) => source,
        Err(error) => return Err(CopyingFault::Unopened {
            path,
            side: Side::First,
            error,
        }),
    };
    let mut second = match rt.open_source(beside.as_str()) {
        Ok(source) => source,
        Err(error) => return Err(CopyingFault::Unopened {
            path,
            side: Side::Second,
            error,
        }),
    };
    make(rt, to, to, Side::First)?;
    if let Err(fault) = make(rt, to_beside.as_str(), to, Side::Second) {
        remove(rt, to);
        return Err(fault);
    }
    match copy_to(
        rt,
        &mut first,
        &mut second,
        path,
        to,
        to_beside.as_str(),
        log_bytes,
    ) {
        Ok((copied, copy, second_copy)) => {
            told(rt, path, to, &copied)?;
            Ok(Made {
                first,
                second,
                copied,
                copy,
                second_copy,
            })
        }
        Err(fault) => {
            remove(rt, to);
            remove(rt, to_beside.as_str());
            Err(fault)
        }
    }
}

// Makes a file, its owner's alone, where nothing is, not even a link.
fn make<'a, R: Files>(rt: &R, file: &str, to: &'a str, side: Side) -> Result<(), CopyingFault<'a>> {
    let mut how = OpenOptions::new();
    how.write(true).create_new(true).mode(0o600);
    match how.open(rt, file) {
        Ok(_made) => Ok(()),
        Err(error) if error.kind() == ErrorKind::AlreadyExists => {
            Err(CopyingFault::Exists { to, side })
        }
        Err(error) => Err(CopyingFault::Unmade { to, side, error }),
    }
}

// Removes a file that was made.
fn remove<R: Files>(rt: &R, file: &str) {
    let _ = fs::remove_file(rt, file);
}

// Takes what a log's server appends, and what it begins anew, until a fault.
fn follow<'a, R: AllocGlobal + Print + Clock, S: Source, D: Disk>(
    rt: &R,
    first: &mut S,
    second: &mut S,
    standby: &mut Standby<D>,
    path: &'a str,
    to: &'a str,
) -> Result<(), CopyingFault<'a>> {
    let mut tried = 0u32;
    for _ in 0..u64::MAX {
        thread::sleep(rt, Duration::from_millis(PAUSE));
        match standby.follow(rt.alloc(), first, second) {
            Ok(followed) => {
                tried = 0;
                if followed.is_anew {
                    told_anew(rt, to, &followed)?;
                }
            }
            Err(fault) => {
                tried = tried.saturating_add(1);
                if tried > TRIES || !may_pass(fault) {
                    return Err(faulty(first, second, path, to, fault));
                }
            }
        }
    }
    Ok(())
}

// Whether it may be otherwise the next time: the log was begun anew meanwhile, or a record looked damaged, as one does that is
// just being written.
fn may_pass(fault: FollowFault) -> bool {
    matches!(
        fault,
        FollowFault::Moved | FollowFault::Source(CopyFault::Damaged { .. })
    )
}

// Why a log isn't followed any more.
fn faulty<'a, S: Source>(
    first: &S,
    second: &S,
    path: &'a str,
    to: &'a str,
    fault: FollowFault,
) -> CopyingFault<'a> {
    match fault {
        FollowFault::Memory => CopyingFault::Memory,
        FollowFault::Source(CopyFault::Read) => unread(first, second, path),
        FollowFault::Source(fault) => CopyingFault::Copy { path, fault },
        fault => CopyingFault::Follow { to, fault },
    }
}

// Tells that the server began its log anew, and the standby its own.
fn told_anew<'a, R: Print>(rt: &R, to: &str, followed: &Followed) -> Result<(), CopyingFault<'a>> {
    let Followed {
        records,
        end,
        generation,
        ..
    } = followed;
    match println!(rt; "followed {records} records, {end} bytes, generation {generation}: {to}") {
        Ok(()) => Ok(()),
        Err(_) => Err(CopyingFault::Untold),
    }
}

// Copies a log to two files that are there, and empty.
fn copy_to<'a, R: AllocGlobal + Opens, S: Source>(
    rt: &R,
    first: &mut S,
    second: &mut S,
    path: &'a str,
    to: &'a str,
    to_beside: &str,
    log_bytes: u64,
) -> Result<(Copied, R::Disk, R::Disk), CopyingFault<'a>>
    ensures { OnOk result (WasCopied S.honest S.state R.Disk.honest R.Disk.seen R.Disk.may_leave R.opened to.now
        to_beside.now log_bytes first.old first.new second.old second.new) }
{
    let mut copy = match rt.open_disk(to, to_beside) {
        Ok(disk) => disk,
        Err(fault) => return Err(CopyingFault::Untaken {
            to,
            side: Side::First,
            fault,
        }),
    };
    let mut second_copy = match rt.open_disk(to_beside, to) {
        Ok(disk) => disk,
        Err(fault) => return Err(CopyingFault::Untaken {
            to,
            side: Side::Second,
            fault,
        }),
    };
    match copy_log(
        rt.alloc(),
        first,
        second,
        &mut copy,
        &mut second_copy,
        log_bytes,
    ) {
        Ok(copied) => Ok((copied, copy, second_copy)),
        Err(CopyFault::Read) => Err(unread(first, second, path)),
        Err(fault) => Err(CopyingFault::Copy { path, fault }),
    }
}

// Why a log couldn't be read.
fn unread<'a, S: Source>(first: &S, second: &S, path: &'a str) -> CopyingFault<'a> {
    if let Some(error) = first.error() {
        return CopyingFault::Unread {
            path,
            side: Side::First,
            error,
        };
    }
    match second.error() {
        Some(error) => CopyingFault::Unread {
            path,
            side: Side::Second,
            error,
        },
        None => CopyingFault::Copy {
            path,
            fault: CopyFault::Read,
        },
    }
}

// Tells what was copied.
fn told<'a, R: Print>(
    rt: &R,
    path: &str,
    to: &str,
    copied: &Copied,
) -> Result<(), CopyingFault<'a>> {
    let Copied {
        records,
        end,
        generation,
        ..
    } = copied;
    match println!(rt;
        "copied {records} records, {end} bytes, generation {generation}: {path} -> {to}"
    ) {
        Ok(()) => Ok(()),
        Err(_) => Err(CopyingFault::Untold),
    }
}

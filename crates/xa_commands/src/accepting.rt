//! What stands of a damaged log is made ready to be opened.
use crate::accepting_fault::AcceptingFault;
use crate::checking::second_path;
use crate::keeping::{Kept, keep};
use std::fs::Files;
use xa_disk::{Disk, FileFault, Opens};
use xa_log::{
    CLEARED_BYTES, LeftOut, OpenFault, PREAMBLE_BYTES, Unfit, end_damage, find_damage, unfit_file,
};

// Behind the damage of the file that has the log there may be that of the other one, which then has it.
const MOST_ENDED: usize = 3;

/// Ends a log that is damaged before what isn't as it was written, so that an opening takes what stands. Before it writes
/// anything it keeps both files as they are, copied beside them; then it tells what is left out on standard error. No
/// other process has the log meanwhile. Where it isn't damaged, or an opening refuses it anyway, nothing is done.
pub fn accept_damage<'a, R: AllocGlobal + Eprint + Opens + Files>(
    rt: &R,
    path: &'a str,
    log_bytes: u64,
) -> Result<(), AcceptingFault<'a>> {
    let beside = second_path(rt.alloc(), path)?;
    let mut first = match rt.open_disk(path, beside.as_str()) {
        Ok(disk) => disk,
        Err(FileFault::Absent) => return Ok(()),
        Err(fault) => return Err(refused(path, false, fault)),
    };
    let mut second = match rt.open_disk(beside.as_str(), path) {
        Ok(disk) => disk,
        Err(FileFault::Absent) => return Ok(()),
        Err(fault) => return Err(refused(path, true, fault)),
    };
    if !is_damaged(rt, &mut first, &mut second, log_bytes)? {
        return Ok(());
    }
    let kept = match keep(rt, path, beside.as_str()) {
        Ok(kept) => kept,
        Err(error) => return Err(AcceptingFault::Keeping(error)),
    };
    for _ in 0..MOST_ENDED {
        match end_damage(rt.alloc(), &mut first, &mut second, log_bytes)? {
            Some(left) => {
                let ended = if left.damage.on_first {
                    &mut first
                } else {
                    &mut second
                };
                cut(ended, &left);
                tell(rt, path, &left, &kept);
            }
            None => break,
        }
    }
    Ok(())
}

// Cuts a file after where its log was ended, if the disk can: what was left out has stamps of the boot that may begin next in
// this file, so that after a torn write it could be taken for that boot's.
fn cut<D: Disk>(disk: &mut D, left: &LeftOut) {
    if left.is_whole {
        disk.shorten(PREAMBLE_BYTES as u64 + 1);
    } else {
        disk.shorten(left.damage.at.saturating_add(CLEARED_BYTES as u64));
    }
}

// Whether an opening refuses two files as damaged, and for nothing else.
fn is_damaged<R: AllocGlobal, D: Disk>(
    rt: &R,
    first: &mut D,
    second: &mut D,
    log_bytes: u64,
) -> Result<bool, OpenFault> {
    if unfit_file(rt.alloc(), first, second, log_bytes)? != Unfit::Neither {
        return Ok(false);
    }
    match find_damage(rt.alloc(), first, second, log_bytes) {
        Ok(damage) => Ok(damage.is_some()),
        Err(OpenFault::Device) => Err(OpenFault::Device),
        Err(OpenFault::Memory) => Err(OpenFault::Memory),
        Err(_) => Ok(false),
    }
}

// Why a file of the log wasn't opened.
fn refused(path: &str, is_second: bool, fault: FileFault) -> AcceptingFault<'_> {
    match fault {
        FileFault::Memory => AcceptingFault::Memory,
        FileFault::InUse => AcceptingFault::InUse,
        fault if is_second => AcceptingFault::SecondFile { path, fault },
        fault => AcceptingFault::File { path, fault },
    }
}

// Tells what was left out, and where the files are kept.
fn tell<R: Eprint>(rt: &R, path: &str, left: &LeftOut, kept: &Kept) {
    let suffix = if left.damage.on_first { "" } else { ".2" };
    let Kept { number } = kept;
    let _ = if left.is_whole {
        eprintln!(rt;
            "xarm: damage accepted: the snapshot of {path}{suffix} is left out, and what was logged after it; the older file is taken; both files are kept as {path}.damaged-{number} and {path}.2.damaged-{number}"
        )
    } else {
        let record = left.damage.number;
        let at = left.damage.at;
        eprintln!(rt;
            "xarm: damage accepted: {path}{suffix}: record {record} at byte {at} and all after it are left out; both files are kept as {path}.damaged-{number} and {path}.2.damaged-{number}"
        )
    };
}

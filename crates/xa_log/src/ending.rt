//! Ending a damaged log before what isn't as it was written, so that what stands is opened.
ghost use Rattle.std.specs.Prelude.{◌≡◌, IfOk, IfSome, OnErr, OnOk, not};
ghost use Rattle.xa_disk.specs.Disk.{CountsFault, Only, Torn, put};
ghost use Rattle.xa_disk.specs.Time.{TimePasses};
ghost use Rattle.xa_log.specs.Ending.{HasEnded, IsEnded, cleared, end_byte, ended, has_records, is_cut_in, left_out};

use crate::OpenFault;
use crate::appending::put_synced;
use crate::checkpointing::CLEARED_BYTES;
use crate::contents::{Contents, read_contents};
use crate::finding::{Damage, find_damage};
use std::alloc::Global;
use xa_disk::{Disk, DiskFault};
use xa_limits::FIRST_OFFSET;

/// What is left out of a damaged log, so that what stands is opened.
#[derive(Clone, Copy, Debug, PartialEq, Eq)]
pub struct LeftOut {
    /// The record that isn't as it was written, with all after it.
    pub damage: Damage,
    /// Whether all records before it are left out, too: they are the beginning of a snapshot, and the other file has all
    /// that should have been in it.
    pub is_whole: bool,
}

/// Ends a log that is damaged before what isn't as it was written, if it is: by what `find_damage` finds. If that is
/// in a snapshot, and the other file has records, no record of the snapshot is left. The other file isn't written to. The one
/// that was damaged no longer is.
/// If this fails, the file may still be damaged, and nothing before the damage has changed, or all of it has to be left
/// out.
pub fn end_damage<D: Disk>(
    alloc: Global,
    first: &mut D,
    second: &mut D,
    log_bytes: u64,
) -> Result<Option<LeftOut>, OpenFault>
    ensures ended { D.honest → IfOk result (HasEnded log_bytes (D.seen first.old) (D.seen second.old)
        (D.seen first.new) (D.seen second.new)) }
    ensures whole { D.honest → IfOk result (λ left. IfSome left (λ left. IsEnded left (D.seen first.old) (D.seen second.old)
        (D.seen first.new) (D.seen second.new))) }
{
    let Some(damage) = find_damage(alloc, first, second, log_bytes)? else {
        return Ok(None);
    };
    let contents = read_contents(alloc, first, log_bytes)?;
    let other = read_contents(alloc, second, log_bytes)?;
    let left = left_out(damage, &contents, &other);
    end_either(first, second, &left)?;
    Ok(Some(left))
}

// Ends the log of the file that is damaged.
fn end_either<D: Disk>(first: &mut D, second: &mut D, left: &LeftOut) -> Result<(), DiskFault>
    ensures first { D.honest → OnOk result
        (D.seen first.new ≡ ended left.now.damage.on_first (end_byte left.now) (D.seen first.old)) }
    ensures second { D.honest → OnOk result
        (D.seen second.new ≡ ended (not left.now.damage.on_first) (end_byte left.now) (D.seen second.old)) }
{
    let at = end_byte(left);
    if left.damage.on_first {
        end_at(first, at)
    } else {
        end_at(second, at)
    }
}

/// Ends the log that a file is at a byte of it: writes zeros there, as a checkpoint leaves them after its last record, and
/// syncs.
pub fn end_at<D: Disk>(disk: &mut D, at: u64) -> Result<(), DiskFault>
    ensures written { D.honest → OnOk result (D.seen disk.new ≡ put (D.seen disk.old) at cleared) }
    ensures durable { D.honest → OnOk result (Only (D.seen disk.new) (D.may_leave disk.new)) }
    ensures failed { D.honest → OnErr result (Torn at CLEARED_BYTES (D.seen disk.old) (D.seen disk.new)) }
    ensures time { D.honest → TimePasses D.Disk (Torn at CLEARED_BYTES) disk.old disk.new }
    ensures count { CountsFault result (D.failures disk.old) (D.failures disk.new) }
{
    put_synced(disk, at, &[0; CLEARED_BYTES])
}

// What has to be left out of two files that are damaged there.
fn left_out(damage: Damage, first: &Contents, second: &Contents) -> LeftOut
    ensures { result ≡ left_out damage first.now second.now }
{
    let is_whole = if damage.on_first {
        is_cut_in(first) && has_records(second)
    } else {
        is_cut_in(second) && has_records(first)
    };
    LeftOut { damage, is_whole }
}

// Whether a file is a log that is damaged before any record that was appended.
fn is_cut_in(contents: &Contents) -> bool
    ensures { result ≡ is_cut_in contents.now }
{
    match contents {
        Contents::Log(log) => log.cut,
        _ => false,
    }
}

// Whether it is a log that has records.
fn has_records(contents: &Contents) -> bool
    ensures { result ≡ has_records contents.now }
{
    match contents {
        Contents::Log(log) => !log.bodies.is_empty(),
        _ => false,
    }
}

// The byte at which the log has to be ended.
fn end_byte(left: &LeftOut) -> u64
    ensures { result ≡ end_byte left.now }
{
    if left.is_whole {
        FIRST_OFFSET
    } else {
        left.damage.at
    }
}

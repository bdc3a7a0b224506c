//! Where a log's two files show that they were damaged.
ghost use Rattle.std.specs.Prelude.{◌≡◌, false, List, ℕ, length, IfOk, MatchResult, None, Some, is_some, if◌then◌else◌};
ghost use Rattle.xa_disk.specs.{Disk.Same, Time.TimePasses};
ghost use Rattle.xa_log.specs.Answers.{CountsDeviceOf};
ghost use Rattle.xa_log.specs.{Believed.Damage.is_damaged, Believed.Damage.is_headless};
ghost use Rattle.xa_log.specs.{Finding.at_first, Finding.behind_last, Finding.damage_of};
ghost use Rattle.xa_log.specs.{Believed.Pair.pair_fault, Reading.Ends, Reading.Explains, Reading.IsScan};
ghost use Rattle.xa_log.specs.declared.window.TheConstants.{WINDOW};

use crate::OpenFault;
use crate::heads::has_lost_first;
use crate::looking::{read_both, read_current};
use crate::opening::new_buffer;
use crate::reading::Scan;
use crate::window::WINDOW;
use std::alloc::Global;
use xa_disk::Disk;
use xa_limits::FIRST_OFFSET;

/// The record of a log that isn't as it was written.
#[derive(Clone, Copy, Debug, PartialEq, Eq)]
pub struct Damage {
    /// Whether it stands in the first of the two files.
    pub on_first: bool,
    /// Which one it is, from 1.
    pub number: usize,
    /// The byte of the file at which it begins.
    pub at: u64,
}

/// Where two files show that they were damaged, if they do: for whoever opened them and got `OpenFault::Damaged`.
/// Syncs, measures and reads them as an opening does.
pub fn find_damage<D: Disk>(
    alloc: Global,
    first: &mut D,
    second: &mut D,
    log_bytes: u64,
) -> Result<Option<Damage>, OpenFault>
    ensures value { D.honest
        → MatchResult result (λ damage. damage ≡ damage_of (D.seen first.old) (D.seen second.old))
        (λ e. Explains e (pair_fault log_bytes (D.seen first.old) (D.seen second.old))) }
    ensures fault { D.honest
        → IfOk result (λ damage. pair_fault log_bytes (D.seen first.old) (D.seen second.old)
        ≡ (if is_some damage then Some OpenFault.Damaged else None)) }
    ensures same { D.honest → D.seen first.new ≡ D.seen first.old }
    ensures same_second { D.honest → D.seen second.new ≡ D.seen second.old }
    ensures time { D.honest → TimePasses D.Disk Same first.old first.new }
    ensures time_second { D.honest → TimePasses D.Disk Same second.old second.new }
    ensures count { CountsDeviceOf D.failures result first.old first.new second.old second.new }
{
    let mut window = new_buffer(alloc, WINDOW)?;
    let mut other_window = new_buffer(alloc, WINDOW)?;
    find_by(
        alloc,
        first,
        second,
        &mut window,
        &mut other_window,
        log_bytes,
    )
}

// The same by way of two windows.
fn find_by<D: Disk>(
    alloc: Global,
    first: &mut D,
    second: &mut D,
    window: &mut [u8],
    other_window: &mut [u8],
    log_bytes: u64,
) -> Result<Option<Damage>, OpenFault>
    requires room { length window.old ≡ WINDOW }
    requires other_room { length other_window.old ≡ WINDOW }
    ensures value { D.honest
        → MatchResult result (λ damage. damage ≡ damage_of (D.seen first.old) (D.seen second.old))
        (λ e. Explains e (pair_fault log_bytes (D.seen first.old) (D.seen second.old))) }
    ensures fault { D.honest
        → IfOk result (λ damage. pair_fault log_bytes (D.seen first.old) (D.seen second.old)
        ≡ (if is_some damage then Some OpenFault.Damaged else None)) }
    ensures same { D.honest → D.seen first.new ≡ D.seen first.old }
    ensures same_second { D.honest → D.seen second.new ≡ D.seen second.old }
    ensures time { D.honest → TimePasses D.Disk Same first.old first.new }
    ensures time_second { D.honest → TimePasses D.Disk Same second.old second.new }
    ensures count { CountsDeviceOf D.failures result first.old first.new second.old second.new }
{
    let (lens, heads) = read_both(alloc, first, second, window, other_window, log_bytes)?;
    if has_lost_first(&heads.0) {
        return Ok(Some(first_record(true)));
    }
    if has_lost_first(&heads.1) {
        return Ok(Some(first_record(false)));
    }
    let read = read_current(alloc, first, second, window, other_window, lens, heads)?;
    Ok(behind_records(read.0, &read.1))
}

// A file's first record.
fn first_record(on_first: bool) -> Damage
    ensures { result ≡ at_first on_first }
{
    Damage {
        on_first,
        number: 1,
        at: FIRST_OFFSET,
    }
}

// What stands after the records that were read from a file, if it is damaged there.
fn behind_records(on_first: bool, scan: &Scan) -> Option<Damage>
    requires { Ends scan.now }
    ensures { (file : List ℕ) → IsScan file scan.now → is_headless file ≡ false
        → result ≡ (if is_damaged file then Some (behind_last on_first file) else None) }
{
    if !scan.broken {
        return None;
    }
    Some(Damage {
        on_first,
        number: scan.bodies.len() + 1,
        at: scan.end,
    })
}

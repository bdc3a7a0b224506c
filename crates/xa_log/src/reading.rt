//! Reading a log's records from a disk, through a window.
ghost use Rattle.std.specs.Prelude.{◌≡◌, ◌⊎◌, ◌+◌, ◌-◌, ◌≤◌, ◌<◌, ◌^◌, ◌++◌, ◌∷◌, [], ℕ};
ghost use Rattle.std.specs.Prelude.{◌&&◌, ◌||◌, not, min, length, take, slice_index, OnOk, IfOk, IfErr, IfSome, None, Some, MatchResult};
ghost use Rattle.xa_disk.specs.Disk.{Same, Only, CountsFault};
ghost use Rattle.xa_disk.specs.{Time.TimePasses, declared.counts.Counts.Counts};
ghost use Rattle.xa_log.specs.Calls.{Fetched, FetchedSome, FetchedNext, Looks, asked};
ghost use Rattle.xa_disk.specs.Counts.{with_sync};
ghost use Rattle.xa_log.specs.Believed.Chain.{magic, start, logged};
ghost use Rattle.xa_log.specs.{Answers.CountsDevice, Believed.Damage.is_damaged};
ghost use Rattle.xa_log.specs.Reading.{Finds, Fits, IsScan, Ends, bodies_of, fault_of, Explains};
ghost use Rattle.xa_log.specs.Window.{Caches, Covers};

use crate::OpenFault;
use crate::behind::{Behind, look_behind};
use crate::chaining::next_record;
use crate::damage::{BOOT_RECORD, is_broken_behind, is_lost_first};
use crate::format::Format;
use crate::found::Found;
use crate::left_out::{next_or_left, none_left};
use crate::window::{Span, WINDOW, fill};
use std::alloc::Global;
use xa_disk::{Disk, DiskFault};
use xa_limits::{AROUND_BODY, DIGEST_BYTES, FIRST_OFFSET, FORMAT_BYTES};

/// What reading a log gave.
#[derive(Debug, Drop)]
pub struct Scan {
    pub format: Format,
    pub bodies: Vec<Vec<u8>>,
    pub end: u64,
    pub digest: [u8; DIGEST_BYTES],
    /// The bodies that chain after a record that is shown after these, but doesn't (`left_out`).
    pub left: Vec<Vec<u8>>,
    /// Whether it breaks off after these bodies (`breaks_behind`).
    pub broken: bool,
}

// The records from the first one on, which was read, with what a window has of the file by then.
pub(crate) fn read_records<D: Disk>(
    alloc: Global,
    disk: &mut D,
    window: &mut [u8],
    format: Format,
    first: Option<Found>,
    len: u64,
) -> Result<Scan, OpenFault>
    requires room { length window.old ≡ WINDOW }
    requires within { FORMAT_BYTES ≤ len }
    requires fits { IfSome first (Fits format FIRST_OFFSET len WINDOW) }
    ensures value { D.honest → len ≡ length (D.seen disk.old) → take FORMAT_BYTES (D.seen disk.old) ≡ magic format
        → Finds format (start format) (D.seen disk.old) FIRST_OFFSET window.old first
        → IfOk result (IsScan (D.seen disk.old)) }
    ensures logged { D.honest → len ≡ length (D.seen disk.old) → take FORMAT_BYTES (D.seen disk.old) ≡ magic format
        → Finds format (start format) (D.seen disk.old) FIRST_OFFSET window.old first
        → IfOk result (λ s. logged (D.seen disk.old) ≡ bodies_of s.bodies.items) }
    ensures format { IfOk result (λ s. s.format ≡ format) }
    ensures end { IfOk result Ends }
    ensures fits { IfOk result (λ s. s.end ≤ len) }
    ensures same { D.honest → D.seen disk.new ≡ D.seen disk.old }
    ensures time { D.honest → TimePasses D.Disk Same disk.old disk.new }
    ensures count { CountsDevice result (D.failures disk.old) (D.failures disk.new) }
    ensures kinds { IfErr result (λ e. (e ≡ OpenFault.Device) ⊎ (e ≡ OpenFault.Memory)) }
    ensures fetched { (begin : Counts) (most : ℕ) → FetchedNext len most begin (D.counts disk.old) first
        → FetchedSome len begin (D.counts disk.new) }
{
    let mut bodies = Vec::new(alloc);
    let mut end = FIRST_OFFSET;
    let mut digest = format.first_digest();
    let mut behind = Behind::Length;
    let mut left = none_left(alloc);
    let mut next = first;
    'records: loop {
        match next {
            None => {
                let broken = is_broken_behind(format, &bodies, behind, &left);
                return Ok(Scan {
                    format,
                    bodies,
                    end,
                    digest,
                    left: left.bodies,
                    broken,
                });
            }
            Some(found) => {
                end += AROUND_BODY as u64 + found.body.len() as u64;
                digest = found.digest;
                bodies.push(found.body)?;
                let (span, byte) = look_behind(disk, window, found.span, end, len)?;
                behind = byte;
                let (found, rest) = next_or_left(
                    alloc, disk, window, span, end, len, format, &digest,
                )?;
                next = found;
                left = rest;
            }
        }
    }
}

// Has an empty window hold the file's first bytes.
pub(crate) fn read_front<D: Disk>(
    disk: &mut D,
    window: &mut [u8],
    len: u64,
) -> Result<Span, DiskFault>
    requires room { length window.old ≡ WINDOW }
    requires within { FORMAT_BYTES ≤ len }
    ensures front { D.honest → OnOk result (take FORMAT_BYTES window.new ≡ take FORMAT_BYTES (D.seen disk.old)) }
    ensures caches { D.honest → IfOk result (Caches (D.seen disk.old) window.new) }
    ensures held { IfOk result (λ s. s.have ≤ length window.old) }
    ensures covers { IfOk result (λ s. Covers s 0 FORMAT_BYTES) }
    ensures whole { IfOk result (λ s. (s.from ≡ 0) × (s.have ≡ min len WINDOW)) }
    ensures inside { IfOk result (λ s. s.from + s.have ≤ len) }
    ensures same { D.honest → D.seen disk.new ≡ D.seen disk.old }
    ensures time { D.honest → TimePasses D.Disk Same disk.old disk.new }
    ensures count { CountsFault result (D.failures disk.old) (D.failures disk.new) }
    ensures fetched { MatchResult result (λ s. Fetched len (s.from + s.have) (D.counts disk.old) (D.counts disk.new))
        (λ _. FetchedSome len (D.counts disk.old) (D.counts disk.new)) }
{
    fill(
        disk,
        window,
        Span { from: 0, have: 0 },
        0,
        FORMAT_BYTES,
        len,
    )
}

// Syncs, and asks the length. The sync comes first, so that what is read then is what a crash leaves.
pub(crate) fn synced_length<D: Disk>(disk: &mut D) -> Result<u64, DiskFault>
    ensures value { D.honest → IfOk result (λ len. len ≡ length (D.seen disk.old)) }
    ensures durable { D.honest → OnOk result (Only (D.seen disk.new) (D.may_leave disk.new)) }
    ensures same { D.honest → D.seen disk.new ≡ D.seen disk.old }
    ensures time { D.honest → TimePasses D.Disk Same disk.old disk.new }
    ensures count { CountsFault result (D.failures disk.old) (D.failures disk.new) }
    ensures calls { MatchResult result (λ _. D.counts disk.new ≡ asked (D.counts disk.old))
        (λ _. (D.counts disk.new ≡ with_sync (D.counts disk.old)) ⊎ (D.counts disk.new ≡ asked (D.counts disk.old))) }
{
    disk.sync()?;
    disk.length()
}

// Syncs, asks the length, and reads the log that the disk is; with whether it is damaged.
pub(crate) fn read_whole<D: Disk>(
    alloc: Global,
    disk: &mut D,
    window: &mut [u8],
    log_bytes: u64,
) -> Result<(Scan, bool), OpenFault>
    requires { length window.old ≡ WINDOW }
    ensures value { D.honest
        → MatchResult result (λ r. (fault_of log_bytes (D.seen disk.old) ≡ None) × IsScan (D.seen disk.old) r.0)
        (λ e. Explains e (fault_of log_bytes (D.seen disk.old))) }
    ensures logged { D.honest → IfOk result (λ r. logged (D.seen disk.old) ≡ bodies_of r.0.bodies.items) }
    ensures damaged { D.honest → IfOk result (λ r. r.1 ≡ is_damaged (D.seen disk.old)) }
    ensures durable { D.honest → OnOk result (Only (D.seen disk.new) (D.may_leave disk.new)) }
    ensures fits { IfOk result (λ r. r.0.end ≤ log_bytes) }
    ensures same { D.honest → D.seen disk.new ≡ D.seen disk.old }
    ensures time { D.honest → TimePasses D.Disk Same disk.old disk.new }
    ensures count { CountsDevice result (D.failures disk.old) (D.failures disk.new) }
    ensures calls { Looks result log_bytes (D.counts disk.old) (D.counts disk.new) }
    ensures calls_once { D.honest → Looks result (length (D.seen disk.old)) (D.counts disk.old) (D.counts disk.new) }
{
    let len = synced_length(disk)?;
    if len > log_bytes {
        return Err(OpenFault::TooLong);
    }
    if len < FORMAT_BYTES as u64 {
        return Err(OpenFault::NotALog);
    }
    let span = read_front(disk, window, len)?;
    let format = Format::of(&window[..FORMAT_BYTES])?;
    let start = format.first_digest();
    let shown = is_lost_first(
        &window[FORMAT_BYTES..span.have.min(FORMAT_BYTES + BOOT_RECORD)],
        format,
    );
    let first = next_record(alloc, disk, window, span, FIRST_OFFSET, len, format, &start)?;
    let chains = first.is_some();
    let scan = read_records(alloc, disk, window, format, first, len)?;
    let damaged = is_either_broken(shown, chains, scan.broken);
    Ok((scan, damaged))
}

// Whether a log breaks off before its first record, by whether it is shown and whether it chains, or after some.
fn is_either_broken(shown: bool, chains: bool, broken: bool) -> bool
    ensures { result ≡ ((shown && not chains) || broken) }
{
    (shown && !chains) || broken
}

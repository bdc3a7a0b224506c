//! The first record of a log, which has its generation.
ghost use Rattle.std.specs.Prelude.{◌≡◌, ◌⊎◌, ◌||◌, ◌+◌, List, ℕ, length, IfOk, IfErr, MatchResult};
ghost use Rattle.xa_disk.specs.{Disk.Same, Time.TimePasses, declared.counts.Counts.Counts};
ghost use Rattle.xa_log.specs.Answers.{CountsDevice, CountsDeviceOf};
ghost use Rattle.xa_log.specs.Calls.{Fetched, FetchedWithin, MOST_BRIEF, brief};
ghost use Rattle.xa_log.specs.{Believed.Damage.is_headless, Believed.Pair.generation};
ghost use Rattle.xa_log.specs.Looking.{IsFront, HasFront, Tells, IsHead, HasHead, FetchedHead};
ghost use Rattle.xa_log.specs.declared.window.TheConstants.{WINDOW};

use crate::OpenFault;
use crate::chaining::next_record;
use crate::damage::{BOOT_RECORD, is_lost_first};
use crate::format::Format;
use crate::found::Found;
use crate::looking::{Front, number_of};
use std::alloc::Global;
use xa_disk::Disk;
use xa_limits::{FIRST_OFFSET, FORMAT_BYTES};

/// A file that is a log: its format, and its first record, if it has one.
#[derive(Debug, Drop)]
pub struct Head {
    pub format: Format,
    pub first: Option<Found>,
    /// Whether there is none, but the first record of a checkpoint is shown (`is_headless`).
    pub lost: bool,
}

// The generation that a log's first record tells, 0 if there is none.
pub(crate) fn number_in_first(first: &Option<Found>) -> usize
    ensures { (bodies : List (List ℕ)) → Tells bodies first.now → result ≡ generation bodies }
{
    match first {
        Some(found) => number_of(&found.body),
        None => 0,
    }
}

// Whether a file, if it is a log, shows the first record of a checkpoint that doesn't chain.
pub(crate) fn has_lost_first(head: &Option<Head>) -> bool
    ensures { (file window : List ℕ) → IsHead file window head.now → result ≡ is_headless file }
{
    match head {
        Some(head) => head.lost,
        None => false,
    }
}

// Whether either of two does.
pub(crate) fn is_either_lost(first: &Option<Head>, second: &Option<Head>) -> bool
    ensures { (a window b other_window : List ℕ) → IsHead a window first.now → IsHead b other_window second.now
        → result ≡ (is_headless a || is_headless b) }
{
    has_lost_first(first) || has_lost_first(second)
}

// What tells of a file whether it is the current one of two, if it is a log: its first record alone, which has the
// generation, and without which the file has no bodies. So of the one that isn't current no more is read.
pub(crate) fn head_of<D: Disk>(
    alloc: Global,
    disk: &mut D,
    window: &mut [u8],
    front: Front,
    len: u64,
) -> Result<Option<Head>, OpenFault>
    requires room { length window.old ≡ WINDOW }
    requires holds { HasFront len front }
    ensures head { D.honest → len ≡ length (D.seen disk.old) → IsFront (D.seen disk.old) window.old front
        → IfOk result (IsHead (D.seen disk.old) window.new) }
    ensures holds { IfOk result (HasHead len) }
    ensures same { D.honest → D.seen disk.new ≡ D.seen disk.old }
    ensures time { D.honest → TimePasses D.Disk Same disk.old disk.new }
    ensures count { CountsDevice result (D.failures disk.old) (D.failures disk.new) }
    ensures kinds { IfErr result (λ e. (e ≡ OpenFault.Device) ⊎ (e ≡ OpenFault.Memory)) }
    ensures fetched { (begin : Counts) → Fetched len (front.span.from + front.span.have) begin (D.counts disk.old)
        → MatchResult result (FetchedHead len MOST_BRIEF begin (D.counts disk.new))
        (λ _. FetchedWithin len MOST_BRIEF begin (D.counts disk.new)) }
    ensures little { D.honest → len ≡ length (D.seen disk.old) → IsFront (D.seen disk.old) window.old front
        → (begin : Counts) → Fetched len (front.span.from + front.span.have) begin (D.counts disk.old)
        → IfOk result (FetchedHead len (brief (D.seen disk.old)) begin (D.counts disk.new)) }
{
    match front.format {
        None => Ok(None),
        Some(format) => {
            let start = format.first_digest();
            let span = front.span;
            let shown = is_lost_first(
                &window[FORMAT_BYTES..span.have.min(FORMAT_BYTES + BOOT_RECORD)],
                format,
            );
            let first = next_record(alloc, disk, window, span, FIRST_OFFSET, len, format, &start)?;
            let lost = shown && first.is_none();
            Ok(Some(Head {
                format,
                first,
                lost,
            }))
        }
    }
}

// Reads the first records of two files that begin like this.
pub(crate) fn read_heads<D: Disk>(
    alloc: Global,
    first: &mut D,
    second: &mut D,
    window: &mut [u8],
    other_window: &mut [u8],
    lens: (u64, u64),
    fronts: (Front, Front),
) -> Result<(Option<Head>, Option<Head>), OpenFault>
    requires room { length window.old ≡ WINDOW }
    requires other_room { length other_window.old ≡ WINDOW }
    requires holds { HasFront lens.0 fronts.0 }
    requires other_holds { HasFront lens.1 fronts.1 }
    ensures head { D.honest → lens.0 ≡ length (D.seen first.old) → IsFront (D.seen first.old) window.old fronts.0
        → IfOk result (λ r. IsHead (D.seen first.old) window.new r.0) }
    ensures other_head { D.honest → lens.1 ≡ length (D.seen second.old)
        → IsFront (D.seen second.old) other_window.old fronts.1
        → IfOk result (λ r. IsHead (D.seen second.old) other_window.new r.1) }
    ensures holds { IfOk result (λ r. HasHead lens.0 r.0 × HasHead lens.1 r.1) }
    ensures kinds { IfErr result (λ e. (e ≡ OpenFault.Device) ⊎ (e ≡ OpenFault.Memory)) }
    ensures same { D.honest → D.seen first.new ≡ D.seen first.old }
    ensures same_second { D.honest → D.seen second.new ≡ D.seen second.old }
    ensures time { D.honest → TimePasses D.Disk Same first.old first.new }
    ensures time_second { D.honest → TimePasses D.Disk Same second.old second.new }
    ensures count { CountsDeviceOf D.failures result first.old first.new second.old second.new }
    ensures fetched { (begin : Counts)
        → Fetched lens.0 (fronts.0.span.from + fronts.0.span.have) begin (D.counts first.old)
        → MatchResult result (λ r. FetchedHead lens.0 MOST_BRIEF begin (D.counts first.new) r.0)
        (λ _. FetchedWithin lens.0 MOST_BRIEF begin (D.counts first.new)) }
    ensures fetched_second { (begin : Counts)
        → Fetched lens.1 (fronts.1.span.from + fronts.1.span.have) begin (D.counts second.old)
        → MatchResult result (λ r. FetchedHead lens.1 MOST_BRIEF begin (D.counts second.new) r.1)
        (λ _. FetchedWithin lens.1 MOST_BRIEF begin (D.counts second.new)) }
    ensures little { D.honest → lens.0 ≡ length (D.seen first.old) → IsFront (D.seen first.old) window.old fronts.0
        → (begin : Counts) → Fetched lens.0 (fronts.0.span.from + fronts.0.span.have) begin (D.counts first.old)
        → IfOk result (λ r. FetchedHead lens.0 (brief (D.seen first.old)) begin (D.counts first.new) r.0) }
    ensures little_second { D.honest → lens.1 ≡ length (D.seen second.old)
        → IsFront (D.seen second.old) other_window.old fronts.1
        → (begin : Counts) → Fetched lens.1 (fronts.1.span.from + fronts.1.span.have) begin (D.counts second.old)
        → IfOk result (λ r. FetchedHead lens.1 (brief (D.seen second.old)) begin (D.counts second.new) r.1) }
{
    let head = head_of(alloc, first, window, fronts.0, lens.0)?;
    let other_head = head_of(alloc, second, other_window, fronts.1, lens.1)?;
    Ok((head, other_head))
}

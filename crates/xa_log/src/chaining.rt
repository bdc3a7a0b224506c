//! The record that stands at an offset of a log, if it chains.
ghost use Rattle.std.specs.Prelude.{◌≡◌, ◌⊎◌, ◌+◌, ◌≤◌, ◌<◌, List, ℕ, Some, length, take, drop, IfOk, IfErr, IfSome, MatchResult};
ghost use Rattle.std.specs.Int.{w32, to_be_bytes};
ghost use Rattle.xa_disk.specs.{Disk.Same, Time.TimePasses, declared.counts.Counts.Counts};
ghost use Rattle.xa_log.specs.Answers.{CountsDevice};
ghost use Rattle.xa_log.specs.Calls.{Fetched, FetchedNext, FetchedUpto, FetchedWithin, Reaches, ReachesTo};
ghost use Rattle.xa_log.specs.{Believed.Chain.most_body, Believed.Chain.size_at, Reading.Finds, Reading.Fits};
ghost use Rattle.xa_log.specs.Shown.{FitsNext, Shows, as_found, Stands, span_of};
ghost use Rattle.xa_log.specs.Window.{Caches};

use crate::OpenFault;
use crate::format::Format;
use crate::found::{Found, Shown, chain_on, shown_at, shown_size};
use crate::record::chained;
use crate::window::{Span, WINDOW, fill};
use std::alloc::Global;
use xa_disk::Disk;
use xa_limits::{AROUND_BODY, DIGEST_BYTES, LENGTH_BYTES, MOST_BODY, MOST_BODY_OF_ONE};

/// What stands at an offset: a record that chains; or none that does, and what a window has, from there on; or a record that is
/// shown and doesn't chain, for which a window has no room.
#[derive(Debug, Drop)]
pub enum Next {
    Chains(Found),
    Short(Span),
    Long(Shown),
}

// The record that is shown at an offset, with a body of this size, for which a window has room, if it chains. A window has its
// length. It is compared where it stands, so only the body of one that chains is copied.
fn short_at<D: Disk>(
    alloc: Global,
    disk: &mut D,
    window: &mut [u8],
    span: Span,
    at: u64,
    size: usize,
    len: u64,
    prev: &[u8; DIGEST_BYTES],
) -> Result<Next, OpenFault>
    requires room { length window.old ≡ WINDOW }
    requires some { 1 ≤ size }
    requires small { size ≤ MOST_BODY_OF_ONE }
    requires within { at + (AROUND_BODY + size) ≤ len }
    requires held { span.have ≤ WINDOW }
    requires begins { span.from ≤ at }
    requires reaches { at ≤ span.from + span.have }
    requires inside { span.from + span.have ≤ len }
    ensures stands { (format : Format) → D.honest → len ≡ length (D.seen disk.old)
        → Caches (D.seen disk.old) window.old span
        → take LENGTH_BYTES (drop at (D.seen disk.old)) ≡ to_be_bytes w32 size
        → IfOk result (Stands format prev.now (D.seen disk.old) at window.new) }
    ensures fits { (format : Format) → size ≤ most_body format → IfOk result (FitsNext format at len) }
    ensures same { D.honest → D.seen disk.new ≡ D.seen disk.old }
    ensures time { D.honest → TimePasses D.Disk Same disk.old disk.new }
    ensures count { CountsDevice result (D.failures disk.old) (D.failures disk.new) }
    ensures kinds { IfErr result (λ e. (e ≡ OpenFault.Device) ⊎ (e ≡ OpenFault.Memory)) }
    ensures fetched { (start : Counts) (most : ℕ) → Fetched len (span.from + span.have) start (D.counts disk.old)
        → ReachesTo (at + (AROUND_BODY + size)) (span.from + span.have) most
        → MatchResult result (λ n. FetchedUpto len most start (D.counts disk.new) (span_of n))
        (λ _. FetchedWithin len most start (D.counts disk.new)) }
{
    let span = fill(disk, window, span, at, AROUND_BODY + size, len)?;
    let begin = (at - span.from) as usize + LENGTH_BYTES;
    let end = begin + size;
    match chained(&window[begin..end], &window[end..end + DIGEST_BYTES], prev) {
        None => Ok(Next::Short(span)),
        Some(digest) => {
            let body = Vec::from_slice(alloc, &window[begin..end])?;
            Ok(Next::Chains(Found { body, digest, span }))
        }
    }
}

// A record that is shown, as what stands where it is.
fn long_on(shown: Shown, prev: &[u8; DIGEST_BYTES]) -> Next
    requires small { length shown.body.items ≤ MOST_BODY }
    requires long { MOST_BODY_OF_ONE < length shown.body.items }
    ensures stands { (format : Format) (file window : List ℕ) (at : ℕ) → Shows format file at window (Some shown)
        → Stands format prev.now file at window result }
    ensures fits { (format : Format) (at len : ℕ) → Fits format at len WINDOW (as_found shown)
        → FitsNext format at len result }
    ensures span { span_of result ≡ shown.span }
{
    match chain_on(shown, prev) {
        Ok(found) => Next::Chains(found),
        Err(shown) => Next::Long(shown),
    }
}

// What stands at an offset of a file of this format, after a record of this digest.
pub(crate) fn next_at<D: Disk>(
    alloc: Global,
    disk: &mut D,
    window: &mut [u8],
    span: Span,
    at: u64,
    len: u64,
    format: Format,
    prev: &[u8; DIGEST_BYTES],
) -> Result<Next, OpenFault>
    requires room { length window.old ≡ WINDOW }
    requires within { at ≤ len }
    requires held { span.have ≤ WINDOW }
    requires begins { span.from ≤ at }
    requires reaches { at ≤ span.from + span.have }
    requires inside { span.from + span.have ≤ len }
    ensures stands { D.honest → len ≡ length (D.seen disk.old) → Caches (D.seen disk.old) window.old span
        → IfOk result (Stands format prev.now (D.seen disk.old) at window.new) }
    ensures fits { IfOk result (FitsNext format at len) }
    ensures same { D.honest → D.seen disk.new ≡ D.seen disk.old }
    ensures time { D.honest → TimePasses D.Disk Same disk.old disk.new }
    ensures count { CountsDevice result (D.failures disk.old) (D.failures disk.new) }
    ensures kinds { IfErr result (λ e. (e ≡ OpenFault.Device) ⊎ (e ≡ OpenFault.Memory)) }
    ensures fetched { (start : Counts) (most : ℕ) → Fetched len (span.from + span.have) start (D.counts disk.old)
        → Reaches (λ size. D.honest → len ≡ length (D.seen disk.old) → Caches (D.seen disk.old) window.old span
        → size ≡ size_at (drop at (D.seen disk.old))) (most_body format) len at (span.from + span.have) most
        → MatchResult result (λ n. FetchedUpto len most start (D.counts disk.new) (span_of n))
        (λ _. FetchedWithin len most start (D.counts disk.new)) }
{
    let (size, span) = shown_size(disk, window, span, at, len, format)?;
    if size == 0 {
        return Ok(Next::Short(span));
    }
    if size <= MOST_BODY_OF_ONE {
        return short_at(alloc, disk, window, span, at, size, len, prev);
    }
    let shown = shown_at(alloc, disk, window, span, at, size, len)?;
    Ok(long_on(shown, prev))
}

// The record that stands there, if one does that chains.
fn found_in(next: Next) -> Option<Found>
    ensures finds { (format : Format) (prev file window : List ℕ) (at : ℕ) → Stands format prev file at window next
        → Finds format prev file at window result }
    ensures fits { (format : Format) (at len : ℕ) → FitsNext format at len next → IfSome result (Fits format at len WINDOW) }
    ensures fetched { (len most : ℕ) (start now : Counts) → FetchedUpto len most start now (span_of next)
        → FetchedNext len most start now result }
{
    match next {
        Next::Chains(found) => Some(found),
        Next::Short(_) => None,
        Next::Long(_) => None,
    }
}

// The record that stands at an offset of a file of this format, if one does that chains.
pub(crate) fn next_record<D: Disk>(
    alloc: Global,
    disk: &mut D,
    window: &mut [u8],
    span: Span,
    at: u64,
    len: u64,
    format: Format,
    prev: &[u8; DIGEST_BYTES],
) -> Result<Option<Found>, OpenFault>
    requires room { length window.old ≡ WINDOW }
    requires within { at ≤ len }
    requires held { span.have ≤ WINDOW }
    requires begins { span.from ≤ at }
    requires reaches { at ≤ span.from + span.have }
    requires inside { span.from + span.have ≤ len }
    ensures finds { D.honest → len ≡ length (D.seen disk.old) → Caches (D.seen disk.old) window.old span
        → IfOk result (Finds format prev.now (D.seen disk.old) at window.new) }
    ensures fits { IfOk result (λ o. IfSome o (Fits format at len WINDOW)) }
    ensures same { D.honest → D.seen disk.new ≡ D.seen disk.old }
    ensures time { D.honest → TimePasses D.Disk Same disk.old disk.new }
    ensures count { CountsDevice result (D.failures disk.old) (D.failures disk.new) }
    ensures kinds { IfErr result (λ e. (e ≡ OpenFault.Device) ⊎ (e ≡ OpenFault.Memory)) }
    ensures fetched { (start : Counts) (most : ℕ) → Fetched len (span.from + span.have) start (D.counts disk.old)
        → Reaches (λ size. D.honest → len ≡ length (D.seen disk.old) → Caches (D.seen disk.old) window.old span
        → size ≡ size_at (drop at (D.seen disk.old))) (most_body format) len at (span.from + span.have) most
        → MatchResult result (FetchedNext len most start (D.counts disk.new))
        (λ _. FetchedWithin len most start (D.counts disk.new)) }
{
    let next = next_at(alloc, disk, window, span, at, len, format, prev)?;
    Ok(found_in(next))
}

//! What stands after the last record of a log that chains.
ghost use Rattle.std.specs.Prelude.{◌≡◌, ◌⊎◌, ◌+◌, ◌≤◌, List, ℕ, [], false, Some, if◌then◌else◌, length, drop, IfOk, IfErr, IfSome, MatchResult};
ghost use Rattle.xa_disk.specs.{Disk.Same, Time.TimePasses, declared.counts.Counts.Counts};
ghost use Rattle.xa_log.specs.{Answers.CountsDevice, Window.Caches};
ghost use Rattle.xa_log.specs.Calls.{Fetched, FetchedNext, FetchedSome};
ghost use Rattle.xa_log.specs.Believed.Chain.{bodies_from, is_record};
ghost use Rattle.xa_log.specs.Believed.LeftOut.{as_written, has_own, is_own, shows_long, with_size};
ghost use Rattle.xa_log.specs.Reading.{Finds, Fits, bodies_of};
ghost use Rattle.xa_log.specs.Shown.{IsLeft, IsMended, Shows, as_found};

use crate::OpenFault;
use crate::chaining::{Next, next_at, next_record};
use crate::format::Format;
use crate::found::{Found, Shown, chain_on, next_shown};
use crate::mending::{Mended, find_mended};
use crate::record::{digest_of, size_of};
use crate::window::{Span, WINDOW};
use std::alloc::Global;
use xa_disk::Disk;
use xa_limits::{AROUND_BODY, DIGEST_BYTES, MOST_BODY, MOST_BODY_OF_ONE};

/// The most bytes of a group of two records or more, with its closing length. What stands farther after a record was
/// appended after the sync of its group.
pub const MOST_GROUP: usize = 262_144;

/// The first byte of the body of a branch that was prepared.
pub const PREPARED: u8 = 2;

/// The first byte of the body of a branch that was committed in one phase.
pub const COMMITTED: u8 = 3;

/// Where such a body has the length of the first part of its XID.
pub const FIRST_PART: usize = 5;

/// Where it has that of the second one.
pub const SECOND_PART: usize = 6;

/// Where its stamp stands, after the parts.
pub const STAMP_OFFSET: usize = 7;

/// The bytes of a boot's number, with which a stamp begins.
pub const BOOT_BYTES: usize = 4;

/// What chains after a record that is shown but doesn't chain, and how far after its front that begins. Without one,
/// nothing.
#[derive(Debug, Drop)]
pub struct Left {
    pub distance: usize,
    pub bodies: Vec<Vec<u8>>,
}

// Nothing.
pub(crate) fn none_left(alloc: Global) -> Left
    ensures { bodies_of result.bodies.items ≡ [] }
{
    Left {
        distance: 0,
        bodies: Vec::new(alloc),
    }
}

// The bodies that chain from an offset on, once the first one was read.
fn read_chain<D: Disk>(
    alloc: Global,
    disk: &mut D,
    window: &mut [u8],
    format: Format,
    first: Option<Found>,
    at: u64,
    len: u64,
) -> Result<Vec<Vec<u8>>, OpenFault>
    requires room { length window.old ≡ WINDOW }
    requires within { at ≤ len }
    requires fits { IfSome first (Fits format at len WINDOW) }
    ensures value { (prev : List ℕ) (most : ℕ) → D.honest → len ≡ length (D.seen disk.old) → len ≤ at + most
        → Finds format prev (D.seen disk.old) at window.old first
        → IfOk result (λ bodies. bodies_of bodies.items ≡ bodies_from format most prev (drop at (D.seen disk.old))) }
    ensures same { D.honest → D.seen disk.new ≡ D.seen disk.old }
    ensures time { D.honest → TimePasses D.Disk Same disk.old disk.new }
    ensures count { CountsDevice result (D.failures disk.old) (D.failures disk.new) }
    ensures kinds { IfErr result (λ e. (e ≡ OpenFault.Device) ⊎ (e ≡ OpenFault.Memory)) }
    ensures fetched { (begin : Counts) (most : ℕ) → FetchedNext len most begin (D.counts disk.old) first
        → FetchedSome len begin (D.counts disk.new) }
{
    let mut bodies = Vec::new(alloc);
    let mut end = at;
    let mut next = first;
    'records: loop {
        match next {
            None => return Ok(bodies),
            Some(found) => {
                end += AROUND_BODY as u64 + found.body.len() as u64;
                let span = found.span;
                let digest = found.digest;
                bodies.push(found.body)?;
                next = next_record(alloc, disk, window, span, end, len, format, &digest)?;
            }
        }
    }
}

// A record that is shown, if it chains on one of two digests.
fn chain_on_either(
    shown: Shown,
    stored: &[u8; DIGEST_BYTES],
    computed: &[u8; DIGEST_BYTES],
) -> Option<Found>
    requires { length shown.body.items ≤ MOST_BODY }
    ensures kept { IfSome result (λ f. (f.body ≡ shown.body) × (f.span ≡ shown.span)) }
    ensures finds { (format : Format) (file window : List ℕ) (at : ℕ) → Shows format file at window (Some shown)
        → Finds format (if is_record format stored.now (drop at file) then stored.now else computed.now) file at window result }
{
    match chain_on(shown, stored) {
        Ok(found) => Some(found),
        Err(shown) => chain_on(shown, computed).ok(),
    }
}

// The record that is shown at an offset, if it chains on one of two digests.
fn next_on_either<D: Disk>(
    alloc: Global,
    disk: &mut D,
    window: &mut [u8],
    span: Span,
    at: u64,
    len: u64,
    format: Format,
    stored: &[u8; DIGEST_BYTES],
    computed: &[u8; DIGEST_BYTES],
) -> Result<Option<Found>, OpenFault>
    requires room { length window.old ≡ WINDOW }
    requires within { at ≤ len }
    requires held { span.have ≤ WINDOW }
    requires begins { span.from ≤ at }
    requires reaches { at ≤ span.from + span.have }
    requires inside { span.from + span.have ≤ len }
    ensures finds { D.honest → len ≡ length (D.seen disk.old) → Caches (D.seen disk.old) window.old span
        → IfOk result (Finds format (if is_record format stored.now (drop at (D.seen disk.old)) then stored.now else computed.now)
        (D.seen disk.old) at window.new) }
    ensures fits { IfOk result (λ o. IfSome o (Fits format at len WINDOW)) }
    ensures same { D.honest → D.seen disk.new ≡ D.seen disk.old }
    ensures time { D.honest → TimePasses D.Disk Same disk.old disk.new }
    ensures count { CountsDevice result (D.failures disk.old) (D.failures disk.new) }
    ensures kinds { IfErr result (λ e. (e ≡ OpenFault.Device) ⊎ (e ≡ OpenFault.Memory)) }
    ensures fetched { (begin : Counts) → Fetched len (span.from + span.have) begin (D.counts disk.old)
        → MatchResult result (FetchedNext len (len + WINDOW) begin (D.counts disk.new))
        (λ _. FetchedSome len begin (D.counts disk.new)) }
{
    match next_shown(alloc, disk, window, span, at, len, format)? {
        None => Ok(None),
        Some(shown) => Ok(chain_on_either(shown, stored, computed)),
    }
}

// What chains after a record that is shown at an offset and doesn't chain after one of this digest.
pub(crate) fn read_left<D: Disk>(
    alloc: Global,
    disk: &mut D,
    window: &mut [u8],
    shown: Shown,
    at: u64,
    len: u64,
    format: Format,
    prev: &[u8; DIGEST_BYTES],
) -> Result<Left, OpenFault>
    requires room { length window.old ≡ WINDOW }
    requires fits { Fits format at len WINDOW (as_found shown) }
    requires small { length shown.body.items ≤ MOST_BODY }
    ensures left { D.honest → len ≡ length (D.seen disk.old)
        → Shows format (D.seen disk.old) at window.old (Some shown)
        → IfOk result (IsLeft format prev.now (drop at (D.seen disk.old))) }
    ensures same { D.honest → D.seen disk.new ≡ D.seen disk.old }
    ensures time { D.honest → TimePasses D.Disk Same disk.old disk.new }
    ensures count { CountsDevice result (D.failures disk.old) (D.failures disk.new) }
    ensures kinds { IfErr result (λ e. (e ≡ OpenFault.Device) ⊎ (e ≡ OpenFault.Memory)) }
    ensures fetched { (begin : Counts) → Fetched len (shown.span.from + shown.span.have) begin (D.counts disk.old)
        → FetchedSome len begin (D.counts disk.new) }
{
    let distance = AROUND_BODY + shown.body.len();
    let computed = digest_of(prev, &shown.body);
    let stored = shown.stored;
    let end = at + distance as u64;
    let first = next_on_either(
        alloc, disk, window, shown.span, end, len, format, &stored, &computed,
    )?;
    let bodies = read_chain(alloc, disk, window, format, first, end, len)?;
    Ok(Left { distance, bodies })
}

// What chains after the record at an offset, if with this length it is one.
fn read_mended<D: Disk>(
    alloc: Global,
    disk: &mut D,
    window: &mut [u8],
    span: Span,
    at: u64,
    len: u64,
    format: Format,
    mended: &Mended,
) -> Result<Left, OpenFault>
    requires room { length window.old ≡ WINDOW }
    requires small { mended.now.size ≤ MOST_BODY_OF_ONE }
    requires within { at + (AROUND_BODY + mended.now.size) ≤ len }
    requires held { span.have ≤ WINDOW }
    requires begins { span.from ≤ at }
    requires reaches { at + (AROUND_BODY + mended.now.size) ≤ span.from + span.have }
    requires inside { span.from + span.have ≤ len }
    ensures left { (prev : List ℕ) → D.honest → len ≡ length (D.seen disk.old)
        → Caches (D.seen disk.old) window.old span → IsMended format prev (drop at (D.seen disk.old)) mended.now
        → IfOk result (IsLeft format prev (with_size mended.now.size (drop at (D.seen disk.old)))) }
    ensures same { D.honest → D.seen disk.new ≡ D.seen disk.old }
    ensures time { D.honest → TimePasses D.Disk Same disk.old disk.new }
    ensures count { CountsDevice result (D.failures disk.old) (D.failures disk.new) }
    ensures kinds { IfErr result (λ e. (e ≡ OpenFault.Device) ⊎ (e ≡ OpenFault.Memory)) }
    ensures fetched { (begin : Counts) → Fetched len (span.from + span.have) begin (D.counts disk.old)
        → FetchedSome len begin (D.counts disk.new) }
{
    let distance = AROUND_BODY + mended.size;
    let end = at + distance as u64;
    let first = next_record(alloc, disk, window, span, end, len, format, &mended.digest)?;
    let bodies = read_chain(alloc, disk, window, format, first, end, len)?;
    Ok(Left { distance, bodies })
}

// What chains after the record that is shown at an offset and doesn't chain after one of this digest, if one is.
fn read_shown<D: Disk>(
    alloc: Global,
    disk: &mut D,
    window: &mut [u8],
    span: Span,
    at: u64,
    len: u64,
    format: Format,
    prev: &[u8; DIGEST_BYTES],
) -> Result<Left, OpenFault>
    requires room { length window.old ≡ WINDOW }
    requires within { at ≤ len }
    requires held { span.have ≤ WINDOW }
    requires begins { span.from ≤ at }
    requires reaches { at ≤ span.from + span.have }
    requires inside { span.from + span.have ≤ len }
    ensures left { D.honest → len ≡ length (D.seen disk.old) → Caches (D.seen disk.old) window.old span
        → IfOk result (IsLeft format prev.now (drop at (D.seen disk.old))) }
    ensures same { D.honest → D.seen disk.new ≡ D.seen disk.old }
    ensures time { D.honest → TimePasses D.Disk Same disk.old disk.new }
    ensures count { CountsDevice result (D.failures disk.old) (D.failures disk.new) }
    ensures kinds { IfErr result (λ e. (e ≡ OpenFault.Device) ⊎ (e ≡ OpenFault.Memory)) }
    ensures fetched { (begin : Counts) → Fetched len (span.from + span.have) begin (D.counts disk.old)
        → FetchedSome len begin (D.counts disk.new) }
{
    match next_shown(alloc, disk, window, span, at, len, format)? {
        None => Ok(none_left(alloc)),
        Some(shown) => read_left(alloc, disk, window, shown, at, len, format, prev),
    }
}

// What chains after an offset at which none does after one of this digest, and which a window has: after the record there
// with the length with which it was written.
fn read_written<D: Disk>(
    alloc: Global,
    disk: &mut D,
    window: &mut [u8],
    span: Span,
    at: u64,
    len: u64,
    format: Format,
    prev: &[u8; DIGEST_BYTES],
) -> Result<Left, OpenFault>
    requires room { length window.old ≡ WINDOW }
    requires within { at ≤ len }
    requires held { span.have ≤ WINDOW }
    requires begins { span.from ≤ at }
    requires reaches { at ≤ span.from + span.have }
    requires inside { span.from + span.have ≤ len }
    ensures left { D.honest → len ≡ length (D.seen disk.old) → Caches (D.seen disk.old) window.old span
        → shows_long format (drop at (D.seen disk.old)) ≡ false
        → IfOk result (IsLeft format prev.now (as_written format prev.now (drop at (D.seen disk.old)))) }
    ensures same { D.honest → D.seen disk.new ≡ D.seen disk.old }
    ensures time { D.honest → TimePasses D.Disk Same disk.old disk.new }
    ensures count { CountsDevice result (D.failures disk.old) (D.failures disk.new) }
    ensures kinds { IfErr result (λ e. (e ≡ OpenFault.Device) ⊎ (e ≡ OpenFault.Memory)) }
    ensures fetched { (begin : Counts) → Fetched len (span.from + span.have) begin (D.counts disk.old)
        → FetchedSome len begin (D.counts disk.new) }
{
    let (mended, span) = find_mended(disk, window, span, at, len, prev)?;
    match mended {
        Some(mended) => read_mended(alloc, disk, window, span, at, len, format, &mended),
        None => read_shown(alloc, disk, window, span, at, len, format, prev),
    }
}

// The record that stands at an offset, if one does that chains after one of this digest; if one is shown that doesn't,
// what chains after it, also with the length with which it was written.
pub(crate) fn next_or_left<D: Disk>(
    alloc: Global,
    disk: &mut D,
    window: &mut [u8],
    span: Span,
    at: u64,
    len: u64,
    format: Format,
    prev: &[u8; DIGEST_BYTES],
) -> Result<(Option<Found>, Left), OpenFault>
    requires room { length window.old ≡ WINDOW }
    requires within { at ≤ len }
    requires held { span.have ≤ WINDOW }
    requires begins { span.from ≤ at }
    requires reaches { at ≤ span.from + span.have }
    requires inside { span.from + span.have ≤ len }
    ensures finds { D.honest → len ≡ length (D.seen disk.old) → Caches (D.seen disk.old) window.old span
        → IfOk result (λ r. Finds format prev.now (D.seen disk.old) at window.new r.0) }
    ensures left { D.honest → len ≡ length (D.seen disk.old) → Caches (D.seen disk.old) window.old span
        → IfOk result (λ r. is_record format prev.now (drop at (D.seen disk.old)) ≡ false
        → IsLeft format prev.now (as_written format prev.now (drop at (D.seen disk.old))) r.1) }
    ensures fits { IfOk result (λ r. IfSome r.0 (Fits format at len WINDOW)) }
    ensures same { D.honest → D.seen disk.new ≡ D.seen disk.old }
    ensures time { D.honest → TimePasses D.Disk Same disk.old disk.new }
    ensures count { CountsDevice result (D.failures disk.old) (D.failures disk.new) }
    ensures kinds { IfErr result (λ e. (e ≡ OpenFault.Device) ⊎ (e ≡ OpenFault.Memory)) }
    ensures fetched { (begin : Counts) → Fetched len (span.from + span.have) begin (D.counts disk.old)
        → MatchResult result (λ r. FetchedNext len (len + WINDOW) begin (D.counts disk.new) r.0)
        (λ _. FetchedSome len begin (D.counts disk.new)) }
{
    match next_at(alloc, disk, window, span, at, len, format, prev)? {
        Next::Chains(found) => Ok((Some(found), none_left(alloc))),
        Next::Short(span) => {
            let left = read_written(alloc, disk, window, span, at, len, format, prev)?;
            Ok((None, left))
        }
        Next::Long(shown) => {
            let left = read_left(alloc, disk, window, shown, at, len, format, prev)?;
            Ok((None, left))
        }
    }
}

// Whether a body was appended to a log of this generation.
fn is_own_body(body: &[u8], number: usize) -> bool
    ensures { result ≡ is_own number body.now }
{
    if body.len() < STAMP_OFFSET {
        return false;
    }
    if body[0] != PREPARED && body[0] != COMMITTED {
        return false;
    }
    let at = STAMP_OFFSET + body[FIRST_PART] as usize + body[SECOND_PART] as usize;
    if body.len() < at + BOOT_BYTES {
        return false;
    }
    number <= size_of(&body[at..at + BOOT_BYTES])
}

// Whether one of these bodies, whose records stand `at` bytes after a place, is such a log's and stands farther after it
// than a group goes.
pub(crate) fn is_own_left(bodies: &[Vec<u8>], number: usize, at: usize) -> bool
    ensures { result ≡ has_own number at (bodies_of bodies.now) }
{
    let mut distance = at;
    for body in bodies {
        if distance >= MOST_GROUP && is_own_body(body, number) {
            return true;
        }
        distance = MOST_GROUP.min(
            distance
                .saturating_add(AROUND_BODY)
                .saturating_add(body.len()),
        );
    }
    false
}

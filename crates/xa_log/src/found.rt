//! One record of a log that is read: by way of a window, and if it is long, mostly straight into its body.
ghost use Rattle.std.specs.Prelude.{◌≡◌, ◌≢◌, ◌⊎◌, ◌+◌, ◌-◌, ◌≤◌, ◌<◌, List, ℕ, false, length, take, drop, Some, OnOk, IfOk, IfErr, IfSome, MatchResult};
ghost use Rattle.std.specs.Int.{w32, to_be_bytes};
ghost use Rattle.xa_disk.specs.{Disk.Same, Disk.CountsFault, Time.TimePasses, declared.counts.Counts.Counts};
ghost use Rattle.xa_log.specs.Answers.{CountsDevice};
ghost use Rattle.xa_log.specs.Calls.{Fetched, FetchedWithin, FetchedUpto, Reaches, ReachesTo};
ghost use Rattle.xa_log.specs.{Believed.Chain.is_record, Believed.Chain.most_body};
ghost use Rattle.xa_log.specs.{Believed.Chain.size_at, Reading.Finds, Reading.Fits};
ghost use Rattle.xa_log.specs.Shown.{IsShown, IsShownSize, Shows, FetchedShown, FetchedSize, FitsSize, as_found};
ghost use Rattle.xa_log.specs.Window.{Caches, Covers, Ahead};

use crate::OpenFault;
use crate::format::Format;
use crate::record::{chained, overlay, size_of};
use crate::window::{Span, WINDOW, fill};
use std::alloc::{AllocError, Global};
use xa_disk::{Disk, DiskFault};
use xa_limits::{AROUND_BODY, DIGEST_BYTES, LENGTH_BYTES, MOST_BODY, MOST_BODY_OF_ONE};

/// A record that chains: its body, its digest, and what the window has by then, which is the record's end at least, and
/// bytes after it.
#[derive(Debug, Drop)]
pub struct Found {
    pub body: Vec<u8>,
    pub digest: [u8; DIGEST_BYTES],
    pub span: Span,
}

/// A record that is shown, whether or not it chains: its body, the digest that stands after it, and what the window has
/// by then.
#[derive(Debug, Drop)]
pub struct Shown {
    pub body: Vec<u8>,
    pub stored: [u8; DIGEST_BYTES],
    pub span: Span,
}

// A body of `size` bytes that begins with these.
fn begun_with(alloc: Global, front: &[u8], size: usize) -> Result<Vec<u8>, AllocError>
    requires { length front.now ≤ size }
    ensures long { IfOk result (λ body. length body.items ≡ size) }
    ensures front { IfOk result (λ body. take (length front.now) body.items ≡ front.now) }
{
    let mut body = Vec::from_slice(alloc, front)?;
    body.resize(size, 0)?;
    Ok(body)
}

// Reads a body that stands at an offset, from its first `have` bytes on, in pieces of a window's size, until no more is
// left than a window holds with what is around it. Returns how many bytes it has then.
fn read_pieces<D: Disk>(
    disk: &mut D,
    body: &mut [u8],
    at: u64,
    have: usize,
    len: u64,
) -> Result<usize, DiskFault>
    requires within { at + length body.old ≤ len }
    requires begun { have ≤ length body.old }
    ensures more { IfOk result (λ done. have ≤ done) }
    ensures inside { IfOk result (λ done. done ≤ length body.old) }
    ensures left { IfOk result (λ done. length body.old ≤ done + MOST_BODY_OF_ONE) }
    ensures read { D.honest → take have body.old ≡ take have (drop at (D.seen disk.old))
        → IfOk result (λ done. take done body.new ≡ take done (drop at (D.seen disk.old))) }
    ensures same { D.honest → D.seen disk.new ≡ D.seen disk.old }
    ensures time { D.honest → TimePasses D.Disk Same disk.old disk.new }
    ensures count { CountsFault result (D.failures disk.old) (D.failures disk.new) }
    ensures fetched { (start : Counts) → Fetched len (at + have) start (D.counts disk.old)
        → MatchResult result (λ done. Fetched len (at + done) start (D.counts disk.new))
        (λ _. FetchedWithin len (at + length body.old) start (D.counts disk.new)) }
{
    let mut done = have;
    'pieces: while body.len() - done > MOST_BODY_OF_ONE {
        let upto = done + (body.len() - done).min(WINDOW);
        disk.read_at(at + done as u64, &mut body[done..upto])?;
        done = upto;
    }
    Ok(done)
}

// The same if a window of this span has had the body's first `have` bytes. Also returns what it has of the file from
// there on.
fn read_ahead<D: Disk>(
    disk: &mut D,
    body: &mut [u8],
    span: Span,
    at: u64,
    have: usize,
    len: u64,
) -> Result<(usize, Span), DiskFault>
    requires within { at + length body.old ≤ len }
    requires begun { have ≤ length body.old }
    requires begins { span.from ≤ at + have }
    requires reaches { at + have ≤ span.from + span.have }
    requires inside { span.from + span.have ≤ len }
    requires ends { have < length body.old → span.from + span.have ≡ at + have }
    ensures ahead { IfOk result (λ r. Ahead (length body.old) span at have len r.0 r.1) }
    ensures caches { (file window : List ℕ) → Caches file window span → IfOk result (λ r. Caches file window r.1) }
    ensures read { D.honest → take have body.old ≡ take have (drop at (D.seen disk.old))
        → IfOk result (λ r. take r.0 body.new ≡ take r.0 (drop at (D.seen disk.old))) }
    ensures same { D.honest → D.seen disk.new ≡ D.seen disk.old }
    ensures time { D.honest → TimePasses D.Disk Same disk.old disk.new }
    ensures count { CountsFault result (D.failures disk.old) (D.failures disk.new) }
    ensures covered { IfErr result (λ _. span.from + span.have < at + length body.old) }
    ensures fetched { (start : Counts) → Fetched len (span.from + span.have) start (D.counts disk.old)
        → MatchResult result (λ r. Fetched len (r.1.from + r.1.have) start (D.counts disk.new))
        (λ _. FetchedWithin len (at + length body.old) start (D.counts disk.new)) }
{
    if body.len() - have <= MOST_BODY_OF_ONE {
        return Ok((have, span));
    }
    let done = read_pieces(disk, body, at, have, len)?;
    let behind = Span {
        from: at + done as u64,
        have: 0,
    };
    Ok((done, behind))
}

// Reads what is left of a body that stands at an offset, and the digest after it, by way of a window.
fn read_rest<D: Disk>(
    disk: &mut D,
    window: &mut [u8],
    body: &mut [u8],
    span: Span,
    at: u64,
    done: usize,
    len: u64,
) -> Result<Span, DiskFault>
    requires room { length window.old ≡ WINDOW }
    requires within { at + length body.old + DIGEST_BYTES ≤ len }
    requires begun { done ≤ length body.old }
    requires left { length body.old ≤ done + MOST_BODY_OF_ONE }
    requires held { span.have ≤ WINDOW }
    requires begins { span.from ≤ at + done }
    requires reaches { at + done ≤ span.from + span.have }
    requires inside { span.from + span.have ≤ len }
    ensures begins { IfOk result (λ s. s.from ≤ at + done) }
    ensures reaches { IfOk result (λ s. at + length body.old + DIGEST_BYTES ≤ s.from + s.have) }
    ensures held { IfOk result (λ s. s.have ≤ WINDOW) }
    ensures inside { IfOk result (λ s. s.from + s.have ≤ len) }
    ensures bounded { IfOk result (λ s. (s ≡ span) ⊎ (s.from + s.have ≤ at + length body.old + WINDOW)) }
    ensures covered { at + length body.old + DIGEST_BYTES ≤ span.from + span.have → result ≡ Ok span }
    ensures caches { D.honest → Caches (D.seen disk.old) window.old span
        → IfOk result (Caches (D.seen disk.old) window.new) }
    ensures read { D.honest → Caches (D.seen disk.old) window.old span
        → take done body.old ≡ take done (drop at (D.seen disk.old))
        → OnOk result (body.new ≡ take (length body.old) (drop at (D.seen disk.old))) }
    ensures same { D.honest → D.seen disk.new ≡ D.seen disk.old }
    ensures time { D.honest → TimePasses D.Disk Same disk.old disk.new }
    ensures count { CountsFault result (D.failures disk.old) (D.failures disk.new) }
    ensures fetched { (start : Counts) → Fetched len (span.from + span.have) start (D.counts disk.old)
        → MatchResult result (λ s. Fetched len (s.from + s.have) start (D.counts disk.new))
        (λ _. FetchedWithin len (at + length body.old + WINDOW) start (D.counts disk.new)) }
{
    let left = body.len() - done;
    let from = at + done as u64;
    let span = fill(disk, window, span, from, left + DIGEST_BYTES, len)?;
    let begin = (from - span.from) as usize;
    overlay(body, done, &window[begin..begin + left]);
    Ok(span)
}

// Both: reads a body that stands at an offset, of which a window has had the first `have` bytes, and the digest after
// it. Nothing is read if the window has all of it.
fn read_on<D: Disk>(
    disk: &mut D,
    window: &mut [u8],
    body: &mut [u8],
    span: Span,
    at: u64,
    have: usize,
    len: u64,
) -> Result<Span, DiskFault>
    requires room { length window.old ≡ WINDOW }
    requires within { at + length body.old + DIGEST_BYTES ≤ len }
    requires begun { have ≤ length body.old }
    requires held { span.have ≤ WINDOW }
    requires begins { span.from ≤ at + have }
    requires reaches { at + have ≤ span.from + span.have }
    requires inside { span.from + span.have ≤ len }
    requires ends { have < length body.old → span.from + span.have ≡ at + have }
    ensures covers { IfOk result (λ s. Covers s (at + length body.old) DIGEST_BYTES) }
    ensures held { IfOk result (λ s. s.have ≤ WINDOW) }
    ensures inside { IfOk result (λ s. s.from + s.have ≤ len) }
    ensures caches { D.honest → Caches (D.seen disk.old) window.old span
        → IfOk result (Caches (D.seen disk.old) window.new) }
    ensures read { D.honest → Caches (D.seen disk.old) window.old span
        → take have body.old ≡ take have (drop at (D.seen disk.old))
        → OnOk result (body.new ≡ take (length body.old) (drop at (D.seen disk.old))) }
    ensures same { D.honest → D.seen disk.new ≡ D.seen disk.old }
    ensures time { D.honest → TimePasses D.Disk Same disk.old disk.new }
    ensures count { CountsFault result (D.failures disk.old) (D.failures disk.new) }
    ensures fetched { (start : Counts) (most : ℕ) → Fetched len (span.from + span.have) start (D.counts disk.old)
        → ReachesTo (at + length body.old + DIGEST_BYTES) (span.from + span.have) most
        → MatchResult result (λ s. FetchedUpto len most start (D.counts disk.new) s)
        (λ _. FetchedWithin len most start (D.counts disk.new)) }
{
    let (done, span) = read_ahead(disk, body, span, at, have, len)?;
    read_rest(disk, window, body, span, at, done, len)
}

// The body of this size of the record that stands at an offset. A window has the record's length, and so some of the
// body or nothing. Also returns what it has of the file by then, the digest included.
fn read_body<D: Disk>(
    alloc: Global,
    disk: &mut D,
    window: &mut [u8],
    span: Span,
    at: u64,
    size: usize,
    len: u64,
) -> Result<(Vec<u8>, Span), OpenFault>
    requires room { length window.old ≡ WINDOW }
    requires small { size ≤ MOST_BODY }
    requires within { at + (AROUND_BODY + size) ≤ len }
    requires held { span.have ≤ WINDOW }
    requires begins { span.from ≤ at }
    requires reaches { at + LENGTH_BYTES ≤ span.from + span.have }
    requires inside { span.from + span.have ≤ len }
    ensures long { IfOk result (λ r. length r.0.items ≡ size) }
    ensures covers { IfOk result (λ r. Covers r.1 (at + (LENGTH_BYTES + size)) DIGEST_BYTES) }
    ensures held { IfOk result (λ r. r.1.have ≤ WINDOW) }
    ensures inside { IfOk result (λ r. r.1.from + r.1.have ≤ len) }
    ensures caches { D.honest → Caches (D.seen disk.old) window.old span
        → IfOk result (λ r. Caches (D.seen disk.old) window.new r.1) }
    ensures read { D.honest → Caches (D.seen disk.old) window.old span
        → IfOk result (λ r. r.0.items ≡ take size (drop (at + LENGTH_BYTES) (D.seen disk.old))) }
    ensures same { D.honest → D.seen disk.new ≡ D.seen disk.old }
    ensures time { D.honest → TimePasses D.Disk Same disk.old disk.new }
    ensures count { CountsDevice result (D.failures disk.old) (D.failures disk.new) }
    ensures kinds { IfErr result (λ e. (e ≡ OpenFault.Device) ⊎ (e ≡ OpenFault.Memory)) }
    ensures fetched { (start : Counts) (most : ℕ) → Fetched len (span.from + span.have) start (D.counts disk.old)
        → ReachesTo (at + (AROUND_BODY + size)) (span.from + span.have) most
        → MatchResult result (λ r. FetchedUpto len most start (D.counts disk.new) r.1)
        (λ _. FetchedWithin len most start (D.counts disk.new)) }
{
    let begin = (at - span.from) as usize + LENGTH_BYTES;
    let have = (span.have - begin).min(size);
    let mut body = begun_with(alloc, &window[begin..begin + have], size)?;
    let from = at + LENGTH_BYTES as u64;
    let span = read_on(disk, window, &mut body, span, from, have, len)?;
    Ok((body, span))
}

// The record that is shown at an offset, with a body of this size. A window has its length.
pub(crate) fn shown_at<D: Disk>(
    alloc: Global,
    disk: &mut D,
    window: &mut [u8],
    span: Span,
    at: u64,
    size: usize,
    len: u64,
) -> Result<Shown, OpenFault>
    requires room { length window.old ≡ WINDOW }
    requires some { 1 ≤ size }
    requires small { size ≤ MOST_BODY }
    requires within { at + (AROUND_BODY + size) ≤ len }
    requires held { span.have ≤ WINDOW }
    requires begins { span.from ≤ at }
    requires reaches { at + LENGTH_BYTES ≤ span.from + span.have }
    requires inside { span.from + span.have ≤ len }
    ensures shown { D.honest → Caches (D.seen disk.old) window.old span
        → take LENGTH_BYTES (drop at (D.seen disk.old)) ≡ to_be_bytes w32 size
        → IfOk result (IsShown (D.seen disk.old) at window.new) }
    ensures long { IfOk result (λ s. length s.body.items ≡ size) }
    ensures fits { (format : Format) → size ≤ most_body format
        → IfOk result (λ s. Fits format at len WINDOW (as_found s)) }
    ensures same { D.honest → D.seen disk.new ≡ D.seen disk.old }
    ensures time { D.honest → TimePasses D.Disk Same disk.old disk.new }
    ensures count { CountsDevice result (D.failures disk.old) (D.failures disk.new) }
    ensures kinds { IfErr result (λ e. (e ≡ OpenFault.Device) ⊎ (e ≡ OpenFault.Memory)) }
    ensures fetched { (start : Counts) (most : ℕ) → Fetched len (span.from + span.have) start (D.counts disk.old)
        → ReachesTo (at + (AROUND_BODY + size)) (span.from + span.have) most
        → MatchResult result (λ s. FetchedUpto len most start (D.counts disk.new) s.span)
        (λ _. FetchedWithin len most start (D.counts disk.new)) }
{
    let (body, span) = read_body(alloc, disk, window, span, at, size, len)?;
    let tail = (at + (LENGTH_BYTES + size) as u64 - span.from) as usize;
    let mut stored = [0; DIGEST_BYTES];
    stored.copy_from_slice(&window[tail..tail + DIGEST_BYTES]);
    Ok(Shown { body, stored, span })
}

// The size of the body of the record that is shown at an offset of a file of this format, 0 if none is, and what a window
// has then.
pub(crate) fn shown_size<D: Disk>(
    disk: &mut D,
    window: &mut [u8],
    span: Span,
    at: u64,
    len: u64,
    format: Format,
) -> Result<(usize, Span), DiskFault>
    requires room { length window.old ≡ WINDOW }
    requires within { at ≤ len }
    requires held { span.have ≤ WINDOW }
    requires begins { span.from ≤ at }
    requires reaches { at ≤ span.from + span.have }
    requires inside { span.from + span.have ≤ len }
    ensures size { D.honest → len ≡ length (D.seen disk.old) → Caches (D.seen disk.old) window.old span
        → IfOk result (λ r. IsShownSize format (D.seen disk.old) at window.new r.0 r.1) }
    ensures fits { IfOk result (λ r. FitsSize format at len r.0 r.1) }
    ensures same { D.honest → D.seen disk.new ≡ D.seen disk.old }
    ensures time { D.honest → TimePasses D.Disk Same disk.old disk.new }
    ensures count { CountsFault result (D.failures disk.old) (D.failures disk.new) }
    ensures fetched { (start : Counts) (most : ℕ) → Fetched len (span.from + span.have) start (D.counts disk.old)
        → Reaches (λ size. D.honest → len ≡ length (D.seen disk.old) → Caches (D.seen disk.old) window.old span
        → size ≡ size_at (drop at (D.seen disk.old))) (most_body format) len at (span.from + span.have) most
        → MatchResult result (λ r. FetchedSize len most at r.0 start (D.counts disk.new) r.1)
        (λ _. FetchedWithin len most start (D.counts disk.new)) }
{
    if len - at < AROUND_BODY as u64 {
        return Ok((0, span));
    }
    let span = fill(disk, window, span, at, LENGTH_BYTES, len)?;
    let begin = (at - span.from) as usize;
    let size = size_of(&window[begin..begin + LENGTH_BYTES]);
    if size > format.most_body() || len - at < AROUND_BODY as u64 + size as u64 {
        return Ok((0, span));
    }
    Ok((size, span))
}

// The record that is shown at an offset of a file of this format, whether or not it chains, if one is.
pub(crate) fn next_shown<D: Disk>(
    alloc: Global,
    disk: &mut D,
    window: &mut [u8],
    span: Span,
    at: u64,
    len: u64,
    format: Format,
) -> Result<Option<Shown>, OpenFault>
    requires room { length window.old ≡ WINDOW }
    requires within { at ≤ len }
    requires held { span.have ≤ WINDOW }
    requires begins { span.from ≤ at }
    requires reaches { at ≤ span.from + span.have }
    requires inside { span.from + span.have ≤ len }
    ensures shows { D.honest → len ≡ length (D.seen disk.old) → Caches (D.seen disk.old) window.old span
        → IfOk result (Shows format (D.seen disk.old) at window.new) }
    ensures fits { IfOk result (λ o. IfSome o (λ s. Fits format at len WINDOW (as_found s))) }
    ensures small { IfOk result (λ o. IfSome o (λ s. length s.body.items ≤ MOST_BODY)) }
    ensures same { D.honest → D.seen disk.new ≡ D.seen disk.old }
    ensures time { D.honest → TimePasses D.Disk Same disk.old disk.new }
    ensures count { CountsDevice result (D.failures disk.old) (D.failures disk.new) }
    ensures kinds { IfErr result (λ e. (e ≡ OpenFault.Device) ⊎ (e ≡ OpenFault.Memory)) }
    ensures fetched { (start : Counts) (most : ℕ) → Fetched len (span.from + span.have) start (D.counts disk.old)
        → Reaches (λ size. D.honest → len ≡ length (D.seen disk.old) → Caches (D.seen disk.old) window.old span
        → size ≡ size_at (drop at (D.seen disk.old))) (most_body format) len at (span.from + span.have) most
        → MatchResult result (FetchedShown len most start (D.counts disk.new))
        (λ _. FetchedWithin len most start (D.counts disk.new)) }
{
    let (size, span) = shown_size(disk, window, span, at, len, format)?;
    if size == 0 {
        return Ok(None);
    }
    let shown = shown_at(alloc, disk, window, span, at, size, len)?;
    Ok(Some(shown))
}

// The record that is shown, if it chains after one of this digest.
pub(crate) fn chain_on(shown: Shown, prev: &[u8; DIGEST_BYTES]) -> Result<Found, Shown>
    requires { length shown.body.items ≤ MOST_BODY }
    ensures kept { MatchResult result (λ f. (f.body ≡ shown.body) × (f.span ≡ shown.span)) (λ s. s ≡ shown) }
    ensures chains { (format : Format) (file window : List ℕ) (at : ℕ) → Shows format file at window (Some shown)
        → MatchResult result (λ f. Finds format prev.now file at window (Some f))
        (λ _. is_record format prev.now (drop at file) ≡ false) }
{
    match chained(&shown.body, &shown.stored, prev) {
        Some(digest) => Ok(Found {
            body: shown.body,
            digest,
            span: shown.span,
        }),
        None => Err(shown),
    }
}

//! The length with which a record was written, if one bit of it has changed.
ghost use Rattle.std.specs.Prelude.{◌≡◌, ◌⊎◌, ◌+◌, ◌≤◌, List, ℕ, false, length, min, take, drop, IfOk, IfSome, MatchResult};
ghost use Rattle.xa_disk.specs.{Disk.Same, Disk.CountsFault, Time.TimePasses, declared.counts.Counts.Counts};
ghost use Rattle.xa_log.specs.Calls.{Fetched, FetchedSome};
ghost use Rattle.xa_log.specs.Believed.LeftOut.{as_written, mended, shows_long};
ghost use Rattle.xa_log.specs.Shown.{HasFrom, IsFrontOf, IsWritten, IfChainsWith};
ghost use Rattle.xa_log.specs.Window.{Caches};
ghost use Rattle.xa_log.specs.declared.format.Format.{Format};

use crate::record::{SHORT_RECORD, chained, size_of};
use crate::window::{Span, WINDOW, fill};
use xa_disk::{Disk, DiskFault};
use xa_limits::{AROUND_BODY, DIGEST_BYTES, LENGTH_BYTES, MOST_BODY_OF_ONE};

/// The bits of a length.
pub const LENGTH_BITS: u32 = 32;

/// The size of a body by which a record chains, and the digest that it has then.
#[derive(Clone, Copy, Debug)]
pub struct Mended {
    pub size: usize,
    pub digest: [u8; DIGEST_BYTES],
}

// The digest of the record at the front of some bytes, if with this length it is one that chains and a window has room for.
fn chained_with(front: &[u8], size: usize, prev: &[u8; DIGEST_BYTES]) -> Option<[u8; DIGEST_BYTES]>
    ensures chains { (format : Format) (bytes : List ℕ) → IsFrontOf front.now bytes
        → IfChainsWith format prev.now bytes size result }
    ensures small { IfSome result (λ _. size ≤ MOST_BODY_OF_ONE) }
    ensures fits { IfSome result (λ _. AROUND_BODY + size ≤ length front.now) }
{
    if size == 0 || size > MOST_BODY_OF_ONE || front.len() < AROUND_BODY + size {
        return None;
    }
    let end = LENGTH_BYTES + size;
    chained(
        &front[LENGTH_BYTES..end],
        &front[end..end + DIGEST_BYTES],
        prev,
    )
}

// The record at the front of some bytes, with the first length of those that differ from the one there in a bit with which it
// chains.
fn mended_of(front: &[u8], prev: &[u8; DIGEST_BYTES]) -> Option<Mended>
    requires { LENGTH_BYTES ≤ length front.now }
    ensures mended { (format : Format) (bytes : List ℕ) → IsFrontOf front.now bytes
        → IsWritten format prev.now bytes (mended format prev.now bytes LENGTH_BITS) result }
    ensures small { IfSome result (λ m. m.size ≤ MOST_BODY_OF_ONE) }
    ensures fits { IfSome result (λ m. AROUND_BODY + m.size ≤ length front.now) }
{
    let there = size_of(front);
    let mut bit = LENGTH_BITS;
    'bits: while bit > 0 {
        bit -= 1;
        let size = there ^ (1 << bit);
        match chained_with(front, size, prev) {
            Some(digest) => return Some(Mended { size, digest }),
            None => {}
        }
    }
    None
}

// The same of what stands at an offset, of which a window has the length.
fn search<D: Disk>(
    disk: &mut D,
    window: &mut [u8],
    span: Span,
    at: u64,
    len: u64,
    prev: &[u8; DIGEST_BYTES],
) -> Result<(Option<Mended>, Span), DiskFault>
    requires room { length window.old ≡ WINDOW }
    requires within { at + AROUND_BODY ≤ len }
    requires held { span.have ≤ WINDOW }
    requires begins { span.from ≤ at }
    requires reaches { at ≤ span.from + span.have }
    requires inside { span.from + span.have ≤ len }
    ensures mended { (format : Format) → D.honest → len ≡ length (D.seen disk.old)
        → Caches (D.seen disk.old) window.old span
        → IfOk result (λ r. IsWritten format prev.now (drop at (D.seen disk.old))
        (mended format prev.now (drop at (D.seen disk.old)) LENGTH_BITS) r.0) }
    ensures small { IfOk result (λ r. IfSome r.0 (λ m. m.size ≤ MOST_BODY_OF_ONE)) }
    ensures fits { IfOk result (λ r. IfSome r.0 (λ m. at + (AROUND_BODY + m.size) ≤ r.1.from + r.1.have)) }
    ensures has { IfOk result (λ r. HasFrom at len r.1) }
    ensures caches { D.honest → Caches (D.seen disk.old) window.old span
        → IfOk result (λ r. Caches (D.seen disk.old) window.new r.1) }
    ensures same { D.honest → D.seen disk.new ≡ D.seen disk.old }
    ensures time { D.honest → TimePasses D.Disk Same disk.old disk.new }
    ensures count { CountsFault result (D.failures disk.old) (D.failures disk.new) }
    ensures fetched { (start : Counts) → Fetched len (span.from + span.have) start (D.counts disk.old)
        → MatchResult result (λ r. Fetched len (r.1.from + r.1.have) start (D.counts disk.new))
        (λ _. FetchedSome len start (D.counts disk.new)) }
{
    let count = (len - at).min(SHORT_RECORD as u64) as usize;
    let span = fill(disk, window, span, at, count, len)?;
    let begin = (at - span.from) as usize;
    Ok((mended_of(&window[begin..begin + count], prev), span))
}

// The record that stands at an offset where none chains after one of this digest, with the length with which it was written,
// if that isn't the one there; and what a window has then. No more is read if the length is 0.
pub(crate) fn find_mended<D: Disk>(
    disk: &mut D,
    window: &mut [u8],
    span: Span,
    at: u64,
    len: u64,
    prev: &[u8; DIGEST_BYTES],
) -> Result<(Option<Mended>, Span), DiskFault>
    requires room { length window.old ≡ WINDOW }
    requires within { at ≤ len }
    requires held { span.have ≤ WINDOW }
    requires begins { span.from ≤ at }
    requires reaches { at ≤ span.from + span.have }
    requires inside { span.from + span.have ≤ len }
    ensures written { (format : Format) → D.honest → len ≡ length (D.seen disk.old)
        → Caches (D.seen disk.old) window.old span → shows_long format (drop at (D.seen disk.old)) ≡ false
        → IfOk result (λ r. IsWritten format prev.now (drop at (D.seen disk.old))
        (as_written format prev.now (drop at (D.seen disk.old))) r.0) }
    ensures small { IfOk result (λ r. IfSome r.0 (λ m. m.size ≤ MOST_BODY_OF_ONE)) }
    ensures fits { IfOk result (λ r. IfSome r.0 (λ m. at + (AROUND_BODY + m.size) ≤ r.1.from + r.1.have)) }
    ensures has { IfOk result (λ r. HasFrom at len r.1) }
    ensures caches { D.honest → Caches (D.seen disk.old) window.old span
        → IfOk result (λ r. Caches (D.seen disk.old) window.new r.1) }
    ensures same { D.honest → D.seen disk.new ≡ D.seen disk.old }
    ensures time { D.honest → TimePasses D.Disk Same disk.old disk.new }
    ensures count { CountsFault result (D.failures disk.old) (D.failures disk.new) }
    ensures fetched { (start : Counts) → Fetched len (span.from + span.have) start (D.counts disk.old)
        → MatchResult result (λ r. Fetched len (r.1.from + r.1.have) start (D.counts disk.new))
        (λ _. FetchedSome len start (D.counts disk.new)) }
{
    if len - at < AROUND_BODY as u64 {
        return Ok((None, span));
    }
    let span = fill(disk, window, span, at, LENGTH_BYTES, len)?;
    let begin = (at - span.from) as usize;
    if size_of(&window[begin..begin + LENGTH_BYTES]) == 0 {
        return Ok((None, span));
    }
    search(disk, window, span, at, len, prev)
}

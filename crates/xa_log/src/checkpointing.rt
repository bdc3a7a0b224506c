//! A checkpoint's three parts, each on the disk that it writes.
ghost use Rattle.std.specs.Prelude.{◌≡◌, ◌≢◌, ◌⊎◌, ◌+◌, ◌-◌, ◌≤◌, ◌<◌, ◌^◌, ◌++◌, ◌∷◌, [], List};
ghost use Rattle.std.specs.Prelude.{ℕ, length, min, take, drop, replicate, OnOk, OnErr, IfOk, IfSome, IfNone};
ghost use Rattle.std.specs.Int.{w32, to_be_bytes};
ghost use Rattle.std.specs.List.{AllByRecursion};
ghost use Rattle.xa_disk.specs.Disk.{put, Torn, Only, CountsFault};
ghost use Rattle.xa_disk.specs.{Time.TimePasses, Time.LeavesOnly, Counts.with_write};
ghost use Rattle.xa_log.specs.declared.format.Format.{Format};
ghost use Rattle.xa_log.specs.Believed.Chain.{start, preamble, last, digest, text, behind_text, IsBody};
ghost use Rattle.xa_log.specs.Answers.{PutBecame, FailedPut, HasCause};
ghost use Rattle.xa_log.specs.Buffer.{EachFits};
ghost use Rattle.xa_log.specs.Calls.{PutCalls, RecordsCalls, AppendCalls, CheckpointCalls};
ghost use Rattle.xa_log.specs.{Ahead.IsCut, Ahead.Shortens};
ghost use Rattle.xa_log.specs.Believed.Pair.{IsCalm, CalmTears};
ghost use Rattle.xa_log.specs.Believed.Checkpoint.{behind_preamble, bytes_behind, tailed, records_bytes};
ghost use Rattle.xa_log.specs.Believed.Checkpoint.{behind_front, first_length, IsComplete, IsTailed};
ghost use Rattle.xa_log.specs.Believed.Checkpoint.{HasBytes, NeverEmpty, IsOther, LeavesOf, LeavesNone, LeavesSealed, LeavesAny, Checkpointed};

use crate::appending::{Appended, put_or_clear, put_synced};
use crate::format::{Format, PREAMBLE_BYTES};
use crate::record::{clear, encode};
use crate::shortening::shorten;
use xa_disk::{Disk, DiskFault};
use xa_limits::{AROUND_BODY, AROUND_CLOSED, DIGEST_BYTES, FIRST_OFFSET, LENGTH_BYTES, MOST_BODY};
use xa_shared::SharedBytes;

/// Bytes of zeros that a checkpoint writes after its last record, if the limit leaves room: the closing length, and
/// the first byte of what would be a body. What stood there before, of an earlier checkpoint that was refused, chains
/// to the same digests; without its first byte it comes back by no length that an append leaves alone.
pub const CLEARED_BYTES: usize = LENGTH_BYTES + 1;

// How many zeros more than the closing length go after a log that ends at `end`, in a file of at most `most` bytes.
pub(crate) fn zeros_behind(end: u64, most: u64) -> usize
    requires { end + LENGTH_BYTES ≤ most }
    ensures exact { LENGTH_BYTES + result ≡ min CLEARED_BYTES (most - end) }
    ensures within { end + LENGTH_BYTES + result ≤ most }
    ensures few { LENGTH_BYTES + result ≤ CLEARED_BYTES }
{
    let most_more = (CLEARED_BYTES - LENGTH_BYTES) as u64;
    (most - end - LENGTH_BYTES as u64).min(most_more) as usize
}

// The first part: writes a log of no records, and syncs, so that the older log is gone for good before a byte of the
// new one is written. A fault is not repaired: the older log may be there still, which comes after the current one as
// before.
pub(crate) fn put_front<D: Disk>(disk: &mut D, format: Format) -> Result<(), DiskFault>
    ensures made { D.honest → OnOk result (D.seen disk.new ≡ preamble format ++ drop PREAMBLE_BYTES (D.seen disk.old)) }
    ensures durable { D.honest → OnOk result (Only (D.seen disk.new) (D.may_leave disk.new)) }
    ensures grows { D.honest → length (D.seen disk.old) ≤ length (D.seen disk.new) }
    ensures time { D.honest → TimePasses D.Disk (Torn 0 PREAMBLE_BYTES) disk.old disk.new }
    ensures stays { D.honest → (most : ℕ) (stood : List (List ℕ)) → PREAMBLE_BYTES ≤ most
        → IsOther D.Disk most stood disk.old → OnErr result (IsOther D.Disk most stood disk.new) }
    ensures calm { D.honest → CalmTears D.tears → (stood : List (List ℕ)) → IsCalm stood (D.seen disk.old)
        → OnErr result (IsCalm stood (D.seen disk.new)) }
    // Whichever image is left: without chance, what stood there, or nothing.
    ensures any_moment { D.honest → (most : ℕ) (stood : List (List ℕ)) → PREAMBLE_BYTES ≤ most
        → IsOther D.Disk most stood disk.old → LeavesOnly D.Disk disk.old disk.new (LeavesOf most stood) }
    ensures count { CountsFault result (D.failures disk.old) (D.failures disk.new) }
    ensures calls { PutCalls result (D.counts disk.old) (D.counts disk.new) }
{
    put_synced(disk, 0, format.preamble().as_slice())
}

// Writes a body's record and `zeros` zero bytes after it, but nothing before the end of the preamble. Returns its
// digest.
fn put_record<D: Disk>(
    disk: &mut D,
    at: u64,
    prev: &[u8; DIGEST_BYTES],
    buffer: &mut [u8],
    body: &[u8],
    zeros: usize,
) -> Result<[u8; DIGEST_BYTES], DiskFault>
    requires room { AROUND_BODY + CLEARED_BYTES + length body.now ≤ length buffer.old }
    requires small { length body.now ≤ MOST_BODY }
    requires from { FIRST_OFFSET ≤ at }
    requires zeros { zeros ≤ CLEARED_BYTES }
    ensures digest { IfOk result (λ d. d ≡ digest prev.now body.now) }
    ensures written { D.honest
        → OnOk result (D.seen disk.new ≡ put (D.seen disk.old) (behind_preamble at)
        (drop (PREAMBLE_BYTES - at) (tailed prev.now body.now zeros))) }
    ensures torn { D.honest
        → Torn (behind_preamble at) (bytes_behind at body.now zeros) (D.seen disk.old) (D.seen disk.new) }
    ensures time { D.honest
        → TimePasses D.Disk (Torn (behind_preamble at) (bytes_behind at body.now zeros)) disk.old disk.new }
    ensures count { CountsFault result (D.failures disk.old) (D.failures disk.new) }
    ensures calls { D.counts disk.new ≡ with_write (D.counts disk.old) }
{
    let digest = encode(buffer, prev, body);
    clear(buffer, AROUND_BODY + body.len(), zeros);
    let skip = (PREAMBLE_BYTES as u64).saturating_sub(at);
    let end = AROUND_BODY + body.len() + zeros;
    disk.write_at(at.max(PREAMBLE_BYTES as u64), &buffer[skip as usize..end])?;
    Ok(digest)
}

// The second part: writes the records after the preamble, each in one write, a closing length and `more` zeros
// after the last, and syncs. Returns the last record's digest. A fault is not repaired: the first length is still 0, and stable, so
// whatever was written here, the file has no record. The sync makes the records stable before the seal makes them
// count.
pub(crate) fn put_records<D: Disk>(
    disk: &mut D,
    format: Format,
    buffer: &mut [u8],
    bodies: &[SharedBytes],
    more: usize,
) -> Result<[u8; DIGEST_BYTES], DiskFault>
    requires room { EachFits (length buffer.old) bodies.now }
    requires some { 1 ≤ length bodies.now }
    requires sizes { AllByRecursion (IsBody format) bodies.now }
    requires few { LENGTH_BYTES + more ≤ CLEARED_BYTES }
    requires fits { PREAMBLE_BYTES + (records_bytes format bodies.now + more) < 2 ^ 64 }
    ensures digest { IfOk result (λ d. d ≡ last (start format) bodies.now) }
    ensures written { D.honest → PREAMBLE_BYTES ≤ length (D.seen disk.old)
        → OnOk result
        (D.seen disk.new
        ≡ put (D.seen disk.old) PREAMBLE_BYTES (behind_front format bodies.now ++ replicate more 0)) }
    ensures durable { D.honest → OnOk result (Only (D.seen disk.new) (D.may_leave disk.new)) }
    ensures torn { D.honest
        → Torn PREAMBLE_BYTES (records_bytes format bodies.now + more) (D.seen disk.old) (D.seen disk.new) }
    // Whichever image is left: nothing.
    ensures any_moment { D.honest → (most : ℕ) → PREAMBLE_BYTES + (records_bytes format bodies.now + more) ≤ most
        → ((c : List ℕ) → D.may_leave disk.old c → LeavesNone most format c)
        → LeavesOnly D.Disk disk.old disk.new (LeavesNone most format) }
    ensures time { D.honest
        → TimePasses D.Disk (Torn PREAMBLE_BYTES (records_bytes format bodies.now + more)) disk.old disk.new }
    ensures count { CountsFault result (D.failures disk.old) (D.failures disk.new) }
    ensures calls { RecordsCalls result (length bodies.now) (D.counts disk.old) (D.counts disk.new) }
{
    let most = bodies.len() - 1;
    let mut end = FIRST_OFFSET;
    let mut digest = format.first_digest();
    for body in &bodies[..most] {
        digest = put_record(disk, end, &digest, buffer, body.as_slice(), 0)?;
        end += AROUND_BODY as u64 + body.len() as u64;
    }
    let digest = put_record(
        disk,
        end,
        &digest,
        buffer,
        bodies[most].as_slice(),
        LENGTH_BYTES + more,
    )?;
    disk.sync()?;
    Ok(digest)
}

// The third part, the seal: writes the first length and syncs; if that fails, writes a length 0 and syncs. A torn seal
// is the right length or, without chance, one whose record doesn't chain. Here a fault is repaired: a seal that may be
// there can make this file the current one.
pub(crate) fn put_seal<D: Disk>(disk: &mut D, size: u32) -> Appended
    ensures went { D.honest
        → PutBecame D.tears result FIRST_OFFSET (to_be_bytes w32 size)
        (D.seen disk.old) (D.seen disk.new) (D.may_leave disk.new) }
    ensures any_moment { D.honest → (most : ℕ) (format : Format) (bodies : List (List ℕ))
        → IsComplete format bodies (D.seen disk.old)
        → size ≡ first_length bodies → length (D.seen disk.old) ≤ most → Only (D.seen disk.old) (D.may_leave disk.old)
        → LeavesOnly D.Disk disk.old disk.new (LeavesSealed most bodies) }
    ensures time { D.honest
        → TimePasses D.Disk (Torn FIRST_OFFSET LENGTH_BYTES) disk.old disk.new }
    ensures cause { HasCause result (D.failures disk.old) (D.failures disk.new) }
    ensures calls { AppendCalls result (D.counts disk.old) (D.counts disk.new) }
    ensures not_full { result ≢ Appended.Full }
{
    let mut bytes = size.to_be_bytes();
    put_or_clear(disk, FIRST_OFFSET, &mut bytes)
}

// The three parts. Returns the last record's digest, if the checkpoint is kept. Between the first and the second one the file is
// cut if it is known to reach far beyond `keep` bytes, in which the log has room: it has no record then, whatever a crash leaves
// of the cut, and the second part's sync makes it durable.
pub(crate) fn checkpoint_on<D: Disk>(
    disk: &mut D,
    format: Format,
    buffer: &mut [u8],
    bodies: &[SharedBytes],
    more: usize,
    keep: u64,
    known: &mut u64,
) -> (Appended, [u8; DIGEST_BYTES])
    requires room { EachFits (length buffer.old) bodies.now }
    requires some { 1 ≤ length bodies.now }
    requires sizes { AllByRecursion (IsBody format) bodies.now }
    requires few { LENGTH_BYTES + more ≤ CLEARED_BYTES }
    requires fits { PREAMBLE_BYTES + (records_bytes format bodies.now + more) < 2 ^ 64 }
    requires keep { PREAMBLE_BYTES + records_bytes format bodies.now ≤ keep }
    ensures digest { result.0 ≡ Appended.Kept → result.1 ≡ last (start format) bodies.now }
    ensures answer { D.honest → (most : ℕ) (stood : List (List ℕ))
        → PREAMBLE_BYTES + (records_bytes format bodies.now + more) ≤ most → IsTailed more most format bodies.now
        → IsOther D.Disk most stood disk.old
        → Checkpointed D.Disk result.0 most format stood bodies.now disk.old disk.new }
    ensures any_moment { D.honest → (most : ℕ) (stood : List (List ℕ))
        → PREAMBLE_BYTES + (records_bytes format bodies.now + more) ≤ most → IsTailed more most format bodies.now
        → IsOther D.Disk most stood disk.old
        → LeavesOnly D.Disk disk.old disk.new (LeavesAny most format stood bodies.now) }
    // Nothing that isn't empty becomes so, at any moment.
    ensures filled { D.honest → NeverEmpty D.Disk disk.old → NeverEmpty D.Disk disk.new }
    ensures filled_meanwhile { D.honest → NeverEmpty D.Disk disk.old → LeavesOnly D.Disk disk.old disk.new HasBytes }
    ensures known { D.honest → known.old ≤ length (D.seen disk.old) → known.new ≤ length (D.seen disk.new) }
    ensures shortens { Shortens keep known.old known.new }
    ensures cut { D.honest → D.shortens → result.0 ≡ Appended.Kept → IsCut keep known.old (D.seen disk.new) }
    ensures reaches { D.honest → result.0 ≡ Appended.Kept
        → PREAMBLE_BYTES + (records_bytes format bodies.now + more) ≤ length (D.seen disk.new) }
    ensures cleared { D.honest → result.0 ≡ Appended.Kept
        → take (LENGTH_BYTES + more) (behind_text format bodies.now (D.seen disk.new))
        ≡ replicate (LENGTH_BYTES + more) 0 }
    ensures cause { HasCause result.0 (D.failures disk.old) (D.failures disk.new) }
    ensures calls { CheckpointCalls result.0 (length bodies.now) (D.counts disk.old) (D.counts disk.new) }
    ensures not_full { result.0 ≢ Appended.Full }
{
    match put_front(disk, format) {
        Ok(()) => {}
        Err(_) => return (Appended::Refused, [0; DIGEST_BYTES]),
    }
    *known = shorten(disk, keep, *known);
    match put_records(disk, format, buffer, bodies, more) {
        Ok(digest) => {
            let outcome = put_seal(disk, bodies[0].len() as u32);
            (outcome, digest)
        }
        Err(_) => (Appended::Refused, [0; DIGEST_BYTES]),
    }
}

/// Where a log of these bodies ends in a format that takes each of them, if it fits into `most` bytes with its closing
/// length.
pub fn end_of(format: Format, bodies: &[SharedBytes], most: u64) -> Option<u64>
    requires sizes { AllByRecursion (IsBody format) bodies.now }
    ensures some { IfSome result
        (λ end. (end ≡ length (text format bodies.now)) × (end + LENGTH_BYTES ≤ most)) }
    ensures none { IfNone result (most < length (text format bodies.now) + LENGTH_BYTES) }
{
    let mut left = most.checked_sub(format.preamble().len() as u64)?;
    for body in bodies {
        left = left.checked_sub(AROUND_BODY as u64 + body.len() as u64)?;
    }
    Some(most - left - LENGTH_BYTES as u64)
}

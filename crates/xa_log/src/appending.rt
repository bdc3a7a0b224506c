//! How a record goes to the disk.
ghost use Rattle.std.specs.Prelude.{◌≡◌, ◌≢◌, ℕ, ◌+◌, ◌-◌, ◌≤◌, List, length, take, IsErr, Ok, OnOk, OnErr, MatchResult};
ghost use Rattle.xa_disk.specs.Counts.{with_sync};
ghost use Rattle.xa_disk.specs.Disk.{put, Torn, Same, Only, CountsFault};
ghost use Rattle.xa_disk.specs.Time.{TimePasses};
ghost use Rattle.std.specs.List.{AllByRecursion};
ghost use Rattle.xa_log.specs.Believed.Chain.{last};
ghost use Rattle.xa_log.specs.Believed.Group.{bodies_in, closed, closed_by, group_bytes};
ghost use Rattle.xa_log.specs.Answers.{PutBecame, Wrote, PutAheadBecame, FailedPut, FailedPutAhead, HasCause, LeftWritten};
ghost use Rattle.xa_log.specs.Calls.{PutCalls, WritesAhead, AppendCalls, AppendsAhead, SettlesBy};

use crate::group::Group;
use crate::record::clear;
use xa_disk::{Disk, DiskFault, SyncAnswer};
use xa_limits::{DIGEST_BYTES, LENGTH_BYTES, MOST_BODY};

/// What became of a record, or of a checkpoint.
#[derive(Clone, Copy, Debug, PartialEq, Eq)]
pub enum Appended {
    /// It stands, and survives a crash.
    Kept,
    /// A device call failed, and what was begun is cleared or doesn't count: the log is as before.
    Refused,
    /// A device call failed, and so did the repair: whether it stands, a rescan that succeeds will show, or an
    /// opening.
    Lost,
    /// It doesn't fit. Nothing changed.
    Full,
}

// Writes and syncs.
pub(crate) fn put_synced<D: Disk>(disk: &mut D, at: u64, bytes: &[u8]) -> Result<(), DiskFault>
    requires { 1 ≤ length bytes.now }
    ensures written { D.honest → OnOk result (D.seen disk.new ≡ put (D.seen disk.old) at bytes.now) }
    ensures durable { D.honest → OnOk result (Only (D.seen disk.new) (D.may_leave disk.new)) }
    ensures failed { D.honest → OnErr result (Torn at (length bytes.now) (D.seen disk.old) (D.seen disk.new)) }
    ensures fell { D.honest → OnErr result (FailedPut D.tears (D.seen disk.old) at bytes.now (D.seen disk.new)) }
    ensures time { D.honest → TimePasses D.Disk (Torn at (length bytes.now)) disk.old disk.new }
    ensures count { CountsFault result (D.failures disk.old) (D.failures disk.new) }
    ensures calls { PutCalls result (D.counts disk.old) (D.counts disk.new) }
{
    disk.write_at(at, bytes)?;
    disk.sync()
}

// Writes the bytes. If that fails and only the first `len` count, writes these alone: there may be no space for
// the rest.
fn write_ahead<D: Disk>(disk: &mut D, at: u64, bytes: &[u8], len: usize) -> Result<(), DiskFault>
    requires some { 1 ≤ len }
    requires within { len ≤ length bytes.now }
    ensures written { D.honest → OnOk result (Wrote D.Disk at (take len bytes.now) bytes.now disk.old disk.new) }
    ensures fell { D.honest
        → OnErr result (FailedPutAhead D.tears (D.seen disk.old) at (take len bytes.now) bytes.now (D.seen disk.new)) }
    ensures time { D.honest → TimePasses D.Disk (Torn at (length bytes.now)) disk.old disk.new }
    ensures calls { WritesAhead (length bytes.now - len) result
        (D.failures disk.old) (D.failures disk.new) (D.counts disk.old) (D.counts disk.new) }
{
    match disk.write_at(at, bytes) {
        Ok(()) => return Ok(()),
        Err(fault) => {
            if len == bytes.len() {
                return Err(fault);
            }
        }
    }
    disk.write_at(at, &bytes[..len])
}

// Makes the sync of what `write_ahead` wrote, or takes the answer of one that was made meanwhile. If that fails, or the write
// has failed, writes zeros over the first `len` bytes of it and syncs. A sync that fails is never retried. Clearing the
// length alone isn't enough: a refused body and its digest would still lie there, and chain again once a later record of
// the same length is torn after its length. What goes after these bytes needs no clearing, and no space for it. A disk
// that syncs no more after a failed sync, like `FileDisk`, so comes to `Lost` there, and then a rescan fails too: only the
// reopened files tell what stands.
pub(crate) fn settle_at<D: Disk>(
    disk: &mut D,
    at: u64,
    bytes: &mut [u8],
    len: usize,
    write: Result<(), DiskFault>,
    answer: SyncAnswer,
) -> Appended
    requires some { 1 ≤ len }
    requires within { len ≤ length bytes.old }
    // from the disk before the write on
    ensures went { D.honest → (before : D) (few all : List ℕ) → length few ≡ len → length few ≤ length all
        → LeftWritten D.Disk write at few all before disk.old
        → PutAheadBecame D.Disk result at few all before disk.new }
    ensures time { D.honest → (before : D) (n : ℕ) → len ≤ n → TimePasses D.Disk (Torn at n) before disk.old
        → TimePasses D.Disk (Torn at n) before disk.new }
    ensures calls { (before : D) (more : ℕ)
        → WritesAhead more write (D.failures before) (D.failures disk.old) (D.counts before) (D.counts disk.old)
        → AppendsAhead more result (D.failures before) (D.failures disk.new) (D.counts before) (D.counts disk.new) }
    ensures not_full { result ≢ Appended.Full }
    ensures fails { SettlesBy write result (D.failures disk.old) (D.failures disk.new) }
{
    match synced_by(disk, write, answer) {
        Ok(()) => return Appended::Kept,
        Err(_) => {}
    }
    clear(bytes, 0, len);
    match put_synced(disk, at, &bytes[..len]) {
        Ok(()) => Appended::Refused,
        Err(_) => Appended::Lost,
    }
}

// The sync after a write, if that succeeded.
fn synced_by<D: Disk>(
    disk: &mut D,
    write: Result<(), DiskFault>,
    answer: SyncAnswer,
) -> Result<(), DiskFault>
    ensures durable { D.honest → OnOk result (Only (D.seen disk.new) (D.may_leave disk.new)) }
    ensures same { D.honest → D.seen disk.new ≡ D.seen disk.old }
    ensures time { D.honest → TimePasses D.Disk Same disk.old disk.new }
    ensures written { OnOk result (write ≡ Ok tt) }
    ensures calls { MatchResult write
        (λ _. CountsFault result (D.failures disk.old) (D.failures disk.new) × (D.counts disk.new ≡ with_sync (D.counts disk.old)))
        (λ _. IsErr result × (D.failures disk.new ≡ D.failures disk.old) × (D.counts disk.new ≡ D.counts disk.old)) }
{
    match write {
        Ok(()) => disk.take_sync(answer),
        Err(fault) => {
            disk.leave_sync(answer);
            Err(fault)
        }
    }
}

// Writes the bytes and syncs. If that fails, clears the first `len`, the only ones that count.
pub(crate) fn put_ahead_or_clear<D: Disk>(
    disk: &mut D,
    at: u64,
    bytes: &mut [u8],
    len: usize,
) -> Appended
    requires some { 1 ≤ len }
    requires within { len ≤ length bytes.old }
    ensures went { D.honest → PutAheadBecame D.Disk result at (take len bytes.old) bytes.old disk.old disk.new }
    ensures time { D.honest → TimePasses D.Disk (Torn at (length bytes.old)) disk.old disk.new }
    ensures calls { AppendsAhead (length bytes.old - len) result
        (D.failures disk.old) (D.failures disk.new) (D.counts disk.old) (D.counts disk.new) }
    ensures not_full { result ≢ Appended.Full }
{
    let write = write_ahead(disk, at, bytes, len);
    settle_at(disk, at, bytes, len, write, SyncAnswer::none())
}

// The same if all the bytes count.
pub(crate) fn put_or_clear<D: Disk>(disk: &mut D, at: u64, bytes: &mut [u8]) -> Appended
    requires { 1 ≤ length bytes.old }
    ensures went { D.honest
        → PutBecame D.tears result at bytes.old (D.seen disk.old) (D.seen disk.new) (D.may_leave disk.new) }
    ensures time { D.honest → TimePasses D.Disk (Torn at (length bytes.old)) disk.old disk.new }
    ensures cause { HasCause result (D.failures disk.old) (D.failures disk.new) }
    ensures calls { AppendCalls result (D.counts disk.old) (D.counts disk.new) }
    ensures not_full { result ≢ Appended.Full }
{
    let len = bytes.len();
    put_ahead_or_clear(disk, at, bytes, len)
}

// Writes a group's records, and returns the write's answer and the last record's digest. The closing length goes in the same
// write, and so do the zeros that make the file ready: an append is one write and one sync, and what stands after it isn't
// read as a record. The zeros are for speed alone, so the records count even if they don't fit.
pub(crate) fn write_group_at<D: Disk>(
    disk: &mut D,
    at: u64,
    prev: &[u8; DIGEST_BYTES],
    buffer: &mut [u8],
    group: Group<'_>,
    len: usize,
    ready: usize,
) -> (Result<(), DiskFault>, [u8; DIGEST_BYTES])
    requires len { len ≡ group_bytes (bodies_in group) + LENGTH_BYTES }
    requires room { len + ready ≤ length buffer.old }
    requires small { AllByRecursion (λ body. length body ≤ MOST_BODY) (bodies_in group) }
    ensures digest { result.1 ≡ last prev.now (bodies_in group.entry) }
    ensures went { D.honest
        → LeftWritten D.Disk result.0 at (closed prev.now (bodies_in group.entry))
        (closed_by ready prev.now (bodies_in group.entry)) disk.old disk.new }
    ensures time { D.honest
        → TimePasses D.Disk (Torn at (length (closed_by ready prev.now (bodies_in group.entry)))) disk.old disk.new }
    ensures calls { WritesAhead ready result.0
        (D.failures disk.old) (D.failures disk.new) (D.counts disk.old) (D.counts disk.new) }
{
    let digest = group.encode(buffer, prev);
    clear(buffer, len, ready);
    let write = write_ahead(disk, at, &buffer[..len + ready], len);
    (write, digest)
}

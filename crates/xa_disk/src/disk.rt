ghost use Rattle.std.specs.Prelude.{◌≡◌, ◌≤◌, List, ℕ, length, IfOk, IsErr, OnOk, OnErr, true, take, if◌then◌else◌};
ghost use Rattle.xa_disk.specs.Counts.{with_length, with_read, with_write, with_sync};
ghost use Rattle.xa_disk.specs.declared.counts.Counts.{Counts};
ghost use Rattle.xa_disk.specs.Disk.{put, Torn, Cut, Same, Only, Passes, CountsFault, Reads};
ghost use Rattle.xa_disk.specs.Syncs.{HasFailed};
ghost use Rattle.xa_disk.specs.declared.syncer.Syncer.{Syncer};

use crate::syncer::{SyncAnswer, Syncer};
use thiserror::Error;

/// A device call that failed.
#[derive(Clone, Copy, Debug, PartialEq, Eq, Error)]
#[error("device fault")]
pub struct DiskFault;

/// A disk that may lose, at a crash, what no sync has made stable.
///
/// Between two syncs each range that was written, and the part past the old end, may hold any bytes after a
/// crash; bytes outside of them stay, and nothing reaches past the old end and the written ranges. A sync that
/// succeeds leaves what a read gives. A write that fails may have changed any bytes of its range and of a gap
/// before it; a sync that fails may have made any part stable; a read or a length that fails changes nothing.
///
/// The ghost members are what these words speak of. If `honest` doesn't hold of a type, its clauses promise
/// only the counts of calls and of failures.
pub trait Disk {
    /// The clauses on values hold of this type of disk.
    ghost honest: { Type 0 };

    /// What a read gives.
    ghost seen: { Self → List ℕ };

    /// What a crash now may leave.
    ghost may_leave: { Self → List ℕ → Type 0 };

    /// The moment, as a number that doesn't fall.
    ghost moment: { Self → ℕ };

    /// What a crash at some moment from that one on may have left.
    ghost left_since: { Self → ℕ → List ℕ → Type 0 };

    /// What a write of these bytes at this offset that fails may leave to a read, from what a read gave before.
    ghost tears: { List ℕ → ℕ → List ℕ → List ℕ → Type 0 };

    /// How many calls have failed. Each fault adds one, and nothing else does; at 2^64 - 1 it stops.
    ghost failures: { Self → ℕ };

    /// How many calls were made, failed or not. Each call adds itself, and nothing else does.
    ghost counts: { Self → Counts };

    /// Each disk of this type cuts its file if it is asked to.
    ghost shortens: { Type 0 };

    /// How many bytes a read can give.
    fn length(&mut self) -> Result<u64, DiskFault>
        ensures value { honest → IfOk result (λ n. n ≡ length (seen self.old)) }
        ensures same { honest → seen self.new ≡ seen self.old }
        ensures time { honest → Passes Same (moment self.old) (moment self.new)
            (left_since self.old) (left_since self.new) (may_leave self.old) (may_leave self.new) }
        ensures calls { counts self.new ≡ with_length (counts self.old) }
        ensures count { CountsFault result (failures self.old) (failures self.new) };

    /// Fills `into`, of one byte at least, with the bytes from an offset on. A read past the length is a fault.
    fn read_at(&mut self, at: u64, into: &mut [u8]) -> Result<(), DiskFault>
        requires { 1 ≤ length into.old }
        ensures value { honest → OnOk result (Reads (seen self.old) at into.new) }
        ensures same { honest → seen self.new ≡ seen self.old }
        ensures time { honest → Passes Same (moment self.old) (moment self.new)
            (left_since self.old) (left_since self.new) (may_leave self.old) (may_leave self.new) }
        ensures calls { counts self.new ≡ with_read (length into.old) (counts self.old) }
        ensures count { CountsFault result (failures self.old) (failures self.new) };

    /// Writes one byte or more over what is there, and past the end; a gap before the offset is filled with zeros.
    /// Until a sync, a crash may leave any bytes in the range and past the old end.
    fn write_at(&mut self, at: u64, from: &[u8]) -> Result<(), DiskFault>
        requires { 1 ≤ length from.now }
        ensures written { honest → OnOk result (seen self.new ≡ put (seen self.old) at from.now) }
        ensures failed { honest → OnErr result (tears (seen self.old) at from.now (seen self.new)) }
        ensures time { honest → Passes (Torn at (length from.now)) (moment self.old) (moment self.new)
            (left_since self.old) (left_since self.new) (may_leave self.old) (may_leave self.new) }
        ensures calls { counts self.new ≡ with_write (counts self.old) }
        ensures count { CountsFault result (failures self.old) (failures self.new) };

    /// Makes what a read gives what a crash leaves.
    fn sync(&mut self) -> Result<(), DiskFault>
        ensures durable { honest → OnOk result (Only (seen self.old) (may_leave self.new)) }
        ensures same { honest → seen self.new ≡ seen self.old }
        ensures time { honest → Passes Same (moment self.old) (moment self.new)
            (left_since self.old) (left_since self.new) (may_leave self.old) (may_leave self.new) }
        ensures calls { counts self.new ≡ with_sync (counts self.old) }
        ensures count { CountsFault result (failures self.old) (failures self.new) };

    /// May cut what a read gives to `to` bytes, or leave it as it is: returns whether it did. Until a sync, a crash may
    /// leave either, or a length between. It is no device call, and no failure if it isn't done.
    fn shorten(&mut self, to: u64) -> bool
        ensures cut { honest → seen self.new ≡ (if result then take to (seen self.old) else seen self.old) }
        ensures time { honest → Passes (Cut to) (moment self.old) (moment self.new)
            (left_since self.old) (left_since self.new) (may_leave self.old) (may_leave self.new) }
        ensures asked { shortens → result ≡ true }
        ensures calls { counts self.new ≡ counts self.old }
        ensures count { failures self.new ≡ failures self.old };

    /// What makes the sync of this disk that is due.
    ghost its_syncer: { Self → Syncer → Type 0 };

    /// What makes the next sync while others use the disk.
    fn syncer(&self) -> Syncer
        ensures { its_syncer self.now result };

    /// Takes what a syncer of this disk was answered: as `sync`, which it makes itself if that isn't a sync of all that
    /// was written. A sync that failed is one that fails here, whenever it was made and of whichever disk.
    fn take_sync(&mut self, answer: SyncAnswer) -> Result<(), DiskFault>
        ensures durable { honest → OnOk result (Only (seen self.old) (may_leave self.new)) }
        ensures same { honest → seen self.new ≡ seen self.old }
        ensures time { honest → Passes Same (moment self.old) (moment self.new)
            (left_since self.old) (left_since self.new) (may_leave self.old) (may_leave self.new) }
        ensures calls { counts self.new ≡ with_sync (counts self.old) }
        ensures count { CountsFault result (failures self.old) (failures self.new) }
        ensures failed { HasFailed answer → IsErr result };

    /// Takes what a syncer of this disk was answered, if its sync is no call of the disk: if it were lost, an error of it
    /// would be lost, too. Nothing else changes.
    fn leave_sync(&mut self, answer: SyncAnswer)
        ensures same { honest → seen self.new ≡ seen self.old }
        ensures time { honest → Passes Same (moment self.old) (moment self.new)
            (left_since self.old) (left_since self.new) (may_leave self.old) (may_leave self.new) }
        ensures calls { counts self.new ≡ counts self.old }
        ensures count { failures self.new ≡ failures self.old };

    /// Law: this moment is one of those since an earlier one.
    ghost counts_now: { (disk : Self) (t : ℕ) (c : List ℕ) → t ≤ moment disk → may_leave disk c → left_since disk t c };

    /// Law: since this moment there is no other.
    ghost only_now: { (disk : Self) (c : List ℕ) → left_since disk (moment disk) c → may_leave disk c };

    /// Law: a write that fails changes no byte outside its range and the gap before it.
    ghost tears_torn: { (old : List ℕ) (at : ℕ) (bytes new : List ℕ) → tears old at bytes new
        → Torn at (length bytes) old new };

    /// Law: a crash may leave what a read gives.
    ghost seen_may_stay: { (disk : Self) → may_leave disk (seen disk) };
}

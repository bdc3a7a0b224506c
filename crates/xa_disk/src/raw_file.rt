use crate::file_id::FileId;
use crate::shared_file::HostHandle;
use crate::told::Told;
use std::io;

/// The calls of the system on one open file that a disk is made of: each is made once, with these arguments.
///
/// The ghost members are those of `Disk`, and the clauses on values say of a file what `Disk` says of a disk, if
/// `honest` holds of the type. `calls` is the record of the calls, if `recorded` holds of the type.
///
/// A sync that fails may have made the system give up what it should have written, and report that this once: reads may then give
/// what was there before or what was written, each byte its own, and a sync that succeeds says nothing of it. So of a file
/// of which a sync has failed no clause says what is read, nor what a sync has made durable.
pub trait RawFile {
    ghost use Rattle.std.specs.Prelude.{◌≡◌, ◌≤◌, ◌∷◌, Bool, true, List, ℕ, length, IfOk, IfSome, OnOk, OnErr, take, if◌then◌else◌};
    ghost use Rattle.xa_disk.specs.Counts.{plus};
    ghost use Rattle.xa_disk.specs.Disk.{put, Torn, Cut, Same, Only, Passes, Reads};
    ghost use Rattle.xa_disk.specs.RawCall.{RawCall, Measures, Gets, Puts, Cuts, Syncs, Takes};
    ghost use Rattle.xa_disk.specs.Syncs.{IsDue};
    ghost use Rattle.xa_disk.specs.declared.file_id.FileId.{FileId};

    /// The clauses on values hold of this type of file.
    ghost honest: { Type 0 };

    /// What a read gives. Once a sync has failed, no read tells of it: then it is what was written.
    ghost seen: { Self → List ℕ };

    /// No sync of it has failed.
    ghost is_whole: { Self → Bool };

    /// What a crash now may leave.
    ghost may_leave: { Self → List ℕ → Type 0 };

    /// The moment, as a number that doesn't fall.
    ghost moment: { Self → ℕ };

    /// What a crash at some moment from that one on may have left.
    ghost left_since: { Self → ℕ → List ℕ → Type 0 };

    /// What a write of these bytes at this offset that fails may leave to a read, from what a read gave before.
    ghost tears: { List ℕ → ℕ → List ℕ → List ℕ → Type 0 };

    /// The record of calls holds of this type of file.
    ghost recorded: { Type 0 };

    /// Each call that was made, failed or not, the newest first.
    ghost calls: { Self → List RawCall };

    /// Which file it is.
    ghost file: { Self → FileId };

    /// Each file of this type is cut if that is asked of it.
    ghost shortens: { Type 0 };

    /// How many writes and cuts were asked for, done or not; it stops at 2^64 - 1.
    ghost written: { Self → ℕ };

    fn id(&self) -> FileId
        ensures { result ≡ file self.now };

    fn writes(&self) -> u64
        ensures { result ≡ written self.now };

    /// How many bytes a read can give.
    fn length(&mut self) -> io::Result<u64>
        ensures value { honest → is_whole self.old ≡ true → IfOk result (λ n. n ≡ length (seen self.old)) }
        ensures same { honest → seen self.new ≡ seen self.old }
        ensures time { honest → Passes Same (moment self.old) (moment self.new)
            (left_since self.old) (left_since self.new) (may_leave self.old) (may_leave self.new) }
        ensures called { recorded → calls self.new ≡ Measures ∷ calls self.old }
        ensures whole { is_whole self.old ≡ true → is_whole self.new ≡ true }
        ensures file { (file self.new ≡ file self.old) × (written self.new ≡ written self.old) };

    /// Fills `into` with the bytes from an offset on. A read past the length is an error.
    fn read_at(&mut self, at: u64, into: &mut [u8]) -> io::Result<()>
        requires { 1 ≤ length into.old }
        ensures value { honest → is_whole self.old ≡ true → OnOk result (Reads (seen self.old) at into.new) }
        ensures same { honest → seen self.new ≡ seen self.old }
        ensures time { honest → Passes Same (moment self.old) (moment self.new)
            (left_since self.old) (left_since self.new) (may_leave self.old) (may_leave self.new) }
        ensures called { recorded → calls self.new ≡ Gets at (length into.old) ∷ calls self.old }
        ensures whole { is_whole self.old ≡ true → is_whole self.new ≡ true }
        ensures file { (file self.new ≡ file self.old) × (written self.new ≡ written self.old) };

    /// Writes over what is there, and past the end; a gap before the offset is filled with zeros.
    fn write_at(&mut self, at: u64, from: &[u8]) -> io::Result<()>
        requires { 1 ≤ length from.now }
        ensures written { honest → OnOk result (seen self.new ≡ put (seen self.old) at from.now) }
        ensures failed { honest → OnErr result (tears (seen self.old) at from.now (seen self.new)) }
        ensures time { honest → Passes (Torn at (length from.now)) (moment self.old) (moment self.new)
            (left_since self.old) (left_since self.new) (may_leave self.old) (may_leave self.new) }
        ensures called { recorded → calls self.new ≡ Puts at from.now ∷ calls self.old }
        ensures whole { is_whole self.old ≡ true → is_whole self.new ≡ true }
        ensures file { (file self.new ≡ file self.old) × (written self.new ≡ plus (written self.old) 1) };

    /// Cuts the file to `to` bytes, or leaves it, for example if it has no more: whether it was cut. Until a sync, a
    /// crash may leave either, or a length between.
    fn shorten(&mut self, to: u64) -> bool
        ensures cut { honest → seen self.new ≡ (if result then take to (seen self.old) else seen self.old) }
        ensures time { honest → Passes (Cut to) (moment self.old) (moment self.new)
            (left_since self.old) (left_since self.new) (may_leave self.old) (may_leave self.new) }
        ensures asked { shortens → result ≡ true }
        ensures called { recorded → calls self.new ≡ Cuts to ∷ calls self.old }
        ensures whole { is_whole self.old ≡ true → is_whole self.new ≡ true }
        ensures file { (file self.new ≡ file self.old) × (written self.new ≡ plus (written self.old) 1) };

    /// Makes what a read gives what a crash leaves.
    fn sync(&mut self) -> io::Result<()>
        ensures durable { honest → is_whole self.old ≡ true → OnOk result (Only (seen self.old) (may_leave self.new)) }
        ensures same { honest → seen self.new ≡ seen self.old }
        ensures time { honest → Passes Same (moment self.old) (moment self.new)
            (left_since self.old) (left_since self.new) (may_leave self.old) (may_leave self.new) }
        ensures called { recorded → calls self.new ≡ Syncs ∷ calls self.old }
        ensures whole { is_whole self.old ≡ true → OnOk result (is_whole self.new ≡ true) }
        ensures file { (file self.new ≡ file self.old) × (written self.new ≡ written self.old) };

    /// A handle of this file, for a sync while others use it; None if its syncs are made here alone.
    fn handle(&self) -> Option<HostHandle>
        ensures { IfSome result (λ handle. handle.id ≡ file self.now) };

    /// Takes the answer of a sync by a handle of this file, made after the last write: as `sync`.
    fn take_sync(&mut self, told: Told) -> io::Result<()>
        requires { IsDue told (file self.old) (written self.old) }
        ensures is { result ≡ told.answer }
        ensures durable { honest → is_whole self.old ≡ true → OnOk result (Only (seen self.old) (may_leave self.new)) }
        ensures same { honest → seen self.new ≡ seen self.old }
        ensures time { honest → Passes Same (moment self.old) (moment self.new)
            (left_since self.old) (left_since self.new) (may_leave self.old) (may_leave self.new) }
        ensures called { recorded → calls self.new ≡ Takes ∷ calls self.old }
        ensures whole { is_whole self.old ≡ true → OnOk result (is_whole self.new ≡ true) }
        ensures file { (file self.new ≡ file self.old) × (written self.new ≡ written self.old) };

    /// Law: this moment is one of those since an earlier one.
    ghost counts_now: { (file : Self) (t : ℕ) (c : List ℕ) → t ≤ moment file → may_leave file c → left_since file t c };

    /// Law: since this moment there is no other.
    ghost only_now: { (file : Self) (c : List ℕ) → left_since file (moment file) c → may_leave file c };

    /// Law: a write that fails changes no byte outside its range and the gap before it.
    ghost tears_torn: { (old : List ℕ) (at : ℕ) (bytes new : List ℕ) → tears old at bytes new
        → Torn at (length bytes) old new };

    /// Law: a crash may leave what a read gives.
    ghost seen_may_stay: { (file : Self) → may_leave file (seen file) };
}

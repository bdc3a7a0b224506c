//! The log on its two disks.
ghost use Rattle.std.specs.Prelude.{◌≡◌, ◌+◌, ◌-◌, ◌≤◌, ◌<◌, ◌↔◌, List, [], ◌∷◌, ℕ, true, false, length};
ghost use Rattle.xa_disk.specs.{Counts.top, Time.LeavesOnly};
ghost use Rattle.std.specs.List.{AllByRecursion};
ghost use Rattle.xa_log.specs.Calls.{CheckpointCalls};
ghost use Rattle.xa_log.specs.Believed.Chain.{newest, format_number, most_body, text, IsBody};
ghost use Rattle.xa_log.specs.Believed.Checkpoint.{HasBytes, NeverEmpty, IsOther, IsQuiet, IsCleared, LeavesAny};
ghost use Rattle.xa_log.specs.{Believed.Pair.generation, Answers.HasCause, Believed.Damage.AreAppended};
ghost use Rattle.xa_limits.specs.declared.TheConstants.{AROUND_CLOSED, MOST_BODY};

use crate::appending::Appended;
use crate::checkpointing::{checkpoint_on, end_of, zeros_behind};
use crate::format::Format;
use crate::generation::generation_of_snapshot;
use crate::group::Group;
use std::marker::Model;
use std::mem;
use xa_disk::Disk;
use xa_limits::{DIGEST_BYTES, LENGTH_BYTES};
use xa_shared::SharedBytes;

/// A log on two disks: the current file has its records, with bodies of at least a byte and no more than its format
/// takes, at most `log_bytes` bytes in all; the other one is where a checkpoint goes.
#[derive(Debug, Drop)]
pub struct Log<D> {
    // The current file's disk and the other one's, and whether the current one is the first of the two.
    pub(crate) disk: D,
    pub(crate) other: D,
    pub(crate) on_first: bool,
    // That of the current file.
    pub(crate) format: Format,
    pub(crate) log_bytes: u64,
    // Where the next record begins, and the digest of the one before it.
    pub(crate) end: u64,
    pub(crate) digest: [u8; DIGEST_BYTES],
    // The number in the current file's first body, 0 if it has no record.
    pub(crate) generation: usize,
    // How far the current file and the other one are known to reach: they were measured, or written up to there since.
    pub(crate) known: u64,
    pub(crate) other_known: u64,
    // Its front is the window when the log is read, and a record's bytes when one is appended. It grows to the longest
    // record that `reserve` was called for, and so at most to the longest that there is, with the zeros after it.
    pub(crate) buffer: Vec<u8>,
    // An append or a checkpoint was lost, and no rescan has succeeded since: whether the last record stands, or which
    // file the next opening takes, isn't known, and a record that went to the wrong one would be passed over.
    pub(crate) lost: bool,
}

impl<D> Model for Log<D> {
    ghost use Rattle.xa_log.specs.Believed.LogView.{LogView};

    ghost Value = { LogView D };

    ghost use Rattle.xa_log.specs.LogFields.{shown, IsSized};

    ghost view = { shown };

    ghost invariant = { IsSized };
}

impl<D: Disk> Log<D> {
    ghost use Rattle.xa_log.specs.Ahead.{Writes, AppendsBy, IsCut, IsKnown};
    ghost use Rattle.xa_log.specs.Buffer.{Holds, HoldsEach, KeepsRoom};
    ghost use Rattle.xa_log.specs.Believed.Stands.{Stands, Leaves, Moves, Renumbers, Answers};
    ghost use Rattle.xa_log.specs.Believed.TwoFiles.{Pair, AppendsTo, Checkpoints, Swaps, kept_end, written};

    /// Adds a record of a body that the current file's format takes: the group of one (`append_group`), so one write and
    /// one sync if nothing fails. Takes no memory: there is room for a body of up to `MOST_BODY_OF_ONE` bytes, and for
    /// a longer one after a `reserve`. After `Lost`, its own or a checkpoint's, every append returns that, and asks
    /// nothing of the disk, until a rescan succeeds.
    pub fn append(&mut self, body: &[u8]) -> Appended
        requires body { IsBody self.old.format body.now }
        requires holds { Holds self.old (length body.now) }
        ensures answer { D.honest → (bodies : List (List ℕ)) → Stands D.Disk bodies self.old
            → AreAppended bodies (body.now ∷ []) → Answers D.Disk result bodies (body.now ∷ []) self.new }
        // A crash at any moment of the call leaves a log; without chance, of the bodies with the new one or without.
        ensures any_moment { D.honest → (bodies : List (List ℕ)) → Stands D.Disk bodies self.old
            → LeavesOnly D.Disk self.old.disk self.new.disk
            (Leaves self.old.log_bytes self.old.format bodies (body.now ∷ [])) }
        ensures lost { self.old.lost ≡ true → (result ≡ Appended.Lost) × (self.new ≡ self.old) }
        ensures full { self.old.lost ≡ false
            → (result ≡ Appended.Full) ↔ (self.old.log_bytes < self.old.end + AROUND_CLOSED + length body.now) }
        ensures unchanged { result ≡ Appended.Full → self.new ≡ self.old }
        ensures moves { Moves result (length body.now) self.old self.new }
        ensures numbers { Renumbers result body.now self.old self.new }
        ensures calls { self.old.lost ≡ false → AppendsBy D.Disk (length body.now) result self.old self.new }
        ensures kept { self.old.lost ≡ false → self.old.end + AROUND_CLOSED + length body.now ≤ self.old.log_bytes
            → D.failures self.old.disk < top → D.failures self.new.disk ≡ D.failures self.old.disk
            → result ≡ Appended.Kept }
        ensures settings { self.new.log_bytes ≡ self.old.log_bytes }
        ensures other { (self.new.other ≡ self.old.other) × (self.new.on_first ≡ self.old.on_first) }
        // The other file needs no look: what was said of the two stays.
        ensures pair { D.honest → (bodies stood : List (List ℕ)) → Pair D.Disk bodies stood self.old
            → AreAppended bodies (body.now ∷ []) → AppendsTo D.Disk result bodies (body.now ∷ []) stood self.new }
        ensures writes { D.honest → result ≡ Appended.Kept → Writes D.Disk (body.now ∷ []) self.old self.new }
        ensures known { D.honest → IsKnown D.Disk self.old → IsKnown D.Disk self.new }
        ensures room { KeepsRoom self.old self.new }
    {
        self.append_group(Group::One(body))
    }

    /// Where the next record begins.
    pub fn end(&self) -> u64
        ensures { result ≡ self.now.end }
    {
        self.end
    }

    /// The generation of the log: the number in its first body, 0 if it has no record.
    pub fn generation(&self) -> usize
        ensures { result ≡ self.now.generation }
    {
        self.generation
    }

    /// The number of the current file's format: 1 or 2.
    pub fn format(&self) -> u8
        ensures { result ≡ format_number self.now.format }
    {
        self.format.number()
    }

    /// The most bytes of a body that the current file's format takes.
    pub fn most_body(&self) -> usize
        ensures exact { result ≡ most_body self.now.format }
        ensures bounded { result ≤ MOST_BODY }
    {
        self.format.most_body()
    }

    /// How many bytes are left for records: `log_bytes` less the log with its closing length, or 0.
    pub fn free(&self) -> u64
        ensures { result ≡ self.now.log_bytes - (self.now.end + LENGTH_BYTES) }
    {
        (self.log_bytes - self.end).saturating_sub(LENGTH_BYTES as u64)
    }

    /// Writes a log of these bodies, each of which the newest format takes, to the other file, in that format. Their
    /// generation is above the log's: an opening takes the file with the greater one, nothing else is written to say
    /// which is current, and the old log stays where it is. After the last record go `CLEARED_BYTES` zeros, or as many
    /// as the limit leaves room for. A file that is known to reach more than `SPARE_BYTES` beyond what they take, and beyond the
    /// end of the log that they replace, is cut, if its disk does that. `Kept`: that file is the current one from then on.
    /// `Refused`: the current file stays in use. `Full`: they don't fit, with a closing length. If nothing fails: a
    /// write and a sync, a write per record and a sync, a write and a sync. Takes no memory, as an append does. After
    /// `Lost`, its own or an append's, every checkpoint returns that, and asks nothing of the disks, until a rescan
    /// succeeds.
    pub fn checkpoint(&mut self, bodies: &[SharedBytes]) -> Appended
        requires some { 1 ≤ length bodies.now }
        requires sizes { AllByRecursion (IsBody newest) bodies.now }
        requires holds { HoldsEach self.old bodies.now }
        requires above { self.old.generation < generation bodies.now }
        ensures answer { D.honest → (old stood : List (List ℕ)) → Pair D.Disk old stood self.old
            → Checkpoints D.Disk result old stood bodies.now self.new }
        // Whatever has stood in the other file: its records are gone.
        ensures replaces { D.honest → (old stood : List (List ℕ)) → Stands D.Disk old self.old
            → IsOther D.Disk self.old.log_bytes stood self.old.other → result ≡ Appended.Kept
            → Pair D.Disk bodies.now old self.new × IsQuiet D.Disk old self.new.other }
        // What a crash at any moment of the call leaves of the file that is written.
        ensures any_moment { D.honest → (old stood : List (List ℕ)) → Pair D.Disk old stood self.old
            → LeavesOnly D.Disk self.old.other (written result self.new)
            (LeavesAny self.old.log_bytes newest stood bodies.now) }
        // If that file isn't empty, no crash leaves it so, at any moment.
        ensures filled { D.honest → NeverEmpty D.Disk self.old.other → NeverEmpty D.Disk (written result self.new) }
        ensures filled_meanwhile { D.honest → NeverEmpty D.Disk self.old.other
            → LeavesOnly D.Disk self.old.other (written result self.new) HasBytes }
        // Whichever length an append then leaves alone after its records brings back nothing that stood there.
        ensures cleared { D.honest → result ≡ Appended.Kept → self.old.lost ≡ false
            → IsCleared self.new.log_bytes newest bodies.now (D.seen self.new.disk) }
        ensures cut { D.honest → D.shortens → result ≡ Appended.Kept → self.old.lost ≡ false
            → IsCut (kept_end bodies.now self.old) self.old.other_known (D.seen self.new.disk) }
        ensures swaps { self.old.lost ≡ false → Swaps result bodies.now self.old self.new }
        ensures lost { self.old.lost ≡ true → (result ≡ Appended.Lost) × (self.new ≡ self.old) }
        ensures full { self.old.lost ≡ false
            → (result ≡ Appended.Full)
            ↔ (self.old.log_bytes < length (text newest bodies.now) + LENGTH_BYTES) }
        ensures cause { self.old.lost ≡ false
            → HasCause result (D.failures self.old.other) (D.failures (written result self.new)) }
        ensures calls { self.old.lost ≡ false
            → CheckpointCalls result (length bodies.now)
            (D.counts self.old.other) (D.counts (written result self.new)) }
        ensures kept { self.old.lost ≡ false
            → length (text newest bodies.now) + LENGTH_BYTES ≤ self.old.log_bytes
            → D.failures self.old.other < top → D.failures (written result self.new) ≡ D.failures self.old.other
            → result ≡ Appended.Kept }
        ensures settings { self.new.log_bytes ≡ self.old.log_bytes }
        ensures known { D.honest → IsKnown D.Disk self.old → IsKnown D.Disk self.new }
        ensures room { KeepsRoom self.old self.new }
    {
        if self.lost {
            return Appended::Lost;
        }
        let format = Format::newest();
        let end = match end_of(format, bodies, self.log_bytes) {
            Some(end) => end,
            None => return Appended::Full,
        };
        let more = zeros_behind(end, self.log_bytes);
        let keep = (end + LENGTH_BYTES as u64).max(self.end);
        let (outcome, digest) = checkpoint_on(
            &mut self.other,
            format,
            &mut self.buffer,
            bodies,
            more,
            keep,
            &mut self.other_known,
        );
        match outcome {
            Appended::Kept => {
                mem::swap(&mut self.disk, &mut self.other);
                self.on_first = !self.on_first;
                self.format = format;
                self.end = end;
                let known = self.other_known.max(end + LENGTH_BYTES as u64);
                self.other_known = self.known;
                self.known = known;
                self.digest = digest;
                self.generation = generation_of_snapshot(bodies);
            }
            Appended::Lost => self.lost = true,
            Appended::Refused | Appended::Full => {}
        }
        outcome
    }
}

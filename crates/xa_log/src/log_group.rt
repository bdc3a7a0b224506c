//! Appending a group: several records by one write and one sync.
ghost use Rattle.std.specs.Prelude.{◌≡◌, ◌≢◌, ◌⊎◌, ◌+◌, ◌≤◌, ◌<◌, ◌↔◌, List, ℕ, true, false, length};
ghost use Rattle.std.specs.Prelude.{IfNone, IfOk, IfSome, OnErr, OnOk, Ok};
ghost use Rattle.std.specs.List.{AllByRecursion};
ghost use Rattle.xa_disk.specs.{Counts.top, Time.LeavesOnly};
ghost use Rattle.xa_limits.specs.declared.TheConstants.{AROUND_CLOSED, MOST_BODY};
ghost use Rattle.xa_log.specs.Calls.{SettlesBy};
ghost use Rattle.xa_log.specs.Ahead.{AppendsBy, IsKnown, Writes};
ghost use Rattle.xa_log.specs.{Buffer.Holds, Buffer.KeepsRoom, Believed.Chain.IsBody, Believed.Damage.AreAppended};
ghost use Rattle.xa_log.specs.Believed.Group.{as_one, bodies_in, first_of_group};
ghost use Rattle.xa_log.specs.{Believed.LogStates.KeepsAll, Believed.LogView.LogView};
ghost use Rattle.xa_log.specs.Believed.Stands.{Answers, Leaves, Moves, Renumbers, Stands, Untouched};
ghost use Rattle.xa_log.specs.Believed.TwoFiles.{AppendsTo, Pair};
ghost use Rattle.xa_log.specs.Written.{AppendsGroup, HasWritten, IsRange, write_of};

use crate::Log;
use crate::ahead::ready_behind;
use crate::appending::{Appended, settle_at, write_group_at};
use crate::generation::generation_with;
use crate::group::Group;
use crate::written::Written;
use std::alloc::AllocError;
use xa_disk::{Disk, SyncAnswer, Syncer};
use xa_limits::{AROUND_CLOSED, LENGTH_BYTES, MOST_BODY};

impl<D: Disk> Log<D> {
    /// Makes room in the log's buffer for a group's records together, as `reserve` does for one of that length. Returns
    /// whether a group may have that many bytes: with its closing length at most as many as the longest record.
    pub fn reserve_group(&mut self, group: Group<'_>) -> Result<bool, AllocError>
        requires some { 1 ≤ length (bodies_in group) }
        ensures holds { OnOk result (result ≡ Ok true → Holds self.new (as_one (bodies_in group.entry))) }
        ensures long { IfOk result (λ may. may ≡ false ↔ (MOST_BODY < as_one (bodies_in group.entry))) }
        ensures room { KeepsRoom self.old self.new }
        ensures refused { OnErr result (self.new ≡ self.old) }
        ensures disks { (self.new.disk ≡ self.old.disk) × (self.new.other ≡ self.old.other) }
        ensures untouched { Untouched self.old self.new }
        ensures state { KeepsAll D.Disk self.old self.new }
    {
        match group.end(0, (AROUND_CLOSED + MOST_BODY) as u64) {
            Some(end) => self.reserve(end as usize - AROUND_CLOSED)?,
            None => return Ok(false),
        }
        Ok(true)
    }

    /// Adds the records of a group, one after the other: one write and one sync if nothing fails; a write that goes on
    /// with zeros, and fails, is followed by one of the records alone. All are kept, or none is, unless the answer is
    /// `Lost`: then some first part of them may stand, and every append returns that, and asks nothing of the disk, until
    /// a rescan succeeds. A crash during the call leaves such a first part too. Takes no memory: there is room for
    /// records as long as that of one body of `MOST_BODY_OF_ONE` bytes, and for longer ones after a `reserve_group`.
    pub fn append_group(&mut self, group: Group<'_>) -> Appended
        requires some { 1 ≤ length (bodies_in group) }
        requires sizes { AllByRecursion (IsBody self.old.format) (bodies_in group) }
        requires holds { Holds self.old (as_one (bodies_in group)) }
        ensures answer { D.honest → (stand : List (List ℕ)) → Stands D.Disk stand self.old
            → AreAppended stand (bodies_in group.entry)
            → Answers D.Disk result stand (bodies_in group.entry) self.new }
        // A crash at any moment of the call leaves a log; without chance, of the bodies and some first part of the new ones.
        ensures any_moment { D.honest → (stand : List (List ℕ)) → Stands D.Disk stand self.old
            → LeavesOnly D.Disk self.old.disk self.new.disk
            (Leaves self.old.log_bytes self.old.format stand (bodies_in group.entry)) }
        ensures lost { self.old.lost ≡ true → (result ≡ Appended.Lost) × (self.new ≡ self.old) }
        ensures full { self.old.lost ≡ false
            → (result ≡ Appended.Full)
            ↔ (self.old.log_bytes < self.old.end + AROUND_CLOSED + as_one (bodies_in group.entry)) }
        ensures unchanged { result ≡ Appended.Full → self.new ≡ self.old }
        ensures moves { Moves result (as_one (bodies_in group.entry)) self.old self.new }
        ensures numbers { Renumbers result (first_of_group (bodies_in group.entry)) self.old self.new }
        ensures calls { self.old.lost ≡ false
            → AppendsBy D.Disk (as_one (bodies_in group.entry)) result self.old self.new }
        ensures kept { self.old.lost ≡ false
            → self.old.end + AROUND_CLOSED + as_one (bodies_in group.entry) ≤ self.old.log_bytes
            → D.failures self.old.disk < top → D.failures self.new.disk ≡ D.failures self.old.disk
            → result ≡ Appended.Kept }
        ensures settings { self.new.log_bytes ≡ self.old.log_bytes }
        ensures other { (self.new.other ≡ self.old.other) × (self.new.on_first ≡ self.old.on_first) }
        // The other file needs no look: what was said of the two stays.
        ensures pair { D.honest → (stand stood : List (List ℕ)) → Pair D.Disk stand stood self.old
            → AreAppended stand (bodies_in group.entry)
            → AppendsTo D.Disk result stand (bodies_in group.entry) stood self.new }
        ensures writes { D.honest → result ≡ Appended.Kept
            → Writes D.Disk (bodies_in group.entry) self.old self.new }
        ensures known { D.honest → IsKnown D.Disk self.old → IsKnown D.Disk self.new }
        ensures room { KeepsRoom self.old self.new }
    {
        if self.lost {
            return Appended::Lost; // Until a rescan, which records stand is unknown.
        }
        match self.write_group(group) {
            Some(written) => self.settle(written, SyncAnswer::none()),
            None => Appended::Full,
        }
    }

    /// Writes the records of a group after the log's end, as `append_group`, and leaves the sync to follow: whoever makes it
    /// (`syncer`) needn't have the log. Until it is settled, every append returns `Lost`. A crash meanwhile leaves what it may
    /// leave during an append. None if an append would return `Full`, or `Lost`: then nothing changed.
    pub fn write_group(&mut self, group: Group<'_>) -> Option<Written>
        requires some { 1 ≤ length (bodies_in group) }
        requires sizes { AllByRecursion (IsBody self.old.format) (bodies_in group) }
        requires holds { Holds self.old (as_one (bodies_in group)) }
        ensures written { IfSome result (λ w. HasWritten D.Disk (bodies_in group.entry) w self.old self.new) }
        ensures none { IfNone result ((self.new ≡ self.old) × ((self.old.lost ≡ true)
            ⊎ (self.old.log_bytes < self.old.end + AROUND_CLOSED + as_one (bodies_in group.entry)))) }
    {
        if self.lost {
            return None;
        }
        let to = group.end(self.end, self.log_bytes)?;
        let ready = ready_behind(self.end, to, self.log_bytes, self.known);
        let (write, digest) = write_group_at(
            &mut self.disk,
            self.end,
            &self.digest,
            &mut self.buffer,
            group,
            (to - self.end) as usize,
            ready,
        );
        self.lost = true;
        Some(Written {
            to,
            digest,
            generation: generation_with(self.generation, self.end, group.first()),
            write,
        })
    }

    /// What makes the sync of a group that was written.
    pub fn syncer(&self) -> Syncer
        ensures { D.its_syncer self.now.disk result }
    {
        self.disk.syncer()
    }

    /// Settles a group that was written, by the sync's answer: it is kept, or zeros go over the whole range: zeros over the
    /// first record alone would leave those after it, which chain again once a later first record of the same length is
    /// torn after its length.
    pub fn settle(&mut self, written: Written, answer: SyncAnswer) -> Appended
        requires { IsRange written self.old }
        // said of the log as it was before the group was written
        ensures group { (before : LogView D) (group : List (List ℕ)) → HasWritten D.Disk group written before self.old
            → AppendsGroup D.Disk group result before self.new }
        ensures not_full { result ≢ Appended.Full }
        ensures fails { SettlesBy (write_of written) result (D.failures self.old.disk) (D.failures self.new.disk) }
    {
        let Written {
            to,
            digest,
            generation,
            write,
        } = written;
        let len = (to - self.end) as usize;
        let outcome = settle_at(
            &mut self.disk,
            self.end,
            &mut self.buffer,
            len,
            write,
            answer,
        );
        match outcome {
            Appended::Kept => {
                self.generation = generation;
                self.end = to - LENGTH_BYTES as u64;
                self.known = self.known.max(to);
                self.digest = digest;
                self.lost = false;
            }
            Appended::Refused => self.lost = false,
            Appended::Lost | Appended::Full => {}
        }
        outcome
    }
}

//! A standby: the copy of a log, as a log.
ghost use Rattle.std.specs.Prelude.{◌≡◌, ◌≤◌, if◌then◌else◌, List, ℕ, IfOk, OnErr, OnOk, length};
ghost use Rattle.std.specs.List.{AllByRecursion};
ghost use Rattle.xa_log.specs.Believed.Chain.{IsBody};
ghost use Rattle.xa_log.specs.Believed.Damage.{AreAppended};
ghost use Rattle.xa_log.specs.Believed.Stands.{Leaves};
ghost use Rattle.xa_log.specs.Believed.TwoFiles.{Pair, first_of, second_of};
ghost use Rattle.xa_log.specs.Reading.{bodies_of};
ghost use Rattle.xa_copy.specs.Standbys.{AppendsBodies, Leaving};

use crate::copied::Copied;
use crate::follow_fault::FollowFault;
use crate::piece::Piece;
use std::alloc::Global;
use xa_disk::Disk;
use xa_log::{Appended, Group, Log};

/// The copy of a log, which follows it: the log on the two disks of the copy, and how far it was copied.
#[derive(Debug, Drop)]
pub struct Standby<D> {
    pub(crate) log: Log<D>,
    pub(crate) copied: Copied,
    pub(crate) log_bytes: u64,
}

impl<D: Disk + Drop> Standby<D> {
    ghost use Rattle.xa_copy.specs.Copies.{Copies};
    ghost use Rattle.xa_copy.specs.Moving.{State};
    ghost use Rattle.xa_copy.specs.Standbys.{IsStandby};

    /// Opens the copy of a log, of at most `log_bytes`, that `copy_log` has just written to these two disks.
    pub fn begin(
        alloc: Global,
        copied: Copied,
        first: D,
        second: D,
        log_bytes: u64,
    ) -> Result<Standby<D>, FollowFault>
        ensures stands { D.honest → (old new old_second new_second : State)
            → (copies : Copies log_bytes old new old_second new_second (D.seen first) (D.seen second) copied)
            → IfOk result (λ standby. (stood : List (List ℕ))
            × IsStandby D.Disk copies.copies.bodies stood (if copied.on_first then new else new_second) standby) }
        ensures copied { IfOk result (λ standby. standby.copied ≡ copied) }
    {
        let (log, _bodies) = Log::open(alloc, first, second, log_bytes)?;
        if log.format() != copied.format.number() {
            return Err(FollowFault::Other);
        }
        Ok(Standby {
            log,
            copied,
            log_bytes,
        })
    }
}

impl<D: Disk + Drop> Standby<D> {
    /// Gives the disks back, the first one first.
    pub fn into_disks(self) -> (D, D)
        ensures { result ≡ (first_of self.log, second_of self.log) }
    {
        self.log.into_disks()
    }
}

impl<D: Disk> Standby<D> {
    ghost use Rattle.xa_copy.specs.Follows.{AreTaken, taken};
    ghost use Rattle.xa_copy.specs.Standbys.{HasTaken};

    // Appends the bodies of a piece, and returns whether it is the last one.
    pub(crate) fn append(&mut self, piece: Piece) -> Result<bool, FollowFault>
        requires { AreTaken piece.at.format (taken piece) }
        ensures taken { D.honest → (bodies stood : List (List ℕ)) → Pair D.Disk bodies stood self.old.log → 1 ≤ length bodies
            → HasTaken D.Disk result bodies stood piece self.old self.new }
        ensures any_moment { D.honest → (bodies stood : List (List ℕ)) → Pair D.Disk bodies stood self.old.log
            → Leaving D.Disk self.old.log.disk self.new.log.disk
            (Leaves self.old.log.log_bytes self.old.log.format bodies (taken piece)) }
        ensures other { self.new.log.other ≡ self.old.log.other }
        ensures settings { self.new.log.log_bytes ≡ self.old.log.log_bytes }
        ensures log { self.new.log.format ≡ self.old.log.format }
        ensures copied { OnOk result (self.new.copied ≡ piece.at) }
        ensures same { OnErr result (self.new.copied ≡ self.old.copied) }
    {
        let Piece {
            bodies,
            at,
            is_last,
        } = piece;
        if bodies.is_empty() {
            self.copied = at;
            return Ok(is_last);
        }
        if self.log.format() != at.format.number() {
            return Err(FollowFault::Other);
        }
        append_bodies(&mut self.log, &bodies)?;
        self.copied = at;
        Ok(is_last)
    }
}

// Appends these bodies to a log, as one group.
fn append_bodies<D: Disk>(log: &mut Log<D>, bodies: &[Vec<u8>]) -> Result<(), FollowFault>
    requires some { 1 ≤ length (bodies_of bodies.now) }
    requires sizes { AllByRecursion (IsBody log.old.format) (bodies_of bodies.now) }
    ensures appends { D.honest → (stand stood : List (List ℕ)) → Pair D.Disk stand stood log.old
        → AreAppended stand (bodies_of bodies.now)
        → AppendsBodies D.Disk result stand (bodies_of bodies.now) stood log.new }
    ensures any_moment { D.honest → (stand stood : List (List ℕ)) → Pair D.Disk stand stood log.old
        → Leaving D.Disk log.old.disk log.new.disk (Leaves log.old.log_bytes log.old.format stand (bodies_of bodies.now)) }
    ensures other { log.new.other ≡ log.old.other }
    ensures settings { log.new.log_bytes ≡ log.old.log_bytes }
    ensures format { log.new.format ≡ log.old.format }
{
    if !log.reserve_group(Group::Many(bodies))? {
        return Err(FollowFault::Full);
    }
    match log.append_group(Group::Many(bodies)) {
        Appended::Kept => Ok(()),
        Appended::Refused => Err(FollowFault::Refused),
        Appended::Lost => Err(FollowFault::Lost),
        Appended::Full => Err(FollowFault::Full),
    }
}

//! A standby whose source's log was begun anew is begun anew, too.
ghost use Rattle.std.specs.Prelude.{◌≡◌, ◌≤◌, ◌<◌, List, ℕ, OnErr, OnOk, true, length};
ghost use Rattle.std.specs.List.{AllByRecursion};
ghost use Rattle.xa_limits.specs.declared.TheConstants.{MOST_BODY};
ghost use Rattle.xa_log.specs.Believed.Chain.{IsBody, newest};
ghost use Rattle.xa_log.specs.Believed.Pair.{generation};
ghost use Rattle.xa_log.specs.Believed.TwoFiles.{Pair};
ghost use Rattle.xa_copy.specs.Heads.{Heads};
ghost use Rattle.xa_copy.specs.Moving.{Goes, State, Tells};
ghost use Rattle.xa_copy.specs.Snapshots.{LeavesReplaced, Replaces};

use crate::copy::ensure_same;
use crate::follow_fault::FollowFault;
use crate::head::Head;
use crate::snapshot::Snapshot;
use crate::source::Source;
use crate::standby::Standby;
use std::alloc::Global;
use xa_disk::Disk;
use xa_log::{Appended, Format, Log, generation_of_snapshot};
use xa_shared::SharedBytes;

impl<D: Disk> Standby<D> {
    ghost use Rattle.xa_copy.specs.Snapshots.{AreHeld, BeginsAnew};
    ghost use Rattle.xa_copy.specs.Standbys.{HasFollowed, IsStandby, LeavesFollowed, StaysBeside, side};

    // Takes all that a file has that begins so, the first one or not, of a greater generation than the standby.
    pub(crate) fn follow_anew<S: Source>(
        &mut self,
        alloc: Global,
        source: &mut S,
        head: &Head,
        on_first: bool,
    ) -> Result<(), FollowFault>
        ensures follows { S.honest → D.honest → Tells (S.state source.old) → Heads (S.state source.old).file head.now
            → (bodies stood : List (List ℕ)) (other : State)
            → IsStandby D.Disk bodies stood (side on_first self.old.copied.on_first (S.state source.old) other) self.old
            → OnOk result (HasFollowed D.Disk bodies (S.state source.old) (S.state source.new) self.new true) }
        ensures stays { S.honest → D.honest → Tells (S.state source.old) → Heads (S.state source.old).file head.now
            → (bodies stood : List (List ℕ)) (other : State)
            → IsStandby D.Disk bodies stood (side on_first self.old.copied.on_first (S.state source.old) other) self.old
            → OnErr result (StaysBeside D.Disk bodies on_first (S.state source.new) other self.new) }
        ensures any_moment { S.honest → D.honest → Tells (S.state source.old) → Heads (S.state source.old).file head.now
            → (bodies stood : List (List ℕ)) (other : State)
            → IsStandby D.Disk bodies stood (side on_first self.old.copied.on_first (S.state source.old) other) self.old
            → LeavesFollowed D.Disk stood (S.state source.new) self.old.log self.new.log }
        ensures on_first { OnOk result (self.new.copied.on_first ≡ on_first) }
        ensures goes { S.honest → Goes (S.state source.old) (S.state source.new) }
    {
        let snapshot = Snapshot::read(alloc, source, head, on_first, self.log_bytes)?;
        ensure_same(alloc, source, head)?;
        self.begin_anew(snapshot)?;
        self.take_all(alloc, source, head)?;
        Ok(())
    }

    // Begins the log anew, with the bodies of a snapshot. The old one stays in its file.
    pub(crate) fn begin_anew(&mut self, snapshot: Snapshot) -> Result<(), FollowFault>
        requires { AreHeld snapshot }
        ensures on_first { OnOk result (self.new.copied.on_first ≡ snapshot.at.on_first) }
        ensures any_moment { D.honest → (bodies stood : List (List ℕ)) → Pair D.Disk bodies stood self.old.log
            → LeavesReplaced D.Disk result stood snapshot.bodies.items self.old.log self.new.log }
        ensures settings { self.new.log.log_bytes ≡ self.old.log.log_bytes }
        ensures begins { D.honest → (bodies stood : List (List ℕ)) → Pair D.Disk bodies stood self.old.log
            → BeginsAnew D.Disk result bodies stood snapshot self.old self.new }
    {
        let Snapshot {
            bodies,
            at,
            longest,
        } = snapshot;
        if at.format.number() != Format::newest().number() {
            return Err(FollowFault::Other);
        }
        if bodies.is_empty() || generation_of_snapshot(&bodies) <= self.log.generation() {
            return Err(FollowFault::Other);
        }
        replace(&mut self.log, &bodies, longest)?;
        self.copied = at;
        Ok(())
    }
}

// A checkpoint of these bodies, of which the longest one has this many bytes at most.
fn replace<D: Disk>(
    log: &mut Log<D>,
    bodies: &[SharedBytes],
    longest: usize,
) -> Result<(), FollowFault>
    requires some { 1 ≤ length bodies.now }
    requires sizes { AllByRecursion (IsBody newest) bodies.now }
    requires fit { AllByRecursion (λ body. length body ≤ longest) bodies.now }
    requires small { longest ≤ MOST_BODY }
    requires above { log.old.generation < generation bodies.now }
    ensures any_moment { D.honest → (old stood : List (List ℕ)) → Pair D.Disk old stood log.old
        → LeavesReplaced D.Disk result stood bodies.now log.old log.new }
    ensures settings { log.new.log_bytes ≡ log.old.log_bytes }
    ensures replaces { D.honest → (old stood : List (List ℕ)) → Pair D.Disk old stood log.old
        → Replaces D.Disk result old stood bodies.now log.old log.new }
{
    log.reserve(longest)?;
    match log.checkpoint(bodies) {
        Appended::Kept => Ok(()),
        Appended::Refused => Err(FollowFault::Refused),
        Appended::Lost => Err(FollowFault::Lost),
        Appended::Full => Err(FollowFault::Full),
    }
}

ghost use Rattle.std.specs.Prelude.{◌≡◌, ℕ, Some, true, option_copied};
ghost use Rattle.std.specs.List.{list_any};
ghost use Rattle.xa_model.specs.State.{State as ModelState, active_of, works_in};
ghost use Rattle.xa_model.specs.Associations.{joined, resumed, not_resumed, suspended, not_suspended, ended, hang_up_by};
ghost use Rattle.xa_model.specs.Invariants.Sound.{IsSound};
ghost use Rattle.xa_branch.specs.Branches.{BranchesStandFor, moment_of};
ghost use Rattle.xa_branch.specs.Follows.{AreOwn, FollowsEach, InEachOf, InSoundOf};
ghost use Rattle.xa_branch.specs.Kinds.{ended_kind, resumed_kind};
ghost use Rattle.xa_branch.specs.Room.{rooms_of};

use crate::branches::Branches;
use crate::changes::{leave_all, set};
use crate::due::take_all_due;
use crate::kind::Kind;
use std::collections::BTreeSet;
use xa_xid::Xid;

/// How the associations of branches change. For an unknown XID nothing changes.
impl Branches {
    /// A session joins the branch: one more active association.
    pub fn join(&mut self, xid: &Xid)
        ensures joins { FollowsEach self.old (λ s n. (joined s n xid.now).after) self.new }
        ensures rooms { rooms_of self.new ≡ rooms_of self.old }
    {
        if let Some(working) = self.working_of(xid) {
            set(&mut self.working, xid, working.with_one(Kind::Active));
        }
    }

    /// A session resumes its work for the branch: an association of the kind `from`, the session's own suspended one or
    /// a loose one, becomes active.
    pub fn resume(&mut self, xid: &Xid, from: Kind)
        ensures resumes { InSoundOf self.old (λ s n. resumed_kind s.associations n xid.now ≡ Some from
            → BranchesStandFor self.new (resumed s n xid.now).after) }
        ensures rooms { rooms_of self.new ≡ rooms_of self.old }
    {
        if let Some(working) = self.working_of(xid) {
            set(
                &mut self.working,
                xid,
                working.less_one(from).with_one(Kind::Active),
            );
        }
    }

    /// A session suspends its work for the branch: an active association is suspended, or becomes loose if it
    /// migrates.
    pub fn suspend(&mut self, xid: &Xid, migrates: bool)
        ensures suspends { InSoundOf self.old (λ s n. list_any (works_in n xid.now) s.associations ≡ true
            → BranchesStandFor self.new (suspended s n migrates xid.now)) }
        ensures rooms { rooms_of self.new ≡ rooms_of self.old }
    {
        if let Some(working) = self.working_of(xid) {
            let rests = if migrates {
                Kind::Loose
            } else {
                Kind::Suspended
            };
            set(
                &mut self.working,
                xid,
                working.less_one(Kind::Active).with_one(rests),
            );
        }
    }

    /// An association of this kind ends: by an end of the session's work, or if the branch is marked and the session
    /// would resume or suspend its work.
    pub fn leave(&mut self, xid: &Xid, kind: Kind)
        ensures ended { InSoundOf self.old (λ s n. ended_kind s.associations n xid.now ≡ Some kind
            → BranchesStandFor self.new (ended s n xid.now)) }
        ensures not_resumed { InEachOf self.old (λ s n. resumed_kind s.associations n xid.now ≡ Some kind
            → BranchesStandFor self.new (not_resumed s n xid.now)) }
        ensures not_suspended { InEachOf self.old (λ s n. kind ≡ Kind.Active
            → list_any (works_in n xid.now) s.associations ≡ true
            → BranchesStandFor self.new (not_suspended s n xid.now)) }
        ensures rooms { rooms_of self.new ≡ rooms_of self.old }
    {
        if let Some(working) = self.working_of(xid) {
            set(&mut self.working, xid, working.less_one(kind));
        }
    }

    /// What a session that hung up leaves behind: each of its own associations ends, and its branch is marked
    /// XA_RBCOMMFAIL, unless it was marked. `own` are the XIDs of these associations, and `active` the one that the
    /// session was at work for.
    pub fn hang_up(&mut self, own: &BTreeSet<Xid>, active: Option<&Xid>)
        ensures follows { (s : ModelState) (n : ℕ) → IsSound s → AreOwn own.now s n
            → option_copied active.entry ≡ active_of s.associations n
            → BranchesStandFor self.old s → BranchesStandFor self.new (hang_up_by s n).after }
        ensures moment { moment_of self.new ≡ moment_of self.old }
        ensures rooms { rooms_of self.new ≡ rooms_of self.old }
    {
        take_all_due(&self.working, &mut self.due, own);
        leave_all(&mut self.working, own, active);
    }
}

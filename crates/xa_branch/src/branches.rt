ghost use Rattle.std.specs.Prelude.{◌≡◌, ◌+◌, ◌-◌, ◌^◌, ◌≤◌, MatchResult, None, Some, [], false, length, min};
ghost use Rattle.std.specs.BTreeMap.{btree_map_len};
ghost use Rattle.xa_model.specs.State.{State as ModelState, known_as, known_in, loose_of};
ghost use Rattle.xa_model.specs.{Associations.timestamp_in, Phases.is_associated, Logging.prepared_count};

use crate::known::Known;
use crate::lasting::Lasting;
use crate::state::State;
use crate::working::Working;
use std::alloc::Global;
use std::collections::{BTreeMap, BTreeSet};
use xa_codes::{Code, Direction, XAER_NOTA, XAER_PROTO};
use xa_xid::Xid;

/// The known branches, by their XIDs, how many timestamps this boot gave, and the last moment that was told. What survives a
/// restart is kept apart: the prepared branches, and the XIDs whose branches the operator completed, with how many there are of
/// each. The timestamps of the branches at work and of the prepared ones stand in order, for the least of them; so do the
/// branches at work that will run out of time, by the moment at which they do.
///
/// What a call promises holds for every state of the sequential resource manager that the branches stood for. Each call
/// takes time that grows with the logarithm of the number of branches, `hang_up` that for each branch that the session
/// leaves behind, `tick` that for each branch that runs out of time, and `list_after` and `known_after` also time for
/// each XID that they list. Only calls that can fail for lack of memory take it.
#[derive(Debug, Drop)]
pub struct Branches {
    pub(crate) boot: u32,
    pub(crate) given: u64,
    pub(crate) moment: u64,
    pub(crate) working: BTreeMap<Xid, Working>,
    pub(crate) lasting: BTreeMap<Xid, Lasting>,
    pub(crate) times: BTreeSet<u64>,
    pub(crate) due: BTreeSet<(u64, Xid)>,
    pub(crate) prepared: usize,
    pub(crate) completed: usize,
}

impl Branches {
    ghost use Rattle.xa_branch.specs.Branches.{BranchesStandFor, working_at, lasting_at, moment_of, number_of};
    ghost use Rattle.xa_branch.specs.{Calls.readiness_of, Facts.fact_of, Follows.InEach, Follows.InSound, Restored.HasRestored};
    ghost use Rattle.xa_branch.specs.{State.state_of};

    /// No branch is known in this boot, and `next` is the number of the boot's next timestamp: 1 if it gave none,
    /// otherwise one more than how many it gave. 0 counts as 1. `moment` is the last moment that was told, in seconds. Takes
    /// no memory.
    pub fn new(alloc: Global, boot: u32, next: u64, moment: u64) -> Branches
        ensures fresh { (s : ModelState) → s.boot ≡ boot → s.given + 1 ≡ next → s.moment ≡ moment → known_in s ≡ 0
            → BranchesStandFor result s }
        ensures restored { next ≡ 1 → HasRestored result boot moment [] [] }
    {
        Branches {
            boot,
            given: next.saturating_sub(1),
            moment,
            working: BTreeMap::new(alloc),
            lasting: BTreeMap::new(alloc),
            times: BTreeSet::new(alloc),
            due: BTreeSet::new(alloc),
            prepared: 0,
            completed: 0,
        }
    }

    /// How many branches are known.
    pub fn len(&self) -> usize
        ensures value { result ≡ min (number_of self.now) (2 ^ 64 - 1) }
        ensures state { InSound self.now (λ s. result ≡ known_in s) }
    {
        let lasting = self.prepared.saturating_add(self.completed);
        self.working.len().saturating_add(lasting)
    }

    /// Whether a branch at work may have its room: if no more are kept than last, none has.
    pub(crate) fn has_rooms(&self) -> bool
        ensures { result ≡ false → btree_map_len self.now.lasting ≤ self.now.prepared + self.now.completed }
    {
        self.lasting.len() > self.prepared.saturating_add(self.completed)
    }

    /// How many branches are prepared.
    pub fn prepared(&self) -> usize
        ensures { InEach self.now (λ s. result ≡ prepared_count s) }
    {
        self.prepared
    }

    /// How many branches the operator completed that are not forgotten.
    pub fn completed(&self) -> usize
        ensures { InEach self.now (λ s. result ≡ length s.decided) }
    {
        self.completed
    }

    /// How many timestamps this boot gave.
    pub fn given(&self) -> u64
        ensures { InEach self.now (λ s. result ≡ s.given) }
    {
        self.given
    }

    /// The last moment that was told, in seconds.
    pub fn moment(&self) -> u64
        ensures value { result ≡ moment_of self.now }
        ensures state { InEach self.now (λ s. result ≡ s.moment) }
    {
        self.moment
    }

    /// The branch at work with this XID.
    pub fn working_of(&self, xid: &Xid) -> Option<Working>
        ensures { result ≡ working_at self.now xid.now }
    {
        self.working.get(xid).copied()
    }

    /// What lasts of the branch with this XID.
    pub fn lasting_of(&self, xid: &Xid) -> Option<Lasting>
        ensures { result ≡ lasting_at self.now xid.now }
    {
        let kept = self.lasting.get(xid).copied()?;
        // of a branch at work it is the room alone
        match self.working_of(xid) {
            Some(_) => None,
            None => Some(kept),
        }
    }

    /// The timestamp of the branch with this XID that is at work or prepared, or 0.
    pub fn timestamp(&self, xid: &Xid) -> u64
        ensures { InEach self.now (λ s. result ≡ timestamp_in s xid.now) }
    {
        match self.working_of(xid) {
            Some(working) => working.timestamp,
            None => match self.lasting_of(xid) {
                Some(Lasting::Prepared(timestamp)) => timestamp,
                Some(Lasting::Completed(_)) => 0,
                None => 0,
            },
        }
    }

    /// How many loose associations are with this XID.
    pub fn loose(&self, xid: &Xid) -> u64
        ensures { InSound self.now (λ s. result ≡ loose_of s.associations xid.now) }
    {
        match self.working_of(xid) {
            None => 0,
            Some(working) => working.loose,
        }
    }

    /// What is known of an XID.
    pub fn known(&self, xid: &Xid) -> Known
        ensures { InEach self.now (λ s. fact_of result ≡ known_as s xid.now) }
    {
        match self.working_of(xid) {
            Some(working) => Known::AtWork(working.mark),
            None => match self.lasting_of(xid) {
                Some(Lasting::Prepared(_)) => Known::InDoubt,
                Some(Lasting::Completed(direction)) => Known::Completed(direction),
                None => Known::Unknown,
            },
        }
    }

    /// Whether any association is with this XID.
    pub fn is_associated(&self, xid: &Xid) -> bool
        ensures { InSound self.now (λ s. result ≡ is_associated s xid.now) }
    {
        match self.working_of(xid) {
            None => false,
            Some(working) => working.is_associated(),
        }
    }

    /// The state of a known branch.
    pub fn state(&self, xid: &Xid) -> Option<State>
        ensures { InEach self.now (λ s. result ≡ state_of s xid.now) }
    {
        if let Some(working) = self.working_of(xid) {
            return Some(working.state());
        }
        match self.lasting_of(xid)? {
            Lasting::Prepared(_) => Some(State::Prepared),
            Lasting::Completed(Direction::Commit) => Some(State::HeurCommitted),
            Lasting::Completed(Direction::Rollback) => Some(State::HeurRolledBack),
        }
    }

    /// Whether the branch may be prepared, or else the code to answer with: XAER_NOTA if it isn't known, XAER_PROTO
    /// if it is associated, prepared or completed, or its mark.
    pub fn ready_to_prepare(&self, xid: &Xid) -> Result<(), Code>
        ensures { InEach self.now (λ s.
            MatchResult result (λ _. readiness_of s xid.now ≡ None) (λ code. readiness_of s xid.now ≡ Some code)) }
    {
        let Some(working) = self.working_of(xid) else {
            return match self.lasting_of(xid) {
                Some(_) => Err(XAER_PROTO),
                None => Err(XAER_NOTA),
            };
        };
        if working.is_associated() {
            return Err(XAER_PROTO);
        }
        working.unless_marked()
    }
}

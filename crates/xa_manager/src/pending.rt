ghost use Rattle.std.specs.Prelude.{◌≡◌, IfErr, IfOk, OnErr, true};
ghost use Rattle.std.specs.List.{AllByRecursion};
ghost use Rattle.xa_model.specs.{Events.IsAsked, State.State};
ghost use Rattle.xa_manager.specs.{Believed.Answered.StaysFor, Connected.connected_to};
ghost use Rattle.xa_manager.specs.{Believed.Parts.log_of, Believed.Parts.outcome_of};
ghost use Rattle.xa_log.specs.Reading.{bodies_of};
ghost use Rattle.xa_manager.specs.Believed.Pending.{IsPending, IsGroupOf, WritesGroup, calls_of};
ghost use Rattle.xa_manager.specs.Believed.Together.{IsBounded};
ghost use Rattle.xa_manager.specs.{Managed.ManagerStandsFor, Reserving.HasReserved};

use crate::manager::Manager;
use crate::together::{Asked, Together};
use xa_disk::{Disk, Syncer};
use xa_frame::Reply;
use xa_log::{Group, Written};

/// Calls that are asked together, as a group that is pending: their records are written, and the sync has to follow.
#[derive(Debug, Drop)]
pub struct PendingGroup {
    pub(crate) calls: Vec<Asked>,
    pub(crate) together: Together,
    /// None yet, with room for each.
    pub(crate) replies: Vec<(usize, Reply)>,
    pub(crate) written: Written,
}

impl PendingGroup {
    /// Its calls, with those that were left out of it.
    pub fn calls(&self) -> &[Asked]
        ensures { result.now ≡ (calls_of self.now).items }
    {
        &self.calls
    }
}

impl<D: Disk> Manager<D> {
    /// Begins a group of calls of different sessions: those that log, each on an XID of its own, the prepares first. Their
    /// records share one write, which is made here, and one sync, which is left to whoever has the `syncer`. Until the group
    /// is finished (`finish_group`), the manager is asked by `call_beside`, `connect_beside` and `hangup_beside` alone, which
    /// answer what leaves the group as it is. All memory that finishing it needs is taken before the write.
    ///
    /// # Errors
    /// Gives the calls back if none of them logs, or out of memory: then nothing changed.
    pub fn begin_group(&mut self, calls: Vec<Asked>) -> Result<PendingGroup, Vec<Asked>>
        requires asked { AllByRecursion (λ c. IsAsked c.request) calls.items }
        ensures ok { IfOk result
            (λ f. (s : State) → ManagerStandsFor D.Disk self.old s → IsPending D.Disk self.new f s) }
        ensures group { IfOk result (λ f. IsGroupOf self.new f × (calls_of f ≡ calls)) }
        ensures bounded { IfOk result (λ f. IsBounded (bodies_of f.together.bodies.items)) }
        ensures wrote { IfOk result (λ f. WritesGroup D.Disk self.old f self.new) }
        ensures err { OnErr result (StaysFor D.Disk self.old self.new) }
        ensures back { IfErr result (λ given. given ≡ calls) }
        ensures reserved { OnErr result (HasReserved D.Disk (log_of self.old) (log_of self.new)) }
        ensures outcome { outcome_of self.new ≡ outcome_of self.old }
        ensures company { connected_to self.new ≡ connected_to self.old }
    {
        let Ok(together) = self.group_of(&calls) else {
            return Err(calls);
        };
        if together.members.is_empty() {
            return Err(calls);
        }
        let Ok(replies) = Vec::with_capacity(self.tables.alloc, together.members.len()) else {
            return Err(calls);
        };
        let Ok(()) = self.take_memory_together(&together) else {
            return Err(calls);
        };
        match self.log.write_group(Group::Many(&together.bodies)) {
            Some(written) => Ok(PendingGroup {
                calls,
                together,
                replies,
                written,
            }),
            None => {
                self.tables.give_rooms_back(&together.prepares);
                Err(calls)
            }
        }
    }

    /// What makes the sync of the pending group.
    pub fn syncer(&self) -> Syncer
        ensures { D.its_syncer (log_of self.now).disk result }
    {
        self.log.syncer()
    }
}

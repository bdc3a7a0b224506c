ghost use Rattle.std.specs.Prelude.{◌≡◌, ◌≢◌, OnOk, OnErr};
ghost use Rattle.xa_model.specs.State.{State as ModelState, InDoubt, known_as};
ghost use Rattle.xa_model.specs.Phases.{rolled_back, committed, prepared, decided_by, forgotten};
ghost use Rattle.xa_model.specs.Invariants.Sound.{IsSound};
ghost use Rattle.xa_branch.specs.Branches.{BranchesStandFor};
ghost use Rattle.xa_branch.specs.Follows.{Follows, InEach, InSound, Stays};
ghost use Rattle.xa_branch.specs.Room.{HasRoom, GivesRoomBack, KeepsRooms, MakesRoom, UsesRoom};

use crate::branches::Branches;
use crate::changes::{add, set, take, take_time};
use crate::due::take_due;
use crate::lasting::Lasting;
use std::alloc::AllocError;
use xa_codes::Direction;
use xa_xid::Xid;

/// How branches are prepared, completed, and forgotten.
impl Branches {
    /// Makes room for what will be kept of a branch at work once it is prepared, so that `prepare` takes no memory and
    /// can't fail. Several may have their rooms at once, of distinct XIDs (`HaveRooms`), and sessions work on meanwhile:
    /// no call but those of this file changes `rooms_of`. For each, either `prepare` or `give_back` has to follow. Whether
    /// the branch may be prepared has to be asked before (`unprepared_refusal`, and its mark; `ready_to_prepare` tells
    /// both).
    ///
    /// # Errors
    /// Out of memory, or the branch isn't at work: then nothing changes.
    pub fn make_room(&mut self, xid: &Xid) -> Result<(), AllocError>
        ensures ok { OnOk result (InEach self.old (λ s. HasRoom xid.now self.new s)) }
        ensures beside { OnOk result (MakesRoom self.old xid.now self.new) }
        ensures err { OnErr result (Stays self.old self.new) }
        ensures kept { OnErr result (KeepsRooms self.old self.new) }
    {
        let Some(working) = self.working_of(xid) else {
            return Err(AllocError);
        };
        add(
            &mut self.lasting,
            xid.copied(),
            Lasting::Prepared(working.timestamp),
        )
    }

    /// The branch that room was made for is prepared: of it, only the timestamp is kept. Takes no memory.
    pub fn prepare(&mut self, xid: &Xid)
        ensures alone { (s : ModelState) → IsSound s → HasRoom xid.now self.old s
            → BranchesStandFor self.new (prepared s xid.now) }
        ensures beside { UsesRoom self.old xid.now self.new }
    {
        match self.working_of(xid) {
            Some(working) => {
                take(&mut self.working, xid);
                take_due(&mut self.due, xid, &working);
                let prepared = Lasting::Prepared(working.timestamp);
                set(&mut self.lasting, xid, prepared);
                self.prepared = self.prepared.saturating_add(1);
            }
            None => {}
        }
    }

    /// The branch that room was made for is not prepared: it stays at work, and the room is given back. Takes no memory.
    pub fn give_back(&mut self, xid: &Xid)
        ensures alone { (s : ModelState) → HasRoom xid.now self.old s → BranchesStandFor self.new s }
        ensures beside { GivesRoomBack self.old xid.now self.new }
    {
        match self.working_of(xid) {
            Some(_) => take(&mut self.lasting, xid),
            None => {}
        }
    }

    /// The operator completes a prepared branch. For any other XID nothing changes.
    pub fn decide(&mut self, xid: &Xid, direction: Direction)
        ensures decided { InSound self.old (λ s. known_as s xid.now ≡ InDoubt
            → BranchesStandFor self.new (decided_by s direction xid.now)) }
        ensures other { InEach self.old (λ s. known_as s xid.now ≢ InDoubt → BranchesStandFor self.new s) }
    {
        match self.lasting_of(xid) {
            Some(Lasting::Prepared(timestamp)) => {
                set(&mut self.lasting, xid, Lasting::Completed(direction));
                take_time(&mut self.times, timestamp);
                self.prepared = self.prepared.saturating_sub(1);
                self.completed = self.completed.saturating_add(1);
            }
            Some(Lasting::Completed(_)) => {}
            None => {}
        }
    }

    /// A branch at work or a prepared one is committed or rolled back, and no longer known. For any other XID nothing
    /// changes.
    pub fn finish(&mut self, xid: &Xid)
        ensures rolled_back { Follows self.old (λ s. rolled_back s xid.now) self.new }
        ensures committed { Follows self.old (λ s. committed s xid.now) self.new }
    {
        match self.lasting_of(xid) {
            Some(Lasting::Prepared(timestamp)) => {
                take(&mut self.lasting, xid);
                take_time(&mut self.times, timestamp);
                self.prepared = self.prepared.saturating_sub(1);
            }
            Some(Lasting::Completed(_)) => {}
            None => {
                if let Some(working) = self.working_of(xid) {
                    take(&mut self.working, xid);
                    take(&mut self.lasting, xid);
                    take_time(&mut self.times, working.timestamp);
                    take_due(&mut self.due, xid, &working);
                }
            }
        }
    }

    /// What the operator decided is forgotten. For any other XID nothing changes.
    pub fn forget(&mut self, xid: &Xid)
        ensures { Follows self.old (λ s. forgotten s xid.now) self.new }
    {
        match self.lasting_of(xid) {
            Some(Lasting::Completed(_)) => {
                take(&mut self.lasting, xid);
                self.completed = self.completed.saturating_sub(1);
            }
            Some(Lasting::Prepared(_)) => {}
            None => {}
        }
    }
}

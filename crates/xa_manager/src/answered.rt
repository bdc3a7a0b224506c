ghost use Rattle.std.specs.Prelude.{◌≡◌, ◌≢◌, OnOk, OnErr};
ghost use Rattle.xa_model.specs.Phases.{rolled_back, committed, completed};
ghost use Rattle.xa_assoc.specs.Company.{company_of};
ghost use Rattle.xa_manager.specs.Tables.{TablesStay};
ghost use Rattle.xa_manager.specs.Acts.{BranchBecomes, Decides, Forgets, GivesFirstRoomBack, GivesRoomBack, KeepsRooms, MakesRoom, MakesRoomAfter};
ghost use Rattle.xa_manager.specs.Acts.{TakesFirstPrepared, TakesPrepared};
ghost use Rattle.xa_manager.specs.Plans.{LeavesReady, MakesReady, TakesAnswer};
ghost use Rattle.xa_manager.specs.GroupAnswers.{TakesFirst};

use crate::acts::fate_of;
use crate::row::{Row, Writing};
use crate::tables::Tables;
use mv_chain::Fate;
use std::alloc::AllocError;
use xa_codes::Direction;
use xa_model::Appending;
use xa_xid::Xid;

/// What the rows that log do in the tables before the append and after it.
impl Tables {
    /// Makes room for what a row keeps once its record is kept.
    pub fn make_ready(&mut self, writing: Writing, xid: &Xid) -> Result<(), AllocError>
        ensures ok { OnOk result (MakesReady self.old (Row.Writes writing) xid.now self.new) }
        ensures err { OnErr result (TablesStay self.old self.new) }
        ensures company { company_of self.new.sessions ≡ company_of self.old.sessions }
    {
        match writing {
            Writing::Prepare => self.make_room(xid),
            Writing::CommitOnePhase => Ok(()),
        }
    }

    /// Gives that room back: nothing is appended.
    pub fn leave_ready(&mut self, writing: Writing, xid: &Xid)
        ensures given { LeavesReady self.old (Row.Writes writing) xid.now self.new }
        ensures company { company_of self.new.sessions ≡ company_of self.old.sessions }
    {
        match writing {
            Writing::Prepare => self.give_room_back(xid),
            Writing::CommitOnePhase => {}
        }
    }

    /// What the device's answer to the row's record makes of the branch.
    pub fn take_answer(&mut self, row: Row, xid: &Xid, answer: Appending)
        ensures takes { TakesAnswer self.old row xid.now answer self.new }
        ensures first { TakesFirst self.old row xid.now answer self.new }
        ensures company { company_of self.new.sessions ≡ company_of self.old.sessions }
    {
        match row {
            Row::Writes(writing) => self.take_written(writing, xid, answer),
            Row::CommitTwoPhase => self.take_completed(xid, Direction::Commit, answer),
            Row::Rollback => self.take_completed(xid, Direction::Rollback, answer),
            Row::Decide(direction) => self.take_decided(xid, direction, answer),
            Row::Forget => self.take_forgotten(xid, answer),
        }
    }

    fn take_written(&mut self, writing: Writing, xid: &Xid, answer: Appending)
        ensures takes { TakesAnswer self.old (Row.Writes writing) xid.now answer self.new }
        ensures first { TakesFirst self.old (Row.Writes writing) xid.now answer self.new }
        ensures company { company_of self.new.sessions ≡ company_of self.old.sessions }
    {
        match writing {
            Writing::Prepare => self.take_prepared(xid, answer),
            Writing::CommitOnePhase => self.take_committed(xid, answer),
        }
    }
}

/// What becomes of a branch that is prepared, once it is known whether its record stands.
impl Tables {
    /// Makes room for what is kept of the branch once it is prepared, besides what others have: one table's change, said of
    /// all of them.
    pub fn make_room(&mut self, xid: &Xid) -> Result<(), AllocError>
        ensures ok { OnOk result (MakesRoom self.old xid.now self.new) }
        ensures after { OnOk result (MakesRoomAfter self.old xid.now self.new) }
        ensures err { OnErr result (TablesStay self.old self.new) }
        ensures rooms { OnErr result (KeepsRooms self.old self.new) }
        ensures company { company_of self.new.sessions ≡ company_of self.old.sessions }
    {
        self.branches.make_room(xid)
    }

    /// The branch isn't prepared: that room is given back.
    pub fn give_room_back(&mut self, xid: &Xid)
        ensures given { GivesRoomBack self.old xid.now self.new }
        ensures first { GivesFirstRoomBack self.old xid.now self.new }
        ensures company { company_of self.new.sessions ≡ company_of self.old.sessions }
    {
        self.branches.give_back(xid);
    }

    pub fn take_prepared(&mut self, xid: &Xid, answer: Appending)
        ensures kept { answer ≡ Appending.Kept → TakesPrepared self.old xid.now self.new }
        ensures left { answer ≢ Appending.Kept → GivesRoomBack self.old xid.now self.new }
        ensures first_kept { answer ≡ Appending.Kept → TakesFirstPrepared self.old xid.now self.new }
        ensures first_left { answer ≢ Appending.Kept → GivesFirstRoomBack self.old xid.now self.new }
        ensures company { company_of self.new.sessions ≡ company_of self.old.sessions }
    {
        match answer {
            Appending::Kept => self.branches.prepare(xid),
            Appending::Refused | Appending::Lost => self.branches.give_back(xid),
        }
    }
}

/// What becomes of a branch, once it is known whether the record that completes it stands. If it was lost, nothing
/// is said.
impl Tables {
    pub fn take_committed(&mut self, xid: &Xid, answer: Appending)
        ensures kept { answer ≡ Appending.Kept → BranchBecomes self.old xid.now committed self.new }
        ensures refused { answer ≡ Appending.Refused → BranchBecomes self.old xid.now rolled_back self.new }
        ensures lost { answer ≡ Appending.Lost → self.new ≡ self.old }
        ensures company { company_of self.new.sessions ≡ company_of self.old.sessions }
    {
        match answer {
            Appending::Kept => self.finish_branch(xid, Fate::Committed),
            Appending::Refused => self.finish_branch(xid, Fate::RolledBack),
            Appending::Lost => {}
        }
    }

    pub fn take_completed(&mut self, xid: &Xid, direction: Direction, answer: Appending)
        ensures kept { answer ≡ Appending.Kept
            → BranchBecomes self.old xid.now (λ s x. completed s direction x) self.new }
        ensures left { answer ≢ Appending.Kept → self.new ≡ self.old }
        ensures company { company_of self.new.sessions ≡ company_of self.old.sessions }
    {
        if answer == Appending::Kept {
            self.finish_branch(xid, fate_of(direction));
        }
    }

    pub fn take_decided(&mut self, xid: &Xid, direction: Direction, answer: Appending)
        ensures kept { answer ≡ Appending.Kept → Decides self.old direction xid.now self.new }
        ensures left { answer ≢ Appending.Kept → self.new ≡ self.old }
        ensures company { company_of self.new.sessions ≡ company_of self.old.sessions }
    {
        if answer == Appending::Kept {
            self.decide_branch(xid, direction);
        }
    }

    pub fn take_forgotten(&mut self, xid: &Xid, answer: Appending)
        ensures kept { answer ≡ Appending.Kept → Forgets self.old xid.now self.new }
        ensures left { answer ≢ Appending.Kept → self.new ≡ self.old }
        ensures company { company_of self.new.sessions ≡ company_of self.old.sessions }
    {
        if answer == Appending::Kept {
            self.forget_branch(xid);
        }
    }
}

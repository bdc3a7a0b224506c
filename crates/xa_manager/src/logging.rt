//! How a call that logs goes its way: its plan, the memory that it takes, the append, and what the tables make of the
//! device's answer.
ghost use Rattle.std.specs.Prelude.{◌≡◌, ◌≤◌, length, IfOk, IsOk, OnErr, OnOk, false, true};
ghost use Rattle.xa_limits.specs.declared.TheConstants.{MOST_BODY, MOST_SMALL};
ghost use Rattle.xa_xid.specs.Triple.{IsWithinLimits};
ghost use Rattle.xa_assoc.specs.Refusals.{IsBare};
ghost use Rattle.xa_log.specs.{Buffer.Holds, Believed.Chain.IsBody};
ghost use Rattle.xa_manager.specs.{Believed.Answered.StaysFor, Connected.connected_to};
ghost use Rattle.xa_manager.specs.Plans.{bytes_of, CanLog, IsPlan, IsReady};
ghost use Rattle.xa_manager.specs.{Rows.row_turn, Rows.takes_memory, Turns.TakesTurn};

use crate::done::Done;
use crate::manager::Manager;
use crate::plan::{Logging, Plan};
use crate::row::Row;
use std::alloc::AllocError;
use xa_disk::Disk;
use xa_log::Group;
use xa_xid::Xid;

impl<D: Disk> Manager<D> {
    /// A call that logs, alone.
    pub(crate) fn log_call(&mut self, row: Row, xid: &Xid) -> Result<Done, AllocError>
        requires up { self.old.up ≡ true }
        requires name { IsWithinLimits xid.now }
        ensures ok { IfOk result
            (λ d. TakesTurn D.Disk self.old (row_turn row xid.now) d.reply d.outcome self.new) }
        ensures memory { takes_memory row ≡ false → IsOk result }
        ensures err { OnErr result (StaysFor D.Disk self.old self.new) }
        ensures outcome { self.new.outcome ≡ self.old.outcome }
        ensures company { connected_to self.new ≡ connected_to self.old }
        ensures bare { IfOk result (λ d. IsBare d.reply) }
        ensures untouched { OnErr result (self.new.log ≡ self.old.log) }
    {
        match self.plan(row, xid)? {
            Plan::Now(reply, fate) => {
                self.tables.settle(xid, fate);
                Ok(Done::now(reply))
            }
            Plan::Logs(logging) => {
                self.take_memory(&logging)?;
                Ok(self.carry_out(&logging))
            }
        }
    }

    /// What it comes to before the append. Nothing has changed yet.
    pub(crate) fn plan(&self, row: Row, xid: &Xid) -> Result<Plan, AllocError>
        requires name { IsWithinLimits xid.now }
        ensures ok { IfOk result (IsPlan D.Disk self.now row xid.now) }
        ensures memory { takes_memory row ≡ false → IsOk result }
    {
        match row {
            Row::Writes(writing) => self.plan_written(writing, xid),
            Row::CommitTwoPhase => Ok(self.plan_commit(xid)),
            Row::Rollback => Ok(self.plan_rollback(xid)),
            Row::Decide(direction) => Ok(self.plan_decision(direction, xid)),
            Row::Forget => Ok(self.plan_forgetting(xid)),
        }
    }

    /// Takes all memory that is still needed: for what is kept of a branch that is prepared, and room for a record with
    /// writes in the log's buffer.
    fn take_memory(&mut self, logging: &Logging) -> Result<(), AllocError>
        requires up { self.old.up ≡ true }
        requires size { length (bytes_of logging.now.body) ≤ MOST_BODY }
        requires small { takes_memory logging.now.row ≡ false → length (bytes_of logging.now.body) ≤ MOST_SMALL }
        ensures ok { OnOk result (IsReady D.Disk self.old logging.now self.new) }
        ensures memory { takes_memory logging.now.row ≡ false → IsOk result }
        ensures err { OnErr result (StaysFor D.Disk self.old self.new) }
        ensures outcome { self.new.outcome ≡ self.old.outcome }
        ensures company { connected_to self.new ≡ connected_to self.old }
        ensures untouched { OnErr result (self.new.log ≡ self.old.log) }
    {
        let Row::Writes(writing) = logging.row else {
            return Ok(());
        };
        self.tables.make_ready(writing, &logging.xid)?;
        let Ok(()) = self.log.reserve(logging.body.len()) else {
            self.tables.leave_ready(writing, &logging.xid);
            return Err(AllocError);
        };
        Ok(())
    }

    /// The append, and what the tables make of the answer. Takes no memory.
    fn carry_out(&mut self, logging: &Logging) -> Done
        requires size { IsBody self.old.log.format (bytes_of logging.now.body) }
        requires holds { Holds self.old.log (length (bytes_of logging.now.body)) }
        ensures takes { (m : Manager D) → CanLog D.Disk m logging.now → IsReady D.Disk m logging.now self.old
            → TakesTurn D.Disk m (row_turn logging.now.row logging.now.xid) result.reply result.outcome self.new }
        ensures outcome { self.new.outcome ≡ self.old.outcome }
        ensures company { connected_to self.new ≡ connected_to self.old }
        ensures bare { IsBare result.reply }
    {
        let answer = self.append(Group::One(logging.body.as_slice()));
        self.tables.take_answer(logging.row, &logging.xid, answer);
        Done::appended(answer, logging.row.refused_code())
    }
}

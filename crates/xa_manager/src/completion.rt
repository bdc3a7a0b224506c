ghost use Rattle.std.specs.Prelude.{◌≡◌, IfOk};
ghost use Rattle.xa_xid.specs.Triple.{IsWithinLimits};
ghost use Rattle.xa_model.specs.Phases.{doom_by};
ghost use Rattle.xa_manager.specs.{Plans.IsPlan, Tables.TablesFollow};
ghost use Rattle.xa_assoc.specs.{Refusals.IsBare, Company.company_of};
ghost use Rattle.xa_branch.specs.Room.{rooms_of};

use crate::manager::Manager;
use crate::plan::{Logging, Plan};
use crate::row::{Row, Writing};
use crate::tables::Tables;
use mv_chain::Fate;
use std::alloc::AllocError;
use xa_codes::{Call, Detail, Direction, XA_OK, XA_RBOTHER};
use xa_disk::Disk;
use xa_frame::Reply;
use xa_record::{Record, Writes, write};
use xa_xid::Xid;

/// What the rows of the branch table come to before their append: how branches are prepared and completed. Nothing changes.
impl<D: Disk> Manager<D> {
    /// For a prepare, and for a commit in one phase. A branch without writes isn't logged: it counts as committed. One
    /// that would leave too little room in the log is rolled back.
    pub(crate) fn plan_written(&self, writing: Writing, xid: &Xid) -> Result<Plan, AllocError>
        requires name { IsWithinLimits xid.now }
        ensures { IfOk result (IsPlan D.Disk self.now (Row.Writes writing) xid.now) }
    {
        if let Some(reply) = self.tables.unprepared_refusal(xid) {
            return Ok(Plan::Now(reply, None));
        }
        if let Some(code) = self.tables.mark_of(xid) {
            let reply = Reply::plain(code);
            return Ok(Plan::Now(reply, Some(Fate::RolledBack)));
        }
        let timestamp = self.tables.branches.timestamp(xid);
        let writes = self.tables.records.writes_of(timestamp)?;
        if writes.is_empty() {
            let reply = Reply::plain(writing.unwritten_code());
            return Ok(Plan::Now(reply, Some(Fate::Committed)));
        }
        let record = writing.record(xid.copied(), timestamp, Writes::new(writes));
        let body = write(self.tables.alloc, &record)?;
        if !self.has_room(body.len(), writing.more()) {
            let reply = Reply::detailed(XA_RBOTHER, Detail::LogFull);
            return Ok(Plan::Now(reply, Some(Fate::RolledBack)));
        }
        Ok(Plan::Logs(Logging::long(writing, xid, body)))
    }

    /// For a commit in two phases. Takes no memory.
    pub(crate) fn plan_commit(&self, xid: &Xid) -> Plan
        requires name { IsWithinLimits xid.now }
        ensures { IsPlan D.Disk self.now Row.CommitTwoPhase xid.now result }
    {
        if let Some(reply) = self.tables.two_phase_refusal(xid) {
            return Plan::Now(reply, None);
        }
        if let Some(reply) = self.tables.heuristic_refusal(Call::Commit, xid) {
            return Plan::Now(reply, None);
        }
        let record = Record::Completed {
            xid: xid.copied(),
            direction: Direction::Commit,
        };
        Plan::Logs(Logging::small(Row::CommitTwoPhase, xid, &record))
    }

    /// For a rollback: for a branch at work nothing is logged. Takes no memory.
    pub(crate) fn plan_rollback(&self, xid: &Xid) -> Plan
        requires name { IsWithinLimits xid.now }
        ensures { IsPlan D.Disk self.now Row.Rollback xid.now result }
    {
        if let Some(reply) = self.tables.rollback_refusal(xid) {
            return Plan::Now(reply, None);
        }
        if let Some(reply) = self.tables.heuristic_refusal(Call::Rollback, xid) {
            return Plan::Now(reply, None);
        }
        if !self.tables.is_lasting(xid) {
            let code = self.tables.mark_of(xid).unwrap_or(XA_OK);
            return Plan::Now(Reply::plain(code), Some(Fate::RolledBack));
        }
        let record = Record::Completed {
            xid: xid.copied(),
            direction: Direction::Rollback,
        };
        Plan::Logs(Logging::small(Row::Rollback, xid, &record))
    }
}

/// The operator's mark.
impl Tables {
    pub fn doom(&mut self, xid: &Xid) -> Reply
        ensures follows { TablesFollow self.old (λ s. doom_by s xid.now) result self.new }
        ensures company { company_of self.new.sessions ≡ company_of self.old.sessions }
        ensures rooms { rooms_of self.new.branches ≡ rooms_of self.old.branches }
        ensures bare { IsBare result }
    {
        if let Some(reply) = self.doom_refusal(xid) {
            return reply;
        }
        self.mark_branch(xid, XA_RBOTHER);
        Reply::plain(XA_OK)
    }
}

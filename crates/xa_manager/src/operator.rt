ghost use Rattle.xa_xid.specs.Triple.{IsWithinLimits};
ghost use Rattle.xa_manager.specs.Plans.{IsPlan};

use crate::manager::Manager;
use crate::plan::{Logging, Plan};
use crate::row::Row;
use xa_codes::Direction;
use xa_disk::Disk;
use xa_frame::Reply;
use xa_xid::Xid;

/// What the operator's rows come to before their append: how branches in doubt are completed, and how what was decided
/// is forgotten. Nothing changes, and none of these takes memory.
impl<D: Disk> Manager<D> {
    pub(crate) fn plan_decision(&self, direction: Direction, xid: &Xid) -> Plan
        requires name { IsWithinLimits xid.now }
        ensures { IsPlan D.Disk self.now (Row.Decide direction) xid.now result }
    {
        match self.tables.decision(direction, xid) {
            Ok(record) => Plan::Logs(Logging::small(Row::Decide(direction), xid, &record)),
            Err(code) => Plan::Now(Reply::plain(code), None),
        }
    }

    pub(crate) fn plan_forgetting(&self, xid: &Xid) -> Plan
        requires name { IsWithinLimits xid.now }
        ensures { IsPlan D.Disk self.now Row.Forget xid.now result }
    {
        match self.tables.forgetting(xid) {
            Ok(record) => Plan::Logs(Logging::small(Row::Forget, xid, &record)),
            Err(code) => Plan::Now(Reply::plain(code), None),
        }
    }
}

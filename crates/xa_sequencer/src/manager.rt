use crate::manages::Manages;
use xa_assoc::ConnectFault;
use xa_disk::{Disk, SyncAnswer, Syncer};
use xa_frame::{Reply, Request, Status};
use xa_manager::{Asked, Manager, PendingGroup};
use xa_xid::Xid;

/// The manager over a log on two disks. Its counts of failures are those of the two.
impl<D: Disk> Manages for Manager<D> {
    ghost use Rattle.xa_manager.specs.Believed.{Parts.log_of, Pending.IsGroupOf};
    ghost use Rattle.xa_sequencer.specs.Believed.GroupManager.{manages_of};

    ghost manages = { manages_of D.Disk };

    ghost is_group = { λ m f. IsGroupOf m f };

    ghost its_syncer = { λ m s. D.its_syncer (log_of m).disk s };

    fn connect(&mut self, pending: &Option<PendingGroup>) -> Result<u64, ConnectFault> {
        match pending {
            Some(group) => self.connect_beside(group),
            None => self.connect(),
        }
    }

    fn call(
        &mut self,
        pending: &Option<PendingGroup>,
        session: u64,
        request: Request,
    ) -> Result<Reply, Request> {
        match pending {
            Some(group) => self.call_beside(group, session, request),
            None => Ok(self.call(session, request)),
        }
    }

    fn hangup(&mut self, pending: &Option<PendingGroup>, session: u64) -> bool {
        match pending {
            Some(group) => self.hangup_beside(group, session),
            None => {
                self.hangup(session);
                true
            }
        }
    }

    fn is_connected(&self, session: u64) -> bool {
        self.is_connected(session)
    }

    fn connected(&self) -> u64 {
        self.connected()
    }

    fn status(&self) -> Status {
        self.status()
    }

    fn begin_group(&mut self, calls: Vec<Asked>) -> Result<PendingGroup, Vec<Asked>> {
        self.begin_group(calls)
    }

    fn syncer(&self) -> Syncer {
        self.syncer()
    }

    fn finish_group(
        &mut self,
        group: PendingGroup,
        answer: SyncAnswer,
    ) -> (Vec<(usize, Reply)>, Vec<Asked>) {
        self.finish_group(group, answer)
    }

    fn has_association(&self, session: u64) -> bool {
        self.has_association(session)
    }

    fn has_unmarked(&self, session: u64) -> bool {
        self.has_unmarked(session)
    }

    fn works_for(&self, session: u64, xid: &Xid) -> bool {
        self.works_for(session, xid)
    }

    fn log_end(&self) -> u64 {
        self.log_end()
    }
}

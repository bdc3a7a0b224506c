use crate::room::Room;
use xa_assoc::ConnectFault;
use xa_disk::{SyncAnswer, Syncer};
use xa_frame::{Reply, Request, Status};
use xa_history::Start;
use xa_manager::{Asked, PendingGroup};
use xa_sequencer::Manages;
use xa_xid::Xid;

/// It answers what its manager does, and each event that this answered is one receipt; the calls of a group are, once it is
/// finished, in the order of their replies.
impl<M: Manages, S: Start> Manages for Room<M, S> {
    ghost use Rattle.std.specs.List.{AllByRecursion};
    ghost use Rattle.xa_manager.specs.Believed.Pending.{calls_of};
    ghost use Rattle.xa_model.specs.Events.{IsAsked};
    ghost use Rattle.xa_room.specs.Believed.Recorded.{recorded};

    ghost manages = { recorded M.manages S.start };

    ghost is_group = { λ r f. M.is_group r.manager f × AllByRecursion (λ c. IsAsked c.request) (calls_of f).items };

    ghost its_syncer = { λ r s. M.its_syncer r.manager s };

    fn connect(&mut self, pending: &Option<PendingGroup>) -> Result<u64, ConnectFault> {
        let session = self.manager.connect(pending);
        self.receipts.note_connect(session);
        session
    }

    fn call(
        &mut self,
        pending: &Option<PendingGroup>,
        session: u64,
        request: Request,
    ) -> Result<Reply, Request> {
        let copy = self.receipts.copied(&request);
        let reply = self.manager.call(pending, session, request)?;
        self.receipts.note_call(session, copy, &reply);
        Ok(reply)
    }

    fn hangup(&mut self, pending: &Option<PendingGroup>, session: u64) -> bool {
        if !self.manager.hangup(pending, session) {
            return false;
        }
        self.receipts.note_hangup(session);
        true
    }

    fn is_connected(&self, session: u64) -> bool {
        self.manager.is_connected(session)
    }

    fn connected(&self) -> u64 {
        self.manager.connected()
    }

    fn status(&self) -> Status {
        self.manager.status()
    }

    fn begin_group(&mut self, calls: Vec<Asked>) -> Result<PendingGroup, Vec<Asked>> {
        self.manager.begin_group(calls)
    }

    fn syncer(&self) -> Syncer {
        self.manager.syncer()
    }

    fn finish_group(
        &mut self,
        group: PendingGroup,
        answer: SyncAnswer,
    ) -> (Vec<(usize, Reply)>, Vec<Asked>) {
        let (replies, calls) = self.manager.finish_group(group, answer);
        self.receipts.note_all(&calls, &replies);
        (replies, calls)
    }

    fn has_association(&self, session: u64) -> bool {
        self.manager.has_association(session)
    }

    fn has_unmarked(&self, session: u64) -> bool {
        self.manager.has_unmarked(session)
    }

    fn works_for(&self, session: u64, xid: &Xid) -> bool {
        self.manager.works_for(session, xid)
    }

    fn log_end(&self) -> u64 {
        self.manager.log_end()
    }
}

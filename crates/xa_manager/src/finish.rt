//! How a pending group is finished: its calls are answered by the sync's answer.
ghost use Rattle.std.specs.Prelude.{◌≡◌};
ghost use Rattle.xa_manager.specs.{Connected.connected_to, Believed.Parts.outcome_of};
ghost use Rattle.xa_manager.specs.Believed.Pending.{HasFinished, IsGroupOf, calls_of};
ghost use Rattle.xa_manager.specs.Once.{AreOnce};

use crate::manager::Manager;
use crate::pending::PendingGroup;
use crate::together::{Asked, tell};
use xa_disk::{Disk, SyncAnswer};
use xa_frame::Reply;

impl<D: Disk> Manager<D> {
    /// Answers the calls of a pending group, by the answer of its sync: each acts as one step at its place in the group.
    /// Returns their replies in the order of the group, each with the place of its call among those that were asked, and
    /// the calls back. For a call that has no reply nothing has been done: it logs nothing, or may not stand in the group.
    /// It has to be called alone afterwards. Takes no memory.
    pub fn finish_group(
        &mut self,
        group: PendingGroup,
        answer: SyncAnswer,
    ) -> (Vec<(usize, Reply)>, Vec<Asked>)
        requires { IsGroupOf self.old group }
        ensures finished { HasFinished D.Disk self.old group result.0.items self.new }
        ensures calls { result.1 ≡ calls_of group }
        ensures once { AreOnce result.0.items }
        ensures outcome { outcome_of self.new ≡ outcome_of self.old }
        ensures company { connected_to self.new ≡ connected_to self.old }
    {
        let PendingGroup {
            calls,
            together,
            replies,
            written,
        } = group;
        let mut replies = replies;
        let became = self.settle(written, answer);
        self.tables.take_together(&together, became);
        self.give_low_water();
        tell(&together.members, became, &mut replies);
        (replies, calls)
    }
}

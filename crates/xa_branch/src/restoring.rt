ghost use Rattle.std.specs.Prelude.{OnOk};
ghost use Rattle.xa_branch.specs.Restored.{RestoresPrepared, RestoresCompleted};

use crate::branches::Branches;
use crate::changes::{add, add_time};
use crate::lasting::Lasting;
use std::alloc::AllocError;
use xa_codes::Direction;
use xa_xid::Xid;

/// How what lasted is restored at a restart or an opening: into branches that are new (`Branches::new`, with 1 for the
/// next timestamp) each prepared branch is put, and each XID that the operator completed, each XID once. If there is
/// no memory nothing is promised of the branches, which then have to be dropped.
impl Branches {
    /// A branch is in doubt, with this timestamp.
    pub fn restore_prepared(&mut self, xid: Xid, timestamp: u64) -> Result<(), AllocError>
        ensures { OnOk result (RestoresPrepared self.old xid timestamp self.new) }
    {
        prove!(self.lasting.len() < usize::MAX);
        add(&mut self.lasting, xid, Lasting::Prepared(timestamp))?;
        add_time(&mut self.times, timestamp)?;
        self.prepared = self.prepared.saturating_add(1);
        Ok(())
    }

    /// The operator completed the branch with this XID, in this direction.
    pub fn restore_completed(&mut self, xid: Xid, direction: Direction) -> Result<(), AllocError>
        ensures { OnOk result (RestoresCompleted self.old xid direction self.new) }
    {
        prove!(self.lasting.len() < usize::MAX);
        add(&mut self.lasting, xid, Lasting::Completed(direction))?;
        self.completed = self.completed.saturating_add(1);
        Ok(())
    }
}

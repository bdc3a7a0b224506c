ghost use Rattle.std.specs.Prelude.{◌≡◌, ◌≤◌, IfOk, option_copied};
ghost use Rattle.xa_limits.specs.declared.TheConstants.{MOST_XIDS};
ghost use Rattle.xa_model.specs.KnownBranches.{branches_by};
ghost use Rattle.xa_manager.specs.{Replies.IsFresh, Tables.TablesFollow};

use crate::tables::Tables;
use std::alloc::AllocError;
use xa_frame::{Body, KnownBranches, Reply};
use xa_xid::Xid;

/// The row of the list of known branches.
impl Tables {
    /// Lists the first `count` of the known branches above this XID, or of all. Nothing changes.
    #[tactic(auto, using(crate::proofs::Replying::branches_fresh))]
    pub fn known_branches(&self, count: u32, after: Option<&Xid>) -> Result<Reply, AllocError>
        requires { count ≤ MOST_XIDS }
        ensures ok { IfOk result
            (λ r. TablesFollow self.now (λ s. branches_by s count (option_copied after.entry)) r self.now) }
        ensures fresh { IfOk result IsFresh }
    {
        let known = self
            .branches
            .known_after(self.alloc, after, count as usize)?;
        Ok(Reply::carrying(Body::Branches(KnownBranches::new(known))))
    }
}

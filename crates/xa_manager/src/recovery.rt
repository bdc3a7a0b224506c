ghost use Rattle.std.specs.Prelude.{◌≡◌, ◌≤◌, IfOk, OnErr, length, false};
ghost use Rattle.xa_limits.specs.declared.TheConstants.{MOST_XIDS};
ghost use Rattle.xa_model.specs.Recovering.{listing, recover_by};
ghost use Rattle.xa_assoc.specs.{Refusals.is_memory, Company.company_of};
ghost use Rattle.xa_branch.specs.Room.{rooms_of};
ghost use Rattle.xa_manager.specs.{Replies.IsFresh, Tables.TablesFollow, Tables.TablesStay};

use crate::tables::Tables;
use std::alloc::AllocError;
use xa_codes::{Code, Detail};
use xa_frame::{Body, Reply, Xids};
use xa_limits::MOST_XIDS;
use xa_xid::Xid;

/// The row of recoveries.
impl Tables {
    /// Lists the next of the branches that are prepared or were completed by the operator, at most `count`.
    #[tactic(auto, using(crate::proofs::Replying::bare_fresh, crate::proofs::Replying::listing_fresh))]
    pub fn recover(&mut self, session: u64, flags: u32, count: u32) -> Result<Reply, AllocError>
        requires { count ≤ MOST_XIDS }
        ensures ok { IfOk result (λ r. TablesFollow self.old (λ s. recover_by s session flags count) r self.new) }
        ensures err { OnErr result (TablesStay self.old self.new) }
        ensures company { company_of self.new.sessions ≡ company_of self.old.sessions }
        ensures rooms { rooms_of self.new.branches ≡ rooms_of self.old.branches }
        ensures fresh { IfOk result IsFresh }
    {
        let cursor = match self.sessions.recover_from(session, flags) {
            Ok(cursor) => cursor,
            Err(reply) => return Ok(reply),
        };
        let xids = self
            .branches
            .list_after(self.alloc, cursor.as_ref(), count as usize)?;
        self.sessions
            .move_scan(session, flags, cursor, xids.as_slice());
        Ok(listing(xids))
    }
}

/// A reply that lists at most `MOST_XIDS`. Its code says how many.
fn listing(xids: Vec<Xid>) -> Reply
    ensures value { length xids.items ≤ MOST_XIDS → result ≡ listing xids.items }
    ensures served { is_memory result.detail ≡ false }
{
    let code = xids.len().min(MOST_XIDS) as Code;
    Reply {
        code,
        detail: Detail::Nothing,
        place: 0,
        body: Body::Xids(Xids::new(xids)),
    }
}

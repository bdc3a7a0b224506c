ghost use Rattle.std.specs.Prelude.{◌≡◌, IfOk, OnErr};
ghost use Rattle.xa_limits.specs.declared.TheConstants.{MOST_VALUE};
ghost use Rattle.xa_model.specs.{State.own_branch, Data.get_by, Data.put_by};
ghost use Rattle.xa_manager.specs.{Changes.items_of, Replies.IsFresh, Tables.TablesFollow, Tables.TablesStay};
ghost use Rattle.xa_assoc.specs.{Company.company_of, Refusals.IsBare};
ghost use Rattle.mv_chain.specs.Within.{IsShort};
ghost use Rattle.mv_rules.specs.Within.{IsKey};
ghost use Rattle.xa_branch.specs.Room.{rooms_of};

use crate::tables::Tables;
use mv_rules::{Got, Put};
use std::alloc::AllocError;
use xa_codes::{Detail, XA_OK, XA_RBTRANSIENT, XA_RETRY, XAER_INVAL, XAER_PROTO};
use xa_fields::Key;
use xa_frame::{Body, Reply};

/// The rows of gets and puts, of the branch that the session is at work for.
impl Tables {
    #[tactic(auto, using(crate::proofs::Replying::get_replies))]
    pub fn get(&mut self, session: u64, key: &Key) -> Result<Reply, AllocError>
        ensures ok { IfOk result
            (λ r. TablesFollow self.old (λ s. get_by s key.now (own_branch s session)) r self.new) }
        ensures err { OnErr result (TablesStay self.old self.new) }
        ensures company { company_of self.new.sessions ≡ company_of self.old.sessions }
        ensures rooms { rooms_of self.new.branches ≡ rooms_of self.old.branches }
        ensures fresh { IfOk result IsFresh }
    {
        let Some((_, working)) = self.own_branch(session) else {
            return Ok(Reply::plain(XAER_PROTO));
        };
        if let Some(code) = working.mark {
            return Ok(Reply::plain(code));
        }
        match self.records.get(working.timestamp, key.as_slice()) {
            Got::Value(value) => Ok(Reply::carrying(Body::Value(value))),
            Got::Absent => Ok(Reply::carrying(Body::Absent)),
            Got::Busy(_) => Ok(Reply::detailed(XA_RETRY, Detail::Busy)),
            Got::Memory => Err(AllocError),
        }
    }

    /// A put, or a delete, which has no value.
    pub fn put(
        &mut self,
        session: u64,
        key: &Key,
        value: Option<Vec<u8>>,
    ) -> Result<Reply, AllocError>
        requires key { IsKey key.now }
        requires value { IsShort MOST_VALUE (items_of value) }
        ensures ok { IfOk result
            (λ r. TablesFollow self.old (λ s. put_by s key.now (items_of value) (own_branch s session)) r self.new) }
        ensures err { OnErr result (TablesStay self.old self.new) }
        ensures company { company_of self.new.sessions ≡ company_of self.old.sessions }
        ensures rooms { rooms_of self.new.branches ≡ rooms_of self.old.branches }
        ensures bare { IfOk result IsBare }
    {
        let Some((xid, working)) = self.own_branch(session) else {
            return Ok(Reply::plain(XAER_PROTO));
        };
        if let Some(code) = working.mark {
            return Ok(Reply::plain(code));
        }
        match self.records.put(working.timestamp, key.as_slice(), value) {
            Put::Done => Ok(Reply::plain(XA_OK)),
            Put::Late => {
                self.mark_branch(&xid, XA_RBTRANSIENT);
                Ok(Reply::detailed(XA_RBTRANSIENT, Detail::Late))
            }
            Put::Limit => Ok(Reply::detailed(XAER_INVAL, Detail::Limit)),
            Put::Memory => Err(AllocError),
        }
    }
}

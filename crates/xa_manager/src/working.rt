//! The calls that log nothing.
ghost use Rattle.std.specs.Prelude.{◌≡◌, IfOk, IsOk, IsSome, OnErr, true, false};
ghost use Rattle.xa_model.specs.{Early.has_wrong_count, Early.has_wrong_moment, Events.IsAsked, Laws.Together.logs_nothing};
ghost use Rattle.xa_assoc.specs.{Company.company_of, Seats.opened_at};
ghost use Rattle.xa_branch.specs.{Branches.moment_of, Room.rooms_of};
ghost use Rattle.xa_manager.specs.{Believed.Answered.may_want, Believed.Pending.quiet_by};
ghost use Rattle.xa_manager.specs.{Replies.IsFresh, Tables.TablesFollow, Tables.TablesStay};

use crate::tables::Tables;
use std::alloc::AllocError;
use xa_frame::{Reply, Request};

/// Whether it is such a call.
pub(crate) fn logs_nothing(request: &Request) -> bool
    ensures { result ≡ logs_nothing request.now }
{
    match request {
        Request::Open { .. }
        | Request::Close { .. }
        | Request::Start { .. }
        | Request::End { .. }
        | Request::Recover { .. }
        | Request::Get { .. }
        | Request::Put { .. }
        | Request::Delete { .. }
        | Request::Doom { .. }
        | Request::Timeout { .. }
        | Request::Tick { .. }
        | Request::Branches { .. } => true,
        Request::Prepare { .. }
        | Request::Commit { .. }
        | Request::Rollback { .. }
        | Request::Forget { .. }
        | Request::Decide { .. }
        | Request::Restart
        | Request::Trim => false,
    }
}

impl Tables {
    /// The row of such a call, of a session that is connected.
    #[tactic(auto, using(crate::proofs::Replying::bare_fresh))]
    pub fn answer_now(&mut self, session: u64, request: Request) -> Result<Reply, AllocError>
        requires quiet { logs_nothing request ≡ true }
        requires connected { IsSome (opened_at self.old.sessions session) }
        requires counted { has_wrong_count request ≡ false }
        requires later { has_wrong_moment (moment_of self.old.branches) request ≡ false }
        requires asked { IsAsked request }
        ensures ok { IfOk result (λ r. TablesFollow self.old (λ s. quiet_by s session request) r self.new) }
        ensures err { OnErr result (TablesStay self.old self.new) }
        ensures memory { may_want request ≡ false → IsOk result }
        ensures company { company_of self.new.sessions ≡ company_of self.old.sessions }
        ensures rooms { rooms_of self.new.branches ≡ rooms_of self.old.branches }
        ensures fresh { IfOk result IsFresh }
    {
        match request {
            Request::Open { info: _info, .. } => Ok(self.open(session)),
            Request::Close { .. } => Ok(self.close(session)),
            Request::Start { flags, xid } => self.start(session, flags, &xid),
            Request::End { flags, xid } => Ok(self.end(session, flags, &xid)),
            Request::Recover { flags, count } => self.recover(session, flags, count),
            Request::Get { key } => self.get(session, &key),
            Request::Put { key, value } => self.put(session, &key, Some(value.into_vec())),
            Request::Delete { key } => self.put(session, &key, None),
            Request::Doom { xid } => Ok(self.doom(&xid)),
            Request::Timeout { seconds } => Ok(self.timeout(session, seconds)),
            Request::Tick { moment } => Ok(self.tick(moment)),
            Request::Branches { count, after } => self.known_branches(count, after.as_ref()),
            _ => unreachable!(),
        }
    }
}

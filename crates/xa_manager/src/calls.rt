ghost use Rattle.std.specs.Prelude.{◌≡◌, IfOk, OnErr, IfSome, IsSome, None, true, false};
ghost use Rattle.xa_model.specs.declared.event.Event.{Event};
ghost use Rattle.xa_model.specs.Early.{call_of, passes_down, has_wrong_count, has_wrong_moment, early_refusal};
ghost use Rattle.xa_model.specs.Events.{IsAsked};
ghost use Rattle.xa_assoc.specs.{Refusals.is_memory, Refusals.IsBare, Seats.opened_at};
ghost use Rattle.xa_branch.specs.Branches.{moment_of};
ghost use Rattle.xa_manager.specs.{Turns.HasDone, Turns.HasWanted, View.context_at, View.view_of, Connected.connected_to, Replies.IsFresh};

use crate::done::Done;
use crate::early::early_refusal;
use crate::manager::Manager;
use crate::row::{Row, Writing};
use std::alloc::AllocError;
use xa_disk::Disk;
use xa_frame::{Reply, Request};

/// The way of a request.
impl<D: Disk> Manager<D> {
    /// How a request of a session is refused before its row is looked at.
    pub(crate) fn refusal(&self, session: u64, request: &Request) -> Option<Reply>
        ensures value { result
            ≡ early_refusal (context_at self.now.up (view_of self.now.tables) session) request.now }
        ensures served { IfSome result (λ r. is_memory r.detail ≡ false) }
        ensures connected { result ≡ None → IsSome (opened_at self.now.tables.sessions session) }
        ensures counted { result ≡ None → has_wrong_count request.now ≡ false }
        ensures later { result ≡ None → has_wrong_moment (moment_of self.now.tables.branches) request.now ≡ false }
        ensures answered { result ≡ None → self.now.up ≡ false → passes_down (call_of request.now) ≡ true }
        ensures bare { IfSome result IsBare }
    {
        let opened = self.tables.sessions.opened_of(session);
        let moment = self.tables.branches.moment();
        early_refusal(self.up, &self.tables.name, moment, opened, request)
    }

    /// Answers a request of a session: the refusals that come before its row, then the row. A manager that is down
    /// gets only to the first three rows.
    pub(crate) fn answer(&mut self, session: u64, request: Request) -> Result<Done, AllocError>
        requires { IsAsked request }
        ensures ok { IfOk result
            (λ d. HasDone D.Disk self.old (Event.Call session request) d.reply d.outcome self.new × IsFresh d.reply) }
        ensures err { OnErr result (HasWanted D.Disk self.old request self.new) }
        ensures outcome { self.new.outcome ≡ self.old.outcome }
        ensures company { connected_to self.new ≡ connected_to self.old }
    {
        if let Some(reply) = self.refusal(session, &request) {
            return Ok(Done::now(reply));
        }
        match request {
            Request::Open { info: _info, .. } => Ok(Done::now(self.tables.open(session))),
            Request::Close { .. } => Ok(Done::now(self.tables.close(session))),
            Request::Restart => self.restarted(),
            Request::Trim => self.trim(),
            Request::Start { flags, xid } => Ok(Done::now(
                self.tables.start(session, flags, &xid)?,
            )),
            Request::End { flags, xid } => Ok(Done::now(self.tables.end(session, flags, &xid))),
            Request::Prepare { xid, .. } => self.log_call(Row::Writes(Writing::Prepare), &xid),
            Request::Commit { flags, xid } => self.log_call(Row::of_commit(flags), &xid),
            Request::Rollback { xid, .. } => self.log_call(Row::Rollback, &xid),
            Request::Forget { xid, .. } => self.log_call(Row::Forget, &xid),
            Request::Recover { flags, count } => Ok(Done::now(
                self.tables.recover(session, flags, count)?,
            )),
            Request::Get { key } => Ok(Done::now(self.tables.get(session, &key)?)),
            Request::Put { key, value } => {
                let value = Some(value.into_vec());
                Ok(Done::now(self.tables.put(session, &key, value)?))
            }
            Request::Delete { key } => Ok(Done::now(self.tables.put(session, &key, None)?)),
            Request::Decide { direction, xid } => self.log_call(Row::Decide(direction), &xid),
            Request::Doom { xid } => Ok(Done::now(self.tables.doom(&xid))),
            Request::Timeout { seconds } => Ok(Done::now(self.tables.timeout(session, seconds))),
            Request::Tick { moment } => Ok(Done::now(self.tables.tick(moment))),
            Request::Branches { count, after } => Ok(Done::now(
                self.tables.known_branches(count, after.as_ref())?,
            )),
        }
    }
}

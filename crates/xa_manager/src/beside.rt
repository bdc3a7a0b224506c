//! What is answered while a group is pending.
ghost use Rattle.std.specs.Prelude.{◌≡◌, ◌==◌, not, pos, IfErr, IfOk, MatchBool, OnErr, true};
ghost use Rattle.std.specs.List.{list_all};
ghost use Rattle.xa_assoc.specs.Company.{Gains, Loses};
ghost use Rattle.xa_frame.specs.Limits.{IsReply};
ghost use Rattle.xa_model.specs.{Answer.plain, Events.IsAsked, Laws.Together.logs_nothing};
ghost use Rattle.xa_model.specs.declared.event.Event.TheVariants as Event;
ghost use Rattle.xa_manager.specs.{Believed.Answered.connect_reply, Connected.connected_to};
ghost use Rattle.xa_manager.specs.Believed.Pending.{AnsweredBeside, AsksNoneOf, CallsApartFrom, IsGroupOf, calls_of};
ghost use Rattle.xa_manager.specs.Replies.{IsFresh};

use crate::manager::Manager;
use crate::pending::PendingGroup;
use crate::replies::memory_code;
use crate::working::logs_nothing;
use xa_assoc::ConnectFault;
use xa_codes::Detail;
use xa_disk::Disk;
use xa_frame::{Reply, Request};
use xa_model::Outcome;

impl PendingGroup {
    /// Whether this session asks for none of its calls, nor for one that was left out of it.
    fn asks_none(&self, session: u64) -> bool
        ensures { result ≡ list_all (λ c. not (c.session == session)) (calls_of self.now).items }
    {
        self.calls.iter().all(|call| call.session != session)
    }
}

impl<D: Disk> Manager<D> {
    /// Whether a session's call logs nothing, and touches neither the group's branches nor the sessions that ask for its
    /// calls. One that lists branches has to wait, since the group's have their rooms among them.
    fn is_apart(&self, group: &PendingGroup, session: u64, request: &Request) -> bool
        ensures is { result ≡ true → (logs_nothing request.now ≡ true)
            × CallsApartFrom self.now session request.now group.now }
        ensures all { logs_nothing request.now ≡ true → CallsApartFrom self.now session request.now group.now
            → result ≡ true }
    {
        match request {
            Request::Open { .. } | Request::Close { .. } => group.asks_none(session),
            Request::Start { xid, .. } | Request::End { xid, .. } | Request::Doom { xid } => {
                group.together.is_apart(xid)
            }
            Request::Tick { moment } => self.tables.marks_none(*moment, &group.together.members),
            Request::Recover { .. } | Request::Branches { .. } => false,
            _ => logs_nothing(request),
        }
    }

    /// Answers a call that logs nothing and lists nothing, if it touches neither the branches of a pending group nor the
    /// sessions that ask for its calls: it names and marks none of these branches, and opens and closes none of these
    /// sessions.
    ///
    /// # Errors
    /// Gives any other request back: it has to wait until the group is finished.
    pub fn call_beside(
        &mut self,
        group: &PendingGroup,
        session: u64,
        request: Request,
    ) -> Result<Reply, Request>
        requires asked { IsAsked request }
        requires group { IsGroupOf self.old group.now }
        ensures ok { IfOk result
            (λ r. AnsweredBeside D.Disk self.old group.now (Event.Call session request) r self.new) }
        ensures fresh { IfOk result IsFresh }
        ensures err { IfErr result (λ given. (given ≡ request) × (self.new ≡ self.old)
            × (logs_nothing request ≡ true → CallsApartFrom self.old session request group.now → ⊥)) }
        ensures group { IsGroupOf self.new group.now }
        ensures company { connected_to self.new ≡ connected_to self.old }
    {
        if !self.is_apart(group, session, &request) {
            return Err(request);
        }
        if let Some(reply) = self.refusal(session, &request) {
            self.outcome = Outcome::Quiet;
            return Ok(reply);
        }
        let code = memory_code(&request);
        let answered = self.tables.answer_now(session, request);
        self.tables.give_low_water();
        match answered {
            Ok(reply) => {
                self.outcome = Outcome::Quiet;
                Ok(reply)
            }
            Err(_) => Ok(Reply::detailed(code, Detail::Memory)),
        }
    }

    /// Connects a session while a group is pending, as `connect` does.
    pub fn connect_beside(&mut self, group: &PendingGroup) -> Result<u64, ConnectFault>
        requires group { IsGroupOf self.old group.now }
        ensures answered { AnsweredBeside D.Disk self.old group.now Event.Connect (connect_reply result) self.new }
        ensures limits { IsReply (connect_reply result) }
        ensures group { IsGroupOf self.new group.now }
        ensures came { IfOk result (λ n. Gains (connected_to self.old) n (connected_to self.new)) }
        ensures same { OnErr result (connected_to self.new ≡ connected_to self.old) }
    {
        match self.tables.connect() {
            Ok(number) => {
                self.outcome = Outcome::Quiet;
                Ok(number)
            }
            Err(ConnectFault::Full) => {
                self.outcome = Outcome::Quiet;
                Err(ConnectFault::Full)
            }
            Err(ConnectFault::Memory) => Err(ConnectFault::Memory),
        }
    }

    /// Hangs a session up while a group is pending, as `hangup` does, unless it asks for one of the group's calls: then
    /// it is false, and nothing changes.
    pub fn hangup_beside(&mut self, group: &PendingGroup, session: u64) -> bool
        requires group { IsGroupOf self.old group.now }
        ensures did { MatchBool result
            (AnsweredBeside D.Disk self.old group.now (Event.Hangup session) (plain (pos 0)) self.new
            × Loses (connected_to self.old) session (connected_to self.new))
            ((self.new ≡ self.old) × (AsksNoneOf session group.now → ⊥)) }
        ensures group { IsGroupOf self.new group.now }
    {
        if !group.asks_none(session) {
            return false;
        }
        self.tables.hangup(session);
        self.outcome = Outcome::Quiet;
        true
    }
}

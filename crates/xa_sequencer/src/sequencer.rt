ghost use Rattle.std.specs.Prelude.{◌≡◌, ◌≢◌, ℕ, [], is_none, None, Some, IfErr, IfNone, IfOk, IfSome, OnErr, OnOk, OnSome};
ghost use Rattle.std.specs.List.{AllByRecursion};
ghost use Rattle.xa_frame.specs.Limits.{IsRequest, IsReply};
ghost use Rattle.xa_manager.specs.Once.{AreOnce};
ghost use Rattle.xa_model.specs.State.{State};
ghost use Rattle.xa_history.specs.{Status.Tells, Believed.Together.IsToldOf};
ghost use Rattle.xa_sequencer.specs.Believed.GroupManager.{alone, pending_of};
ghost use Rattle.xa_sequencer.specs.Manages.{AsksOne};
ghost use Rattle.xa_sequencer.specs.Believed.Numbers.{Called, Connected, Left};
ghost use Rattle.xa_sequencer.specs.Believed.Stands.{AllPromise, HasHistory, Stands};
ghost use Rattle.xa_sequencer.specs.Believed.Together.{CalledTogether, Rests};

use crate::manages::Manages;
use crate::numbers::{are_left, pending_calls};
use crate::together::{hold_all, number_all};
use std::alloc::{AllocError, Global};
use std::fmt;
use std::marker::{Model, PhantomData};
use xa_assoc::ConnectFault;
use xa_disk::{SyncAnswer, Syncer};
use xa_frame::{Reply, Request, Status};
use xa_history::{Start, is_memory, placed};
use xa_limits::MOST_SESSIONS;
use xa_manager::{Asked, PendingGroup, connect_reply, memory_reply, reached_promises};
use xa_xid::Xid;

/// A manager whose events are numbered, from 1 on, with the group that it may have pending. To a contract it is these two as
/// they are now, and the count.
///
/// It stands for a history of that many entries: whichever state the manager stood for, of those that `S` picks, the
/// entries are a legal history from there to a state that the manager stands for now. Each event that found its memory
/// adds the one entry that it is, to whichever history the sequencer stood for. No entry is kept.
#[derive(Drop)]
pub struct Sequencer<M: Manages, S: Start> {
    manager: M,
    pending: Option<PendingGroup>,
    count: u64,
    of: PhantomData<S>,
}

impl<M: Manages, S: Start> Model for Sequencer<M, S> {
    ghost use Rattle.xa_sequencer.specs.{Manages.KeepsPending, Believed.Stands.HasHistory, Believed.Stands.Numbered};
    ghost use Rattle.xa_sequencer.specs.Believed.GroupManager.{GroupManager, HasItsGroup, pending_of};

    ghost Value = { Numbered (GroupManager M) };

    ghost view = { λ s. record { now = record { manager = s.manager; pending = s.pending }; count = s.count } };

    ghost invariant = { λ s. let now : GroupManager M = record { manager = s.manager; pending = s.pending } in
        HasHistory M.manages S.start S.base (record { now = now; count = s.count })
        × KeepsPending M.manages (HasItsGroup M.is_group) (pending_of now) now s.count };
}

impl<M: Manages, S: Start> Sequencer<M, S> {
    /// A sequencer with an empty history.
    pub fn new(manager: M) -> Sequencer<M, S>
        requires start { (s : State) → S.start s → M.manages.stands (alone manager) s }
        requires base { M.manages.failures (alone manager) ≡ S.base }
        ensures is { result ≡ record { now = alone manager; count = 0 } }
        ensures stands { Stands M.manages S.start S.base result [] }
    {
        // a number is left for the hang-up of each
        let _sessions = manager.connected();
        Sequencer {
            manager,
            pending: None,
            count: 0,
            of: PhantomData,
        }
    }

    /// Connects a session, also while a group is pending.
    pub fn connect(&mut self) -> Result<u64, ConnectFault>
        ensures connected { Connected M.manages S.start S.base self.old result self.new }
        ensures pending { pending_of self.new.now ≡ pending_of self.old.now }
    {
        let taken = self.count + pending_calls(&self.pending);
        // one more for its hang-up
        if !are_left(taken, self.manager.connected(), 2) {
            return Err(ConnectFault::Memory);
        }
        let session = self.manager.connect(&self.pending);
        if is_memory(&connect_reply(session)) {
            return session;
        }
        self.count += 1;
        session
    }

    /// Answers a request of a session: while a group is pending, one that leaves the group as it is. The reply has its
    /// number, unless memory ran out: then it has none, and there is no entry.
    ///
    /// # Errors
    /// Gives any other request back then, and this one if there is no number left: it has to wait until the group is
    /// finished.
    pub fn call(&mut self, session: u64, request: Request) -> Result<Reply, Request>
        requires { IsRequest request }
        ensures called { IfOk result (λ reply. Called M.manages S.start S.base session self.old request reply self.new) }
        ensures limits { IfOk result IsReply }
        ensures back { IfErr result (λ given. (given ≡ request) × (self.new ≡ self.old)) }
        ensures answers { OnErr result (pending_of self.old.now ≢ None) }
        ensures pending { pending_of self.new.now ≡ pending_of self.old.now }
    {
        request.hold();
        // the pending calls have theirs
        let taken = self.count + pending_calls(&self.pending);
        if !are_left(taken, self.manager.connected(), 1) {
            if self.pending.is_none() {
                return Ok(memory_reply(&request));
            }
            return Err(request);
        }
        let reply = self.manager.call(&self.pending, session, request)?;
        if is_memory(&reply) {
            return Ok(reply);
        }
        self.count += 1;
        Ok(placed(reply, self.count))
    }

    /// Writes the records of those calls of sessions that may share one append: then they are a group that is pending, until
    /// it is finished with the answer of the sync that the `syncer` makes. Meanwhile others are answered.
    ///
    /// # Errors
    /// Gives the calls back if none of them logs, out of memory, or if there aren't numbers left for all of them.
    pub fn begin_group(&mut self, calls: Vec<Asked>) -> Result<(), Vec<Asked>>
        requires settled { pending_of self.old.now ≡ None }
        requires limits { AllByRecursion (λ c. IsRequest c.request) calls.items }
        ensures rests { Rests M.manages S.start S.base self.old self.new }
        ensures pending { OnOk result (pending_of self.new.now ≡ Some calls.items) }
        ensures back { IfErr result (λ given. (given ≡ calls) × (pending_of self.new.now ≡ None)) }
    {
        hold_all(&calls);
        let many = calls.len() as u64;
        if !are_left(self.count, self.manager.connected(), many) {
            return Err(calls);
        }
        self.pending = Some(self.manager.begin_group(calls)?);
        Ok(())
    }

    /// What makes the sync of the pending group.
    pub fn syncer(&self) -> Syncer
        ensures { M.its_syncer self.now.now.manager result }
    {
        self.manager.syncer()
    }

    /// Answers the calls of the pending group, by the answer of its sync. Returns their replies, with their numbers, in the
    /// order in which they were answered, each with the place of its call among those that were asked, and the calls back.
    /// For a call that has no reply nothing has been done: it has to be called alone afterwards. Takes no memory.
    pub fn finish_group(&mut self, answer: SyncAnswer) -> (Vec<(usize, Reply)>, Vec<Asked>)
        requires { pending_of self.old.now ≢ None }
        ensures called { CalledTogether M.manages S.start S.base self.old result.1.items result.0.items self.new }
        ensures calls { pending_of self.old.now ≡ Some result.1.items }
        ensures told { AllByRecursion (IsToldOf result.1.items) result.0.items }
        ensures once { AreOnce result.0.items }
        ensures limits { AllByRecursion (λ c. IsRequest c.request) result.1.items }
        ensures settled { pending_of self.new.now ≡ None }
    {
        let Some(group) = self.pending.take() else {
            unreachable!()
        };
        let (mut replies, calls) = self.manager.finish_group(group, answer);
        number_all(&mut replies, self.count);
        self.count += replies.len() as u64;
        (replies, calls)
    }

    /// Whether no group is pending.
    pub fn is_settled(&self) -> bool
        ensures { result ≡ is_none (pending_of self.now.now) }
    {
        self.pending.is_none()
    }

    /// Hangs a session up, and says whether it was connected. One that asks for a call of the pending group has to wait
    /// until that is finished: then this is None, and nothing changes.
    pub fn hangup(&mut self, session: u64) -> Option<bool>
        ensures was { IfSome result (λ was. was ≡ M.manages.has_session self.old.now session) }
        ensures left { OnSome result (Left M.manages S.start S.base session self.old self.new) }
        ensures waits { IfNone result ((self.new ≡ self.old) × AsksOne session (pending_of self.old.now)) }
        ensures pending { pending_of self.new.now ≡ pending_of self.old.now }
    {
        if !self.manager.is_connected(session) {
            return Some(false);
        }
        if !self.manager.hangup(&self.pending, session) {
            return None;
        }
        self.count += 1;
        Some(true)
    }

    /// How the manager is doing, with how many events were numbered: while a group is pending, as before it. Changes
    /// nothing, and has no number.
    pub fn status(&self) -> Status
        ensures { Tells M.manages self.now.now self.now.count result }
    {
        Status {
            calls: self.count,
            ..self.manager.status()
        }
    }

    /// How many events were numbered.
    pub fn count(&self) -> u64
        ensures { result ≡ self.now.count }
    {
        self.count
    }

    /// The manager.
    pub fn into_manager(self) -> M
    where
        M: Drop,
        ensures { result ≡ self.now.manager }
    {
        let Sequencer { manager, .. } = self;
        manager
    }

    /// There is a history that it stands for, and each one keeps what is promised: the committed branches read what they
    /// read as if each had been executed alone, in the order of timestamps; what was answered as prepared is listed by
    /// recovery until its completion is asked for, and what was completed isn't until it is prepared again. It does
    /// nothing.
    pub fn promises(&self)
        ensures history { HasHistory M.manages S.start S.base self.now }
        ensures promises { AllPromise M.manages S.start S.base self.now }
    {
        reached_promises();
        let _count = self.count;
    }
}

impl<M: Manages, S: Start> Sequencer<M, S> {
    ghost use Rattle.xa_sequencer.specs.Associates.{AreSessions, IsAssociated, IsLogEnd, IsUnmarked};

    /// Whether a session has an association of its own.
    pub fn has_association(&self, session: u64) -> bool
        ensures { IsAssociated M.manages.stands self.now.now session result }
    {
        self.manager.has_association(session)
    }

    /// Whether a session has an association of its own with a branch that isn't marked; while the manager is down, with any.
    pub fn has_unmarked(&self, session: u64) -> bool
        ensures { IsUnmarked M.manages.stands self.now.now session result }
    {
        self.manager.has_unmarked(session)
    }

    /// The sessions that have an association of their own with this branch, ascending.
    #[tactic(auto, unfolding(crate::specs::Associates::sessions_up_to))]
    pub fn sessions_of(&self, alloc: Global, xid: &Xid) -> Result<Vec<u64>, AllocError>
        ensures { IfOk result (λ v. AreSessions M.manages.stands self.now.now xid.now v.items) }
    {
        let mut sessions = Vec::new(alloc);
        for before in 0..MOST_SESSIONS as u64 {
            let session = before + 1;
            if self.manager.works_for(session, xid) {
                sessions.push(session)?;
            }
        }
        Ok(sessions)
    }

    /// Where the log's next record begins, while the manager is up: while a group is pending, its first one.
    pub fn log_end(&self) -> u64
        ensures { IsLogEnd M.manages.stands self.now.now result }
    {
        self.manager.log_end()
    }
}

/// Shows how many events were numbered.
impl<M: Manages, S: Start> fmt::Debug for Sequencer<M, S> {
    fn fmt<W: fmt::Write>(&self, f: &mut fmt::Formatter<W>) -> fmt::Result {
        f.debug_struct("Sequencer")
            .field("count", &self.count)
            .finish_non_exhaustive()
    }
}

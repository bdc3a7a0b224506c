ghost use Rattle.std.specs.Prelude.{◌≡◌, pos, IfOk, OnErr};
ghost use Rattle.std.specs.List.{list_any};
ghost use Rattle.xa_model.specs.Events.{IsAsked, AreEvents, IsEvent};
ghost use Rattle.xa_log.specs.Believed.TwoFiles.{first_of, second_of};
ghost use Rattle.xa_model.specs.{Answer.plain, Associations.is_of_session, State.State, State.Up, State.owns};
ghost use Rattle.xa_manager.specs.Managed.{ManagerStandsFor};
ghost use Rattle.xa_manager.specs.Believed.Answered.{FullyAnswered, AnswersAll, ArePinned, RunsAll, StaysFor, connect_reply};
ghost use Rattle.xa_assoc.specs.Company.{Gains, Loses};
ghost use Rattle.xa_manager.specs.{Drained.HasGivenBack, Connected.connected_to};
ghost use Rattle.xa_manager.specs.{Believed.Promises.PromisesAll, Believed.Counted.CountsAll, Believed.Parts.log_of};
ghost use Rattle.xa_manager.specs.{Believed.Parts.outcome_of, Believed.Pending.IsPending, Status.versions_of, Unmarked.has_unmarked};
ghost use Rattle.xa_manager.specs.declared.pending.PendingGroup.{PendingGroup};
ghost use Rattle.xa_frame.specs.Limits.{IsReply};

use crate::done::Done;
use crate::doubt::Doubt;
use crate::replies::{connect_reply, memory_code};
use crate::tables::Tables;
use std::alloc::AllocError;
use xa_assoc::ConnectFault;
use xa_codes::{Detail, XA_OK};
use xa_disk::Disk;
use xa_frame::{Reply, Request};
use xa_log::Log;
use xa_model::{Event, Outcome};
use xa_xid::Xid;

/// A resource manager of C193 over a log on two disks, that orders reads and writes by multiversion timestamp ordering
/// (Bernstein, Hadzilacos and Goodman, 5.3).
///
/// Whatever state of the sequential resource manager it stood for before a call, it answers as that manager's step and
/// then stands for the step's new state. If memory ran out, it stands for whatever it stood for.
#[derive(Debug, Drop)]
pub struct Manager<D> {
    pub(crate) tables: Tables,
    pub(crate) log: Log<D>,
    /// Whether anything is answered but Open, Close, Restart, connects and hang-ups.
    pub(crate) up: bool,
    pub(crate) doubt: Option<Doubt>,
    pub(crate) outcome: Outcome,
}

impl<D: Disk> Manager<D> {
    /// Connects a session, whose number is the least from 1 that is free. `Full` comes if 1,024 are connected,
    /// `Memory` if there was no memory; neither changes what the manager stands for.
    pub fn connect(&mut self) -> Result<u64, ConnectFault>
        ensures answered { FullyAnswered D.Disk self.old Event.Connect (connect_reply result) self.new }
        ensures came { IfOk result (λ n. Gains (connected_to self.old) n (connected_to self.new)) }
        ensures same { OnErr result (connected_to self.new ≡ connected_to self.old) }
        ensures limits { IsReply (connect_reply result) }
    {
        match self.tables.connect() {
            Ok(number) => {
                self.outcome = Outcome::Quiet;
                Ok(number)
            }
            Err(ConnectFault::Full) => {
                self.outcome = Outcome::Quiet;
                Err(ConnectFault::Full)
            }
            Err(ConnectFault::Memory) => Err(ConnectFault::Memory),
        }
    }

    /// Answers a request of a session, by its number, with a code of C193. The reply has place 0. Its detail is Memory
    /// if there was no memory: then the code is XAER_RMFAIL, and nothing changed. Open, Close, End, a commit in two
    /// phases, Rollback, Forget, Decide, Doom, Timeout and Tick take no memory. After each call the records have given back
    /// what the low water frees.
    #[tactic(auto, using(crate::proofs::Replying::bare_fresh))]
    pub fn call(&mut self, session: u64, request: Request) -> Reply
        requires { IsAsked request }
        ensures answered { FullyAnswered D.Disk self.old (Event.Call session request) result self.new }
        ensures connected { connected_to self.new ≡ connected_to self.old }
        ensures drained { HasGivenBack self.new }
        ensures place { result.place ≡ 0 }
        ensures limits { IsReply result }
    {
        let code = memory_code(&request);
        let answered = self.answer(session, request);
        self.give_low_water();
        match answered {
            Ok(done) => {
                self.outcome = done.outcome;
                done.reply
            }
            Err(_) => Reply::detailed(code, Detail::Memory),
        }
    }

    /// Hangs a session up: each association of its own ends, and the branch is marked XA_RBCOMMFAIL unless it is
    /// marked. The session's number is free again. If the session isn't connected, nothing changes. Takes no memory.
    pub fn hangup(&mut self, session: u64)
        ensures answered { FullyAnswered D.Disk self.old (Event.Hangup session) (plain (pos 0)) self.new }
        ensures gone { Loses (connected_to self.old) session (connected_to self.new) }
    {
        self.tables.hangup(session);
        self.outcome = Outcome::Quiet;
    }

    /// What the device did in the last connect, call, hang-up or restart that found its memory; Quiet before the first.
    pub fn outcome(&self) -> Outcome
        ensures { result ≡ outcome_of self.now }
    {
        self.outcome
    }

    /// Whether a session with this number is connected.
    pub fn is_connected(&self, session: u64) -> bool
        ensures { result ≡ (connected_to self.now).has session }
    {
        self.tables.sessions.is_connected(session)
    }

    /// How many sessions are connected.
    pub fn connected(&self) -> u64
        ensures { result ≡ (connected_to self.now).count }
    {
        self.tables.sessions.connected() as u64
    }

    /// Whether a session has an association of its own: it is at work for a branch, or has suspended its work for one.
    pub fn has_association(&self, session: u64) -> bool
        ensures alone { (s : State) → ManagerStandsFor D.Disk self.now s
            → result ≡ list_any (is_of_session session) s.associations }
        ensures beside { (f : PendingGroup) (s : State) → IsPending D.Disk self.now f s
            → result ≡ list_any (is_of_session session) s.associations }
    {
        self.tables.sessions.holds_any(session)
    }

    /// Whether a session has an association of its own with a branch that isn't marked, and so may still commit. While the
    /// manager is down no mark counts.
    pub fn has_unmarked(&self, session: u64) -> bool
        ensures alone { (s : State) → ManagerStandsFor D.Disk self.now s → result ≡ has_unmarked session s }
        ensures beside { (f : PendingGroup) (s : State) → IsPending D.Disk self.now f s → result ≡ has_unmarked session s }
    {
        if self.up {
            self.tables.has_unmarked(session)
        } else {
            self.tables.sessions.holds_any(session)
        }
    }

    /// Whether a session has an association of its own with this branch.
    pub fn works_for(&self, session: u64, xid: &Xid) -> bool
        ensures alone { (s : State) → ManagerStandsFor D.Disk self.now s
            → result ≡ list_any (owns session xid.now) s.associations }
        ensures beside { (f : PendingGroup) (s : State) → IsPending D.Disk self.now f s
            → result ≡ list_any (owns session xid.now) s.associations }
    {
        self.tables.sessions.owns(session, xid)
    }

    /// Where the log's next record begins, if the manager is up: while a group is pending, its first one.
    pub fn log_end(&self) -> u64
        ensures alone { (s : State) → ManagerStandsFor D.Disk self.now s → s.standing ≡ Up → result ≡ s.end }
        ensures beside { (f : PendingGroup) (s : State) → IsPending D.Disk self.now f s → result ≡ s.end }
    {
        self.log.end()
    }

    /// How many versions of all keys are kept, with one for the absence of each key that a branch found absent or was
    /// the first to write. Those that nobody can read are dropped as the calls go on.
    pub fn versions(&self) -> u64
        ensures { result ≡ versions_of self.now }
    {
        self.tables.records.versions()
    }

    /// Whether the log's current file is the first one.
    pub fn on_first(&self) -> bool
        ensures { result ≡ (log_of self.now).on_first }
    {
        self.log.on_first()
    }

    /// Gives the two disks back, the first one first.
    pub fn into_disks(self) -> (D, D)
        ensures { result ≡ (first_of (log_of self), second_of (log_of self)) }
    {
        self.log.into_disks()
    }

    /// Gives the records the low water, once a request is answered: the tables' change, said of a manager that is up or
    /// down. Connects and hang-ups leave the low water as it is.
    pub(crate) fn give_low_water(&mut self)
        ensures stays { StaysFor D.Disk self.old self.new }
        ensures log { log_of self.new ≡ log_of self.old }
        ensures outcome { outcome_of self.new ≡ outcome_of self.old }
        ensures drained { HasGivenBack self.new }
        ensures company { connected_to self.new ≡ connected_to self.old }
    {
        self.tables.give_low_water();
    }

    /// One event, with the reply that stands for it.
    fn happen(&mut self, event: Event) -> Reply
        requires { IsEvent event }
        ensures { FullyAnswered D.Disk self.old event result self.new }
    {
        match event {
            Event::Connect => connect_reply(self.connect()),
            Event::Hangup(session) => {
                self.hangup(session);
                Reply::plain(XA_OK)
            }
            Event::Call(session, request) => self.call(session, request),
        }
    }

    /// Answers events in order. Those that found their memory are a legal history with their replies. If what went
    /// before is a legal history too, from an opening on, then the committed branches, by timestamp, read what they
    /// would read one at a time on one copy of the records; and each branch that was answered as prepared is listed
    /// until its completion is asked for.
    ///
    /// A connect answers 0 with its number, XAER_RMERR with detail Limit if no more may connect, or XAER_RMFAIL with
    /// detail Memory. A hang-up answers 0. Room for the replies is made first; if there is none, nothing changes.
    pub fn drive(&mut self, events: Vec<Event>) -> Result<Vec<Reply>, AllocError>
        requires { AreEvents events.items }
        ensures history { IfOk result (λ replies. AnswersAll D.Disk self.old events.items replies.items self.new) }
        ensures promises { IfOk result (λ replies. PromisesAll D.Disk self.old events.items replies.items self.new) }
        // What is said of a single call is said of each, what a crash at any moment of it leaves among it.
        ensures each { IfOk result (λ replies. RunsAll D.Disk self.old events.items replies.items self.new) }
        // The outcomes of that history report no more failures than the disks counted.
        ensures counted { IfOk result (λ replies. CountsAll D.Disk self.old events.items replies.items self.new) }
        ensures pinned { IfOk result (λ replies. ArePinned events.items replies.items) }
        ensures err { OnErr result (StaysFor D.Disk self.old self.new) }
    {
        let mut replies = Vec::with_capacity(self.tables.alloc, events.len())?;
        for event in events {
            let reply = self.happen(event);
            replies.push_reserved(reply);
        }
        Ok(replies)
    }
}

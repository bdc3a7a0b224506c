use xa_assoc::ConnectFault;
use xa_disk::{SyncAnswer, Syncer};
use xa_frame::{Reply, Request, Status};
use xa_manager::{Asked, PendingGroup};
use xa_xid::Xid;

/// What is asked of a manager whose events are numbered. Each event is a step of the sequential resource manager, from
/// whichever state it stood for; if memory ran out, it stands for whatever it stood for.
///
/// It commits in groups: the sync of one may be left to whoever has its syncer. Whoever asks keeps the pending group, and
/// hands it in: meanwhile the manager stands for the states before the group, and answers what leaves that as it is.
pub trait Manages {
    ghost use Rattle.std.specs.Prelude.{◌≡◌, ◌≢◌, ◌+◌, pos, true, None, IfErr, IfOk, MatchBool, MatchResult, OnErr, Option};
    ghost use Rattle.std.specs.List.{AllByRecursion};
    ghost use Rattle.xa_disk.specs.declared.syncer.Syncer.{Syncer};
    ghost use Rattle.xa_frame.specs.Limits.{IsReply};
    ghost use Rattle.xa_model.specs.{Answer.plain, Events.IsAsked, State.State};
    ghost use Rattle.xa_model.specs.declared.event.Event.TheVariants as Event;
    ghost use Rattle.xa_manager.specs.{Believed.Answered.connect_reply, Believed.Pending.calls_of, Once.AreOnce};
    ghost use Rattle.xa_manager.specs.Status.{status_of};
    ghost use Rattle.xa_manager.specs.declared.pending.PendingGroup.{PendingGroup};
    ghost use Rattle.xa_history.specs.Believed.{Manages.Acts, Manages.Behaviour, Together.AnswersNone, Together.AnswersTogether};
    ghost use Rattle.xa_sequencer.specs.Associates.{IsAssociated, IsLogEnd, IsUnmarked, WorksFor};
    ghost use Rattle.xa_sequencer.specs.Believed.GroupManager.{GroupManager, IsItsGroup, alone, beside, calls_in, with_group};
    ghost use Rattle.xa_sequencer.specs.Manages.{AsksOne};

    /// What it is, with the group that it may have pending.
    ghost manages: { Behaviour (GroupManager Self) };

    /// It has what it needs to finish a group.
    ghost is_group: { Self → PendingGroup → Type 0 };

    /// What makes the sync of a pending group.
    ghost its_syncer: { Self → Syncer → Type 0 };

    /// Connects a session.
    fn connect(&mut self, pending: &Option<PendingGroup>) -> Result<u64, ConnectFault>
        requires { IsItsGroup is_group self.old pending.now }
        ensures acts { Acts manages
            (with_group self.old pending.now) Event.Connect (connect_reply result) (with_group self.new pending.now) }
        ensures group { IsItsGroup is_group self.new pending.now }
        ensures sessions { MatchResult result
            (λ _. manages.sessions (with_group self.new pending.now) ≡ manages.sessions (with_group self.old pending.now) + 1)
            (λ _. manages.sessions (with_group self.new pending.now) ≡ manages.sessions (with_group self.old pending.now)) };

    /// Answers a session's call.
    ///
    /// # Errors
    /// Gives the request back, and nothing changes, if it has to wait until the pending group is finished.
    fn call(
        &mut self,
        pending: &Option<PendingGroup>,
        session: u64,
        request: Request,
    ) -> Result<Reply, Request>
        requires asked { IsAsked request }
        requires group { IsItsGroup is_group self.old pending.now }
        ensures acts { IfOk result (λ reply. Acts manages
            (with_group self.old pending.now) (Event.Call session request) reply (with_group self.new pending.now)) }
        ensures limits { IfOk result IsReply }
        ensures place { IfOk result (λ reply. reply.place ≡ 0) }
        ensures back { IfErr result (λ given. (given ≡ request) × (self.new ≡ self.old)) }
        ensures answers { OnErr result (calls_in pending.now ≢ None) }
        ensures group { IsItsGroup is_group self.new pending.now }
        ensures sessions { manages.sessions (with_group self.new pending.now)
            ≡ manages.sessions (with_group self.old pending.now) };

    /// Hangs a session up, unless it asks for one of the pending group's calls: then it is false, and nothing changes.
    fn hangup(&mut self, pending: &Option<PendingGroup>, session: u64) -> bool
        requires { IsItsGroup is_group self.old pending.now }
        ensures did { MatchBool result
            (Acts manages
            (with_group self.old pending.now) (Event.Hangup session) (plain (pos 0)) (with_group self.new pending.now))
            ((self.new ≡ self.old) × AsksOne session (calls_in pending.now)) }
        ensures group { IsItsGroup is_group self.new pending.now }
        ensures sessions { result ≡ true → manages.has_session (with_group self.old pending.now) session ≡ true
            → manages.sessions (with_group self.new pending.now) + 1
            ≡ manages.sessions (with_group self.old pending.now) };

    /// Whether a session is connected.
    fn is_connected(&self, session: u64) -> bool
        ensures { (pending : Option PendingGroup) → result ≡ manages.has_session (with_group self.now pending) session };

    /// How many sessions are connected.
    fn connected(&self) -> u64
        ensures { (pending : Option PendingGroup) → result ≡ manages.sessions (with_group self.now pending) };

    /// How it is doing, whether a group is pending or not.
    fn status(&self) -> Status
        ensures { (pending : Option PendingGroup) (s : State) → manages.stands (with_group self.now pending) s
            → result ≡ status_of s (manages.versions (with_group self.now pending)) };

    /// Writes the records of those calls that may share an append, and leaves the sync to whoever has the `syncer`: then
    /// the group is pending. All memory that finishing it needs is taken before the write.
    ///
    /// # Errors
    /// Gives the calls back if none of them logs, or out of memory.
    fn begin_group(&mut self, calls: Vec<Asked>) -> Result<PendingGroup, Vec<Asked>>
        requires { AllByRecursion (λ c. IsAsked c.request) calls.items }
        ensures begun { IfOk result (λ group. AnswersNone manages (alone self.old) (beside self.new group)) }
        ensures group { IfOk result (λ group. is_group self.new group × (calls_of group ≡ calls)) }
        ensures rests { OnErr result (AnswersNone manages (alone self.old) (alone self.new)) }
        ensures back { IfErr result (λ given. given ≡ calls) }
        ensures sessions { (before after : Option PendingGroup)
            → manages.sessions (with_group self.new after) ≡ manages.sessions (with_group self.old before) };

    /// What makes the sync of the pending group.
    fn syncer(&self) -> Syncer
        ensures { its_syncer self.now result };

    /// Answers the pending group's calls, by the answer of its sync: returns the replies in the order in which they were
    /// answered, each with the place of its call among those that were asked, and the calls back. For a call that has no
    /// reply nothing has been done. Takes no memory.
    fn finish_group(
        &mut self,
        group: PendingGroup,
        answer: SyncAnswer,
    ) -> (Vec<(usize, Reply)>, Vec<Asked>)
        requires { is_group self.old group }
        ensures acts { AnswersTogether manages (beside self.old group) result.1.items result.0.items (alone self.new) }
        ensures calls { result.1 ≡ calls_of group }
        ensures once { AreOnce result.0.items }
        ensures sessions { (before after : Option PendingGroup)
            → manages.sessions (with_group self.new after) ≡ manages.sessions (with_group self.old before) };

    /// Whether a session has an association of its own with a branch: it is at work for it, or has suspended that.
    fn has_association(&self, session: u64) -> bool
        ensures { (pending : Option PendingGroup)
            → IsAssociated manages.stands (with_group self.now pending) session result };

    /// Whether a session has an association of its own with a branch that isn't marked; while the manager is down, with any.
    fn has_unmarked(&self, session: u64) -> bool
        ensures { (pending : Option PendingGroup)
            → IsUnmarked manages.stands (with_group self.now pending) session result };

    /// Whether a session has an association of its own with this branch.
    fn works_for(&self, session: u64, xid: &Xid) -> bool
        ensures { (pending : Option PendingGroup)
            → WorksFor manages.stands (with_group self.now pending) session xid.now result };

    /// Where the log's next record begins, while the manager is up: with a group pending, its first one.
    fn log_end(&self) -> u64
        ensures { (pending : Option PendingGroup) → IsLogEnd manages.stands (with_group self.now pending) result };
}

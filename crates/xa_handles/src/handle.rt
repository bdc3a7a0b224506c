ghost use Rattle.std.specs.Prelude.{ℕ, ◌≡◌, ◌≢◌, ◌⊎◌, ◌+◌, ◌<◌, [], is_none, IfErr, IfOk, MatchOption, None, OnErr};
ghost use Rattle.xa_assoc.specs.Refusals.{is_memory};
ghost use Rattle.xa_frame.specs.{Limits.IsReply, Limits.IsRequest, declared.request.Request.Request};
ghost use Rattle.xa_handles.specs.Believed.Accounts.{Ends, Posts, asking, next_ask, told_of};
ghost use Rattle.xa_handles.specs.{Believed.Standing.LeavesMail, Mail.IsCall, Mail.put_at};
ghost use Rattle.xa_handles.specs.Believed.Shared.{CalledBy, ConnectedBy, DidCall, IsTold, LeftBy};
ghost use Rattle.xa_model.specs.declared.event.Event.TheVariants as Event;
ghost use Rattle.xa_sequencer.specs.{Associates.AssociatedBy, Associates.AttachedBy, Associates.EndedBy, Associates.UnmarkedBy, Believed.GroupManager.pending_of};
ghost use Rattle.xa_tokens.specs.{Believed.Account.Account, Believed.Account.Owes, Believed.Receipts.IsInOrder};

use crate::asker::Asker;
use crate::held::Held;
use crate::letter::{Content, Letter};
use crate::shared::SharedSequencer;
use crate::tally::Tally;
use std::alloc::{AllocError, Global};
use std::fmt;
use std::rt::Clock;
use std::sync::Wait;
use xa_assoc::ConnectFault;
use xa_desk::Door;
use xa_frame::{Reply, Request, Status};
use xa_history::Start;
use xa_model::Event;
use xa_sequencer::Manages;
use xa_tokens::{Answered, Ask, Book, Posted, Share};
use xa_waits::take;
use xa_xid::Xid;

/// How many letters a handle has out at most, for which its tray has room: as many as sessions may be connected.
const ROOM: usize = 1_024;

/// A thread's handle of a sequencer that it shares with others: a door, with the account of what was asked at it.
#[derive(Drop)]
pub struct Handle<'a, M: Manages, S: Start, B: Book, R> {
    rt: &'a R,
    sequencer: &'a SharedSequencer<M, S, B>,
    /// What it counts of the groups whose sync it makes.
    tally: &'a Tally,
    pub asker: Asker<'a, B>,
    tray: usize,
    /// How many of the calls that it posted are still unanswered.
    owed: usize,
    alloc: Global,
    pub ghost owes: { Owes asker owed },
}

impl<'a, M: Manages, S: Start, B: Book, R: Clock + Wait> Handle<'a, M, S, B, R> {
    /// With a share with which nothing was asked yet.
    ///
    /// # Errors
    /// Out of memory.
    pub fn new(
        rt: &'a R,
        sequencer: &'a SharedSequencer<M, S, B>,
        tally: &'a Tally,
        share: Share<B>,
        alloc: Global,
    ) -> Result<Handle<'a, M, S, B, R>, AllocError>
        requires some { 0 < share.parts }
        requires told { share.told ≡ [] }
        requires owes { Owes share 0 }
        ensures asker { IfOk result (λ handle. handle.asker ≡ share) }
        ensures owes { IfOk result (λ handle. Owes handle.asker 0) }
    {
        let tray = sequencer.hold(rt).locked.add_tray(ROOM)?;
        Ok(Handle {
            rt,
            sequencer,
            tally,
            asker: Asker::new(&sequencer.tokens, share),
            tray,
            owed: 0,
            alloc,
        })
    }

    /// Connects a session. Tells how many events there were then: the place of this one, unless memory ran out.
    pub fn connect(&mut self) -> (Result<u64, ConnectFault>, u64)
        ensures { ConnectedBy M.manages S.start S.base self.old.asker result.0 self.new.asker }
    {
        let sequencer = self.sequencer;
        let mut locked = sequencer.take(self.rt);
        let session = locked.connect(&sequencer.tokens, &mut self.asker);
        (session, locked.count())
    }

    /// Hangs a session up, if it is connected, which it tells, and how many events there were then: if it was, the place of
    /// this one.
    pub fn hangup(&mut self, session: u64) -> (bool, u64)
        ensures { LeftBy M.manages S.start S.base session self.old.asker result.0 self.new.asker }
    {
        let sequencer = self.sequencer;
        let mut locked = sequencer.take(self.rt);
        let left = locked.hangup(&sequencer.tokens, &mut self.asker, session);
        let place = locked.count();
        drop(locked);
        match left {
            Some(was_connected) => (was_connected, place),
            None => hang_up_settled(self.rt, sequencer, &mut self.asker, session),
        }
    }

    /// Takes the lock for several calls, with nothing of other threads in between. Other threads that ask wait until it is
    /// released: so does this handle, if it is asked otherwise.
    pub fn hold(&self) -> Held<'a, M, S, B> {
        let sequencer = self.sequencer;
        sequencer.hold(self.rt)
    }

    /// Answers a request of a session, under the lock that was taken. Returns the lock, unless the request had to wait until
    /// the pending group was finished.
    pub fn call_held(
        &mut self,
        held: Held<'a, M, S, B>,
        session: u64,
        request: Request,
    ) -> (Reply, Option<Held<'a, M, S, B>>)
        requires { IsRequest request }
        ensures called { CalledBy M.manages S.start S.base session self.old.asker request result.0 self.new.asker }
        ensures limits { IsReply result.0 }
    {
        let posted = ask(&mut self.asker, session, request);
        carry_out(self.rt, self.sequencer, &mut self.asker, held, posted)
    }

    /// The same of a request that doesn't wait.
    ///
    /// # Errors
    /// Gives it back, as if it hadn't been asked, if it has to wait until the pending group is finished.
    pub fn call_now(
        &mut self,
        held: &mut Held<'a, M, S, B>,
        session: u64,
        request: Request,
    ) -> Result<Reply, Request>
        requires { IsRequest request }
        ensures called { IfOk result (λ reply. CalledBy M.manages S.start S.base session self.old.asker request reply self.new.asker) }
        ensures limits { IfOk result IsReply }
        ensures back { IfErr result (λ given. (given ≡ request) × (self.new ≡ self.old)) }
        ensures waits { OnErr result (pending_of held.old.at.now ≢ None) }
        ensures mail { LeavesMail held.old held.new }
    {
        let tokens = &self.sequencer.tokens;
        let posted = ask(&mut self.asker, session, request);
        let posted = match held.locked.call(tokens, &mut self.asker, posted) {
            Ok(reply) => return Ok(reply),
            Err(posted) => posted,
        };
        Err(withdraw(&mut self.asker, posted))
    }

    /// Posts a copy of a call: whichever thread has the lock may answer it, as one of a group that shares an append. It
    /// comes back as a letter, answered or not, with this place. If there is no memory, or too much is out already, it
    /// isn't posted.
    pub fn post(&mut self, place: usize, session: u64, request: &Request)
        requires { IsRequest request.now }
        ensures { (self.new ≡ self.old) ⊎ Posts self.old.asker (Event.Call session request.now) self.new.asker }
    {
        if self.owed >= ROOM {
            return;
        }
        let Ok(request) = request.copied(self.alloc) else {
            return;
        };
        let mut mailbox = take(self.rt, &self.sequencer.mailbox);
        if mailbox.reserve(1).is_err() {
            return;
        }
        let posted = ask(&mut self.asker, session, request);
        mailbox.push_reserved(Some(Letter::new(self.tray, place, Content::Posted(posted))));
        self.owed += 1;
    }

    /// How many of the calls that it posted are still unanswered.
    pub fn owed(&self) -> usize
        ensures { Owes self.now.asker result }
    {
        self.owed
    }

    /// Whether no group is pending.
    pub fn is_settled(&self, held: &Held<'_, M, S, B>) -> bool
        ensures { result ≡ is_none (pending_of held.now.at.now) }
    {
        held.locked.is_settled()
    }

    /// Answers the calls that threads have posted, those that may share one append: under the lock that was taken their
    /// records are written, and their answers given once they are synced; for the sync the lock is released. Returns it, taken
    /// again. For a call that gets no answer nothing has been done: its letter comes back as it was.
    pub fn answer_posted(&self, held: Held<'a, M, S, B>) -> Held<'a, M, S, B>
        ensures same { pending_of held.entry.at.now ≢ None → result ≡ held.entry }
        ensures settled { pending_of held.entry.at.now ≡ None → pending_of result.at.now ≡ None }
    {
        let mut held = held;
        if !held.locked.is_settled() {
            return held;
        }
        held.locked
            .take_mail(&mut take(self.rt, &self.sequencer.mailbox));
        match held.locked.begin_mail() {
            Some(syncer) => self.sequencer.sync(self.rt, held, syncer, self.tally),
            None => held,
        }
    }

    /// Takes the next letter that came back to this handle.
    pub fn next_letter(&self, held: &mut Held<'_, M, S, B>) -> Option<Letter<M, S, B>>
        ensures taken { MatchOption result (held.new.trays ≡ held.old.trays)
            (λ l. held.old.trays ≡ put_at held.new.trays self.now.tray l) }
        ensures rest { (held.new.at ≡ held.old.at) × (held.new.history ≡ held.old.history) × (held.new.letters ≡ held.old.letters) }
    {
        held.locked.take_letter(self.tray)
    }

    /// Takes the answer to a call that was posted.
    pub fn take_answer(&mut self, answered: Answered<B>) -> Reply
        requires { (n : ℕ) × Owes self.old.asker (n + 1) }
        ensures reply { result ≡ answered.reply }
        ensures told { (self.new.asker ≡ told_of self.old.asker answered) × IsInOrder answered }
    {
        let (receipt, told) = answered.into_parts();
        self.asker.take(told, receipt.reply.place);
        self.owed -= 1;
        receipt.reply
    }

    /// Answers a call that was posted and came back as it was, under the lock that was taken. Returns the lock, unless the
    /// call had to wait until the pending group was finished.
    pub fn call_back(
        &mut self,
        held: Held<'a, M, S, B>,
        posted: Posted<B>,
    ) -> (Reply, Option<Held<'a, M, S, B>>)
        requires owes { (n : ℕ) × Owes self.old.asker (n + 1) }
        requires call { IsCall posted.event }
        ensures did { DidCall M.manages S.start S.base posted result.0 }
        ensures ends { Ends (is_memory result.0.detail) self.old.asker posted result.0 self.new.asker }
        ensures limits { IsReply result.0 }
    {
        self.owed -= 1;
        carry_out(self.rt, self.sequencer, &mut self.asker, held, posted)
    }

    /// Whether another thread waits to hold the lock.
    pub fn is_wanted(&self) -> bool {
        self.sequencer.is_wanted()
    }

    /// Whether no thread has the lock, and none syncs.
    pub fn is_free(&self) -> bool {
        self.sequencer.is_free()
    }

    /// After how many answered groups a call that is posted now has its answer.
    pub fn due(&self) -> u64
        ensures { 0 < result }
    {
        self.sequencer.due()
    }

    /// Whether `groups` groups were answered.
    pub fn is_due(&self, groups: u64) -> bool {
        self.sequencer.is_due(groups)
    }

    /// Lets others run, after `tries` times in one wait: after many times it sleeps while a group is pending.
    pub fn rest(&self, tries: u32) {
        self.sequencer.rest(self.rt, tries);
    }

    /// How the manager is doing. It is no event, and the account stays as it is.
    pub fn status(&self) -> Status
        ensures { IsTold M.manages S.start S.base result }
    {
        self.sequencer.take(self.rt).status()
    }

    /// The share.
    pub fn into_share(self) -> Share<B>
        ensures { result ≡ self.entry.asker }
    {
        let Handle { asker, .. } = self;
        asker.into_share()
    }

    /// Whether a session has an association of its own.
    pub fn has_association(&self, session: u64) -> bool
        ensures { AssociatedBy M.manages S.start S.base session result }
    {
        self.sequencer.take(self.rt).has_association(session)
    }

    /// Whether a session has an association of its own with a branch that isn't marked; while the manager is down, with any.
    pub fn has_unmarked(&self, session: u64) -> bool
        ensures { UnmarkedBy M.manages S.start S.base session result }
    {
        self.sequencer.take(self.rt).has_unmarked(session)
    }

    /// The sessions that have an association of their own with this branch, ascending.
    pub fn sessions_of(&self, alloc: Global, xid: &Xid) -> Result<Vec<u64>, AllocError>
        ensures { IfOk result (λ v. AttachedBy M.manages S.start S.base xid.now v.items) }
    {
        self.sequencer.take(self.rt).sessions_of(alloc, xid)
    }

    /// Where the log's next record begins, while the manager is up: while a group is pending, its first one.
    pub fn log_end(&self) -> u64
        ensures { EndedBy M.manages S.start S.base result }
    {
        self.sequencer.take(self.rt).log_end()
    }
}

impl<M: Manages, S: Start, B: Book, R: Clock + Wait> Door for Handle<'_, M, S, B, R> {
    ghost use Rattle.std.specs.Prelude.{Bool};
    ghost use Rattle.xa_handles.specs.Believed.Shared.{AskedBy, LeftBy};

    ghost called = { λ session a question reply b.
        AskedBy M.manages S.start S.base session a.asker question reply b.asker };

    ghost left = { λ session a b. (was : Bool) × LeftBy M.manages S.start S.base session a.asker was b.asker };

    fn call(&mut self, session: u64, request: Request) -> Reply {
        let held = self.hold();
        let (reply, _held) = self.call_held(held, session, request);
        reply
    }

    fn status(&self) -> Status {
        self.status()
    }

    fn hangup(&mut self, session: u64) {
        let _left = self.hangup(session);
    }
}

// Asks for a call of a session.
fn ask<B: Book>(asker: &mut Asker<'_, B>, session: u64, request: Request) -> Posted<B>
    ensures posted { result ≡ next_ask asker.old (Event.Call session request) }
    ensures asks { asker.new ≡ asking asker.old (next_ask asker.old (Event.Call session request)) }
{
    let event = Event::Call(session, request);
    let after = asker.last();
    let ticket = asker.ask(&event);
    Posted::new(Ask { event, after }, ticket)
}

// Takes back a call of a session that was asked for last, and nobody has carried out.
fn withdraw<B: Book>(asker: &mut Asker<'_, B>, posted: Posted<B>) -> Request
    requires call { IsCall posted.event }
    requires last { (before : Account) × (asker.old ≡ asking before posted) }
    ensures request { (session : ℕ) (request : Request) → posted.event ≡ Event.Call session request → result ≡ request }
    ensures asker { (before : Account) → asker.old ≡ asking before posted → asker.new ≡ before }
{
    let (Ask { event, after: _ }, ticket) = posted.into_parts();
    let Event::Call(_, request) = event else {
        unreachable!()
    };
    asker.withdraw(ticket);
    request
}

// Carries a call out, under the lock that was taken, which is returned, or once no group is pending.
fn carry_out<'a, M: Manages, S: Start, B: Book, R: Wait>(
    rt: &R,
    sequencer: &'a SharedSequencer<M, S, B>,
    asker: &mut Asker<'_, B>,
    held: Held<'a, M, S, B>,
    posted: Posted<B>,
) -> (Reply, Option<Held<'a, M, S, B>>)
    requires { IsCall posted.event }
    ensures did { DidCall M.manages S.start S.base posted result.0 }
    ensures ends { Ends (is_memory result.0.detail) asker.old posted result.0 asker.new }
    ensures limits { IsReply result.0 }
{
    let mut held = held;
    match held.locked.call(&sequencer.tokens, asker, posted) {
        Ok(reply) => (reply, Some(held)),
        Err(posted) => {
            drop(held);
            (call_settled(rt, sequencer, asker, posted), None)
        }
    }
}

// Hangs a session up that asks for a call of the pending group, once that is finished. Returns whether it was connected, and
// how many events there were then.
fn hang_up_settled<M: Manages, S: Start, B: Book, R: Wait>(
    rt: &R,
    sequencer: &SharedSequencer<M, S, B>,
    asker: &mut Asker<'_, B>,
    session: u64,
) -> (bool, u64)
    ensures { LeftBy M.manages S.start S.base session asker.old result.0 asker.new }
{
    let mut locked = sequencer.take_settled(rt);
    let Some(was_connected) = locked.hangup(&sequencer.tokens, asker, session) else {
        unreachable!()
    };
    (was_connected, locked.count())
}

// Carries a call out, once no group is pending.
fn call_settled<M: Manages, S: Start, B: Book, R: Wait>(
    rt: &R,
    sequencer: &SharedSequencer<M, S, B>,
    asker: &mut Asker<'_, B>,
    posted: Posted<B>,
) -> Reply
    requires { IsCall posted.event }
    ensures did { DidCall M.manages S.start S.base posted result }
    ensures ends { Ends (is_memory result.detail) asker.old posted result asker.new }
    ensures limits { IsReply result }
{
    let Ok(reply) = sequencer
        .take_settled(rt)
        .call(&sequencer.tokens, asker, posted)
    else {
        unreachable!()
    };
    reply
}

/// Shows only the name, so that it never waits for the lock.
impl<M: Manages, S: Start, B: Book, R> fmt::Debug for Handle<'_, M, S, B, R> {
    fn fmt<W: fmt::Write>(&self, f: &mut fmt::Formatter<W>) -> fmt::Result {
        f.debug_struct("Handle").finish_non_exhaustive()
    }
}

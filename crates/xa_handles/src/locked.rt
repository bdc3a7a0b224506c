ghost use Rattle.std.specs.Prelude.{◌≡◌, ◌≢◌, ◌⊎◌, ◌<◌, ◌≤◌, [], None, is_none, length, IfErr, IfNone, IfOk, IfSome, MatchBool, MatchOption, OnErr, OnOk};
ghost use Rattle.xa_assoc.specs.Refusals.{is_memory};
ghost use Rattle.xa_frame.specs.Limits.{IsReply};
ghost use Rattle.xa_handles.specs.Believed.Accounts.{Ends};
ghost use Rattle.xa_handles.specs.Mail.{IsCall, put_at};
ghost use Rattle.xa_handles.specs.Believed.Shared.{ConnectedBy, DidCall, HoldsAt, IsTold, LeftBy};
ghost use Rattle.xa_handles.specs.Believed.Standing.{HasBook, KeepsMail, LeavesMail, TellsMail};
ghost use Rattle.xa_sequencer.specs.{Associates.AssociatedBy, Associates.AttachedBy, Associates.EndedBy, Associates.UnmarkedBy, Manages.AsksOne};
ghost use Rattle.xa_sequencer.specs.Believed.{GroupManager.pending_of, Stands.Stands};

use crate::asker::Asker;
use crate::letter::Letter;
use crate::mail::{answer_all, copy_calls, put_all};
use crate::noting::{end, note};
use crate::trays::Trays;
use std::alloc::{AllocError, Global};
use std::marker::Model;
use std::mem;
use xa_assoc::ConnectFault;
use xa_codes::XA_OK;
use xa_disk::{SyncAnswer, Syncer};
use xa_frame::{Reply, Status};
use xa_history::{Start, is_memory, placed};
use xa_manager::{Asked, connect_reply};
use xa_model::Event;
use xa_sequencer::{Manages, Sequencer};
use xa_tokens::{Ask, Book, Keeper, Posted, Share, Tokens};
use xa_xid::Xid;

/// What the lock protects: a sequencer, the keeper of its history, and the letters that were taken out of the mailbox.
#[derive(Drop)]
pub(crate) struct Locked<M: Manages, S: Start, B: Book> {
    sequencer: Sequencer<M, S>,
    keeper: Keeper<B>,
    /// While a group is pending, those of its calls, in their order.
    letters: Vec<Option<Letter<M, S, B>>>,
    trays: Trays<M, S, B>,
    /// Lent to the sequencer while a group is pending.
    calls: Vec<Asked>,
    alloc: Global,
}

impl<M: Manages, S: Start, B: Book> Model for Locked<M, S, B> {
    ghost use Rattle.xa_handles.specs.Mail.{FitPending};
    ghost use Rattle.xa_handles.specs.Believed.Standing.{HasBook, Standing};
    ghost use Rattle.xa_sequencer.specs.Believed.GroupManager.{GroupManager, pending_of};

    ghost Value = { Standing (GroupManager M) };

    ghost view = { λ l. record { at = l.sequencer; history = l.keeper; letters = l.letters.items; trays = l.trays } };

    ghost invariant = { λ l. HasBook M.manages S.start S.base l.sequencer l.keeper
        × FitPending (pending_of l.sequencer.now) l.letters.items };
}

impl<M: Manages, S: Start, B: Book> Locked<M, S, B> {
    pub(crate) fn new(
        alloc: Global,
        sequencer: Sequencer<M, S>,
        keeper: Keeper<B>,
    ) -> Locked<M, S, B>
        requires empty { keeper ≡ [] }
        requires stands { Stands M.manages S.start S.base sequencer [] }
        requires settled { pending_of sequencer.now ≡ None }
        ensures { result ≡ record { at = sequencer; history = []; letters = []; trays = [] } }
    {
        Locked {
            sequencer,
            keeper,
            letters: Vec::new(alloc),
            trays: Trays::new(alloc),
            calls: Vec::new(alloc),
            alloc,
        }
    }

    /// The sequencer, and the keeper of its history.
    pub(crate) fn into_parts(self) -> (Sequencer<M, S>, Keeper<B>)
        ensures is { (result.0 ≡ self.at) × (result.1 ≡ self.history) }
        ensures book { HasBook M.manages S.start S.base result.0 result.1 }
    {
        let Locked {
            sequencer,
            keeper,
            ..
        } = self;
        (sequencer, keeper)
    }

    /// Whether no group is pending.
    pub(crate) fn is_settled(&self) -> bool
        ensures { result ≡ is_none (pending_of self.now.at.now) }
    {
        self.sequencer.is_settled()
    }

    /// Connects a session.
    pub(crate) fn connect(
        &mut self,
        tokens: &Tokens<B>,
        asker: &mut Asker<'_, B>,
    ) -> Result<u64, ConnectFault>
        ensures connected { ConnectedBy M.manages S.start S.base asker.old result asker.new }
        ensures mail { LeavesMail self.old self.new }
    {
        let Locked {
            sequencer,
            keeper,
            ..
        } = self;
        sequencer.promises();
        let session = sequencer.connect();
        let reply = connect_reply(session);
        if is_memory(&reply) {
            return session;
        }
        let reply = placed(reply, sequencer.count());
        note(tokens, keeper, asker, &Event::Connect, &reply);
        session
    }

    /// Carries a call out.
    ///
    /// # Errors
    /// Gives it back if it has to wait until the pending group is finished.
    pub(crate) fn call(
        &mut self,
        tokens: &Tokens<B>,
        asker: &mut Asker<'_, B>,
        posted: Posted<B>,
    ) -> Result<Reply, Posted<B>>
        requires call { IsCall posted.event }
        ensures did { IfOk result (λ reply. DidCall M.manages S.start S.base posted reply) }
        ensures ends { IfOk result (λ reply. Ends (is_memory reply.detail) asker.old posted reply asker.new) }
        ensures limits { IfOk result IsReply }
        ensures back { IfErr result (λ given. (given ≡ posted) × (asker.new ≡ asker.old)) }
        ensures answers { OnErr result (pending_of self.old.at.now ≢ None) }
        ensures mail { LeavesMail self.old self.new }
    {
        let Locked {
            sequencer,
            keeper,
            ..
        } = self;
        sequencer.promises();
        let (Ask { event, after }, ticket) = posted.into_parts();
        let Event::Call(session, request) = event else {
            unreachable!()
        };
        let reply = match sequencer.call(session, request) {
            Ok(reply) => reply,
            Err(request) => {
                let event = Event::Call(session, request);
                return Err(Posted::new(Ask { event, after }, ticket));
            }
        };
        end(tokens, keeper, asker, ticket, &reply);
        Ok(reply)
    }

    /// Hangs a session up. Returns whether it was connected; None, and nothing changes, if it asks for a call of the
    /// pending group.
    pub(crate) fn hangup(
        &mut self,
        tokens: &Tokens<B>,
        asker: &mut Asker<'_, B>,
        session: u64,
    ) -> Option<bool>
        ensures left { IfSome result (λ was. LeftBy M.manages S.start S.base session asker.old was asker.new) }
        ensures waits { IfNone result ((asker.new ≡ asker.old) × AsksOne session (pending_of self.old.at.now)) }
        ensures mail { LeavesMail self.old self.new }
    {
        let Locked {
            sequencer,
            keeper,
            ..
        } = self;
        sequencer.promises();
        let Some(was_connected) = sequencer.hangup(session) else {
            return None;
        };
        if !was_connected {
            return Some(false);
        }
        let reply = placed(Reply::plain(XA_OK), sequencer.count());
        note(tokens, keeper, asker, &Event::Hangup(session), &reply);
        Some(true)
    }

    /// A tray for the letters of a thread, with room for `letters` of them.
    pub(crate) fn add_tray(&mut self, letters: usize) -> Result<usize, AllocError>
        ensures { KeepsMail self.old self.new }
    {
        self.trays.add(self.alloc, letters)
    }

    /// Takes the letters out of the mailbox, unless some that were taken before couldn't be put into their trays.
    pub(crate) fn take_mail(&mut self, mailbox: &mut Vec<Option<Letter<M, S, B>>>)
        requires { pending_of self.old.at.now ≡ None }
        ensures rest { (self.new.at ≡ self.old.at) × (self.new.history ≡ self.old.history) × (self.new.trays ≡ self.old.trays) }
        ensures letters { ((self.new.letters ≡ mailbox.old.items) × (mailbox.new.items ≡ self.old.letters))
            ⊎ ((self.new.letters ≡ self.old.letters) × (mailbox.new ≡ mailbox.old)) }
        ensures gone { self.old.letters ≡ [] → (self.new.letters ≡ mailbox.old.items) × (mailbox.new.items ≡ []) }
    {
        if self.letters.is_empty() {
            mem::swap(&mut self.letters, mailbox);
        }
    }

    /// Writes the records of the letters' calls, those that may share one append: then they are the pending group. Returns
    /// what makes its sync. If none was written, the letters are back in their trays, and nothing has been done.
    pub(crate) fn begin_mail(&mut self) -> Option<Syncer>
        requires { pending_of self.old.at.now ≡ None }
        ensures mail { KeepsMail self.old self.new }
        ensures syncer { MatchOption result (pending_of self.new.at.now ≡ None) (λ s. M.its_syncer self.new.at.now.manager s) }
    {
        if self.letters.is_empty() {
            return None;
        }
        if self.begin_group() {
            return Some(self.sequencer.syncer());
        }
        self.hand_out();
        None
    }

    /// How many letters were taken out of the mailbox: while a group is pending, those of its calls.
    pub(crate) fn letters_taken(&self) -> u64
        ensures { result ≡ length self.now.letters }
    {
        self.letters.len() as u64
    }

    // Whether the letters' calls are the pending group.
    fn begin_group(&mut self) -> bool
        requires { pending_of self.old.at.now ≡ None }
        ensures settled { MatchBool result (Unit {0}) (pending_of self.new.at.now ≡ None) }
        ensures mail { LeavesMail self.old self.new }
        ensures history { self.new.history ≡ self.old.history }
    {
        if !copy_calls(&self.letters, &mut self.calls, self.alloc) {
            return false;
        }
        let calls = mem::replace(&mut self.calls, Vec::new(self.alloc));
        let Err(back) = self.sequencer.begin_group(calls) else {
            return true;
        };
        self.calls = back;
        false
    }

    /// Answers the calls of the pending group, by their sync's answer. The letters are back in their trays, which have room
    /// for them: of a call that wasn't answered nothing has been done. Takes no memory.
    pub(crate) fn finish_mail(&mut self, tokens: &Tokens<B>, answer: SyncAnswer)
        requires { pending_of self.old.at.now ≢ None }
        ensures told { TellsMail self.old self.new }
        ensures settled { pending_of self.new.at.now ≡ None }
    {
        self.finish_group(tokens, answer);
        self.hand_out();
    }

    // Answers the calls of the pending group, each by its letter.
    fn finish_group(&mut self, tokens: &Tokens<B>, answer: SyncAnswer)
        requires { pending_of self.old.at.now ≢ None }
        ensures settled { pending_of self.new.at.now ≡ None }
        ensures told { TellsMail self.old self.new }
    {
        let Locked {
            sequencer,
            keeper,
            letters,
            calls,
            ..
        } = self;
        sequencer.promises();
        let (replies, back) = sequencer.finish_group(answer);
        answer_all(tokens, keeper, letters, &back, replies);
        *calls = back;
    }

    // Puts the letters into their trays, as long as there is memory.
    fn hand_out(&mut self)
        requires { pending_of self.old.at.now ≡ None }
        ensures mail { KeepsMail self.old self.new }
        ensures at { self.new.at ≡ self.old.at }
        ensures less { length self.new.letters ≤ length self.old.letters }
    {
        let Locked { letters, trays, .. } = self;
        put_all(letters, trays);
    }

    /// Takes the letter on top of a tray.
    pub(crate) fn take_letter(&mut self, tray: usize) -> Option<Letter<M, S, B>>
        ensures taken { MatchOption result (self.new.trays ≡ self.old.trays)
            (λ l. (tray < length self.new.trays) × (self.old.trays ≡ put_at self.new.trays tray l)) }
        ensures rest { (self.new.at ≡ self.old.at) × (self.new.history ≡ self.old.history) × (self.new.letters ≡ self.old.letters) }
    {
        self.trays.take(tray)
    }

    /// What holds of the history and of a share. It changes nothing.
    pub(crate) fn look(&mut self, tokens: &Tokens<B>, share: Share<B>) -> Share<B>
        ensures holds { HoldsAt M.manages S.start S.base self.old.at share }
        ensures same { (self.new ≡ self.old) × (result ≡ share) }
    {
        self.sequencer.promises();
        tokens.look(&mut self.keeper, share)
    }

    /// How many events there were.
    pub(crate) fn count(&self) -> u64
        ensures { result ≡ self.now.at.count }
    {
        self.sequencer.count()
    }

    pub(crate) fn status(&self) -> Status
        ensures { IsTold M.manages S.start S.base result }
    {
        self.sequencer.promises();
        self.sequencer.status()
    }

    pub(crate) fn has_association(&self, session: u64) -> bool
        ensures { AssociatedBy M.manages S.start S.base session result }
    {
        self.sequencer.promises();
        self.sequencer.has_association(session)
    }

    pub(crate) fn has_unmarked(&self, session: u64) -> bool
        ensures { UnmarkedBy M.manages S.start S.base session result }
    {
        self.sequencer.promises();
        self.sequencer.has_unmarked(session)
    }

    pub(crate) fn sessions_of(&self, alloc: Global, xid: &Xid) -> Result<Vec<u64>, AllocError>
        ensures { IfOk result (λ v. AttachedBy M.manages S.start S.base xid.now v.items) }
    {
        self.sequencer.promises();
        self.sequencer.sessions_of(alloc, xid)
    }

    pub(crate) fn log_end(&self) -> u64
        ensures { EndedBy M.manages S.start S.base result }
    {
        self.sequencer.promises();
        self.sequencer.log_end()
    }
}

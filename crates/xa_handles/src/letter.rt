ghost use Rattle.std.specs.Prelude.{◌≡◌, ◌+◌, [], ◌∷◌, ◌++◌, true, IfSome, IsTrue, None, Some, length};
ghost use Rattle.xa_handles.specs.{Mail.IsCall, Mail.mailed, Believed.Posted.IsLetter, Believed.Posted.WasAnswered};
ghost use Rattle.xa_tokens.specs.Believed.Receipts.{receipt_of};
ghost use Rattle.xa_model.specs.declared.event.Event.TheVariants as Event;

use std::marker::{Model, PhantomData};
use xa_frame::{Reply, Request};
use xa_history::Start;
use xa_model::Event;
use xa_sequencer::Manages;
use xa_tokens::{Answered, Ask, Book, Keeper, Posted, Receipt, Tokens};

/// What a letter brings.
#[derive(Drop)]
pub enum Content<B: Book> {
    /// A call that has to be carried out.
    Posted(Posted<B>),
    /// One that was carried out, with its reply.
    Answered(Answered<B>),
}

/// A call that a thread posted for whichever of them has the lock, or what it was answered. To a contract it is its
/// owner, its ask, and its reply, once there is one.
#[derive(Drop)]
pub struct Letter<M: Manages, S: Start, B: Book> {
    tray: usize,
    place: usize,
    content: Content<B>,
    of: PhantomData<(M, S)>,
}

impl<M: Manages, S: Start, B: Book> Model for Letter<M, S, B> {
    ghost use Rattle.xa_handles.specs.{Mail.Mailed, Mail.mailed, Believed.Posted.IsLetter};

    ghost Value = { Mailed };

    ghost view = { λ l. mailed l.tray l.place l.content };

    ghost invariant = { λ l. IsLetter M.manages S.start S.base (mailed l.tray l.place l.content) };
}

impl<M: Manages, S: Start, B: Book> Letter<M, S, B> {
    /// Of the thread with this tray, which has asked it at this place.
    pub(crate) fn new(tray: usize, place: usize, content: Content<B>) -> Letter<M, S, B>
        requires { IsLetter M.manages S.start S.base (mailed tray place content) }
        ensures { result ≡ mailed tray place content }
    {
        Letter {
            tray,
            place,
            content,
            of: PhantomData,
        }
    }

    pub(crate) fn tray(&self) -> usize
        ensures { result ≡ self.now.tray }
    {
        self.tray
    }

    /// The call's place among those that its thread asks.
    pub fn place(&self) -> usize
        ensures { result ≡ self.now.place }
    {
        self.place
    }

    /// The call.
    pub fn ask(&self) -> &Ask
        ensures { result.now ≡ self.now.ask }
    {
        match &self.content {
            Content::Posted(posted) => posted.ask(),
            Content::Answered(answered) => &answered.receipt().ask,
        }
    }

    /// The call, if it isn't answered.
    pub(crate) fn unanswered(&self) -> Option<&Ask>
        ensures { IfSome result (λ ask. (ask.now ≡ self.now.ask) × (self.now.reply ≡ None) × IsCall ask.now.event) }
    {
        match &self.content {
            Content::Posted(posted) => Some(posted.ask()),
            Content::Answered(_) => None,
        }
    }

    /// Whether it is this call of a session.
    pub fn is_of(&self, session: u64, request: &Request) -> bool
        ensures { IsTrue result → self.now.ask.event ≡ Event.Call session request.now }
    {
        match &self.ask().event {
            Event::Call(number, posted) => *number == session && is_same(posted, request),
            _ => false,
        }
    }

    /// Its call was carried out, with this reply: it is the history's next entry, which the letter tells.
    pub(crate) fn answered(
        self,
        tokens: &Tokens<B>,
        keeper: &mut Keeper<B>,
        reply: Reply,
    ) -> Letter<M, S, B>
        requires unanswered { self.reply ≡ None }
        requires answer { WasAnswered M.manages S.start S.base self.ask reply }
        requires place { reply.place ≡ length keeper.old + 1 }
        ensures letter { result ≡ record self { reply = Some reply } }
        ensures keeper { keeper.new ≡ keeper.old ++ receipt_of self.ask reply ∷ [] }
    {
        let (tray, place, content) = self.into_parts();
        let Content::Posted(posted) = content else {
            unreachable!()
        };
        let (ask, ticket) = posted.into_parts();
        let told = tokens.answer(keeper, ticket, &reply);
        let answered = Answered::new(Receipt { ask, reply }, told);
        Letter::new(tray, place, Content::Answered(answered))
    }

    /// What it brings, and whose it is.
    pub fn into_parts(self) -> (usize, usize, Content<B>)
        ensures is { mailed result.0 result.1 result.2 ≡ self }
        ensures letter { IsLetter M.manages S.start S.base self }
    {
        let Letter {
            tray,
            place,
            content,
            of: _,
        } = self;
        (tray, place, content)
    }
}

// Whether two calls that append to the log are the same.
fn is_same(a: &Request, b: &Request) -> bool
    ensures { result ≡ true → b.now ≡ a.now }
{
    match (a, b) {
        (Request::Prepare { flags, xid }, Request::Prepare { flags: f, xid: x })
        | (Request::Commit { flags, xid }, Request::Commit { flags: f, xid: x })
        | (Request::Rollback { flags, xid }, Request::Rollback { flags: f, xid: x })
        | (Request::Forget { flags, xid }, Request::Forget { flags: f, xid: x }) => {
            flags == f && xid == x
        }
        (
            Request::Decide { direction, xid },
            Request::Decide {
                direction: d,
                xid: x,
            },
        ) => direction == d && xid == x,
        _ => false,
    }
}

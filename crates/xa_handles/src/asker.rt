ghost use Rattle.std.specs.Prelude.{◌≡◌, ◌<◌, []};
ghost use Rattle.xa_handles.specs.Believed.Accounts.{asking, next_ask, told_of, without};
ghost use Rattle.xa_tokens.specs.{Believed.Account.Account, Believed.Receipts.IsInOrder, Believed.Receipts.last_or};

use std::marker::Model;
use xa_model::Event;
use xa_tokens::{Book, Share, Ticket, Tokens, Told};

/// A share, and the place of the entry that it was told last, or 0. To a contract it is the share's account.
#[derive(Drop)]
pub struct Asker<'a, B: Book> {
    tokens: &'a Tokens<B>,
    share: Share<B>,
    last: u64,
}

impl<'a, B: Book> Model for Asker<'a, B> {
    ghost use Rattle.std.specs.Prelude.{◌≡◌, ◌<◌};
    ghost use Rattle.xa_tokens.specs.Believed.Account.{Account};
    ghost use Rattle.xa_tokens.specs.Believed.Receipts.{last_or};

    ghost Value = { Account };

    ghost view = { λ a. a.share };

    ghost invariant = { λ a. (a.last ≡ last_or 0 a.share.told) × (0 < a.share.parts) };
}

impl<'a, B: Book> Asker<'a, B> {
    /// With a share that was told nothing yet.
    pub(crate) fn new(tokens: &'a Tokens<B>, share: Share<B>) -> Asker<'a, B>
        requires some { 0 < share.parts }
        requires none { share.told ≡ [] }
        ensures { result ≡ share }
    {
        Asker {
            tokens,
            share,
            last: 0,
        }
    }

    /// The place of the entry that it was told last, or 0.
    pub(crate) fn last(&self) -> u64
        ensures { result ≡ last_or 0 self.now.told }
    {
        self.last
    }

    /// Asks for an event, once.
    pub(crate) fn ask(&mut self, event: &Event) -> Ticket<B>
        ensures ticket { result ≡ next_ask self.old event.now }
        ensures asks { self.new ≡ asking self.old (next_ask self.old event.now) }
    {
        self.tokens.ask(&mut self.share, event, self.last)
    }

    /// It is told an entry, which has this place.
    pub(crate) fn take(&mut self, told: Told<B>, place: u64)
        requires { place ≡ told.reply.place }
        ensures told { self.new ≡ told_of self.old told }
        ensures order { IsInOrder told }
    {
        self.tokens.take(&mut self.share, told);
        self.last = place;
    }

    /// Nobody will carry the ask out.
    pub(crate) fn give_up(&mut self, ticket: Ticket<B>)
        ensures { self.new ≡ without self.old ticket }
    {
        self.tokens.give_up(&mut self.share, ticket);
    }

    /// It takes back what it asked for last: nobody will carry that out.
    pub(crate) fn withdraw(&mut self, ticket: Ticket<B>)
        requires { (before : Account) × (self.old ≡ asking before ticket) }
        ensures { (before : Account) → self.old ≡ asking before ticket → self.new ≡ before }
    {
        self.tokens.withdraw(&mut self.share, ticket);
    }

    /// The share.
    pub(crate) fn into_share(self) -> Share<B>
        ensures { result ≡ self.entry }
    {
        let Asker {
            tokens: _,
            share,
            last: _,
        } = self;
        share
    }
}

ghost use Rattle.std.specs.Prelude.{◌≡◌};

use crate::ask::Ask;
use crate::book::Book;
use crate::ticket::Ticket;
use std::marker::Model;

/// An ask with its ticket, as one thread leaves it for another. To a contract it is the ask.
#[derive(Drop)]
pub struct Posted<B: Book> {
    ask: Ask,
    ticket: Ticket<B>,
}

impl<B: Book> Model for Posted<B> {
    ghost use Rattle.std.specs.Prelude.{◌≡◌};
    ghost use Rattle.xa_tokens.specs.declared.ask.Ask.{Ask};

    ghost Value = { Ask };

    ghost view = { λ p. p.ask };

    ghost invariant = { λ p. p.ticket ≡ p.ask };
}

impl<B: Book> Posted<B> {
    pub fn new(ask: Ask, ticket: Ticket<B>) -> Posted<B>
        requires { ticket ≡ ask }
        ensures { result ≡ ask }
    {
        Posted { ask, ticket }
    }

    pub fn ask(&self) -> &Ask
        ensures { result.now ≡ self.now }
    {
        &self.ask
    }

    pub fn into_parts(self) -> (Ask, Ticket<B>)
        ensures { (result.0 ≡ self) × (result.1 ≡ self) }
    {
        let Posted { ask, ticket } = self;
        (ask, ticket)
    }
}

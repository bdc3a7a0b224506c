use crate::book::Book;
use crate::view::Token;
use std::marker::{Model, PhantomData};

/// The right to carry an ask out, once. To a contract it is the ask.
#[derive(Drop)]
pub struct Ticket<B: Book> {
    pub(crate) seat: Token,
    pub(crate) of: PhantomData<B>,
}

impl<B: Book> Model for Ticket<B> {
    ghost use Rattle.std.specs.Prelude.{◌≡◌, []};
    ghost use Rattle.xa_tokens.specs.declared.ask.Ask.{Ask};
    ghost use Rattle.xa_tokens.specs.Believed.View.{ticket_view, the_ask};

    ghost Value = { Ask };

    ghost view = { λ t. the_ask t.seat.me.0 };

    ghost invariant = { λ t. (t.seat.table_id ≡ B.table) × (t.seat.me ≡ (ticket_view (the_ask t.seat.me.0), [])) };
}

use crate::book::Book;
use crate::view::Token;
use std::marker::{Model, PhantomData};

/// The one that knows the whole history. To a contract it is the history.
#[derive(Drop)]
pub struct Keeper<B: Book> {
    pub(crate) seat: Token,
    pub(crate) of: PhantomData<B>,
}

impl<B: Book> Model for Keeper<B> {
    ghost use Rattle.std.specs.Prelude.{◌≡◌, List, []};
    ghost use Rattle.xa_tokens.specs.declared.receipt.Receipt.{Receipt};
    ghost use Rattle.xa_tokens.specs.Believed.View.{keeper_view};

    ghost Value = { List Receipt };

    ghost view = { λ k. k.seat.me.0.history };

    ghost invariant = { λ k. (k.seat.table_id ≡ B.table) × (k.seat.me ≡ (keeper_view k.seat.me.0.history, [])) };
}

use crate::book::Book;
use crate::view::Token;
use std::marker::{Model, PhantomData};

/// One entry of the history, which nobody else holds. To a contract it is the entry.
#[derive(Drop)]
pub struct Told<B: Book> {
    pub(crate) seat: Token,
    pub(crate) of: PhantomData<B>,
}

impl<B: Book> Model for Told<B> {
    ghost use Rattle.std.specs.Prelude.{◌≡◌, []};
    ghost use Rattle.xa_tokens.specs.declared.receipt.Receipt.{Receipt};
    ghost use Rattle.xa_tokens.specs.Believed.Receipts.{IsInOrder};
    ghost use Rattle.xa_tokens.specs.Believed.View.{told_view, the_receipt};

    ghost Value = { Receipt };

    ghost view = { λ t. the_receipt t.seat.me.0 };

    ghost invariant = { λ t. (t.seat.table_id ≡ B.table) × (t.seat.me ≡ (told_view (the_receipt t.seat.me.0), []))
        × IsInOrder (the_receipt t.seat.me.0) };
}

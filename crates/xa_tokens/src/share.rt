use crate::book::Book;
use crate::view::Token;
use std::marker::{Model, PhantomData};

/// What one who asks has asked, was told, and gave up, and how many parts it has of all shares.
#[derive(Drop)]
pub struct Share<B: Book> {
    pub(crate) seat: Token,
    pub(crate) of: PhantomData<B>,
}

impl<B: Book> Model for Share<B> {
    ghost use Rattle.std.specs.Prelude.{◌≡◌, []};
    ghost use Rattle.xa_tokens.specs.Believed.Account.{Account, account_of};
    ghost use Rattle.xa_tokens.specs.Believed.View.{share_view};

    ghost Value = { Account };

    ghost view = { λ s. account_of s.seat.me.0 };

    ghost invariant = { λ s. (s.seat.table_id ≡ B.table) × (s.seat.me ≡ (share_view (account_of s.seat.me.0), [])) };
}

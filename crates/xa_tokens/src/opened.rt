ghost use Rattle.std.specs.Prelude.{◌≡◌, []};
ghost use Rattle.xa_tokens.specs.Believed.Account.{account};
ghost use Rattle.xa_tokens.specs.Believed.View.{all_parts};

use crate::book::Book;
use crate::keeper::Keeper;
use crate::share::Share;
use crate::tokens::Tokens;
use crate::view::{OneHistory, Token, View};
use atomic_table::Table;
use std::alloc::{AllocError, Global};
use std::marker::{Model, PhantomData};

/// An empty history, which has no name yet. To a contract it is its table.
#[derive(Drop)]
pub struct Opened {
    table: Table<(), View, (), OneHistory, Global>,
    seat: Token,
}

impl Model for Opened {
    ghost use Rattle.std.specs.Prelude.{◌≡◌, ◌<◌, []};
    ghost use Rattle.atomic_table.specs.Seated.{TableId};
    ghost use Rattle.xa_tokens.specs.Believed.View.{first_view};

    ghost Value = { TableId };

    ghost view = { λ o. o.table.shared.table_id };

    ghost invariant = { λ o. (o.seat.table_id ≡ o.table.shared.table_id) × (0 < o.table.shared.table_id.words)
        × (o.seat.me ≡ (first_view, [])) };
}

impl Opened {
    /// Takes memory for one word.
    pub fn new(alloc: Global) -> Result<Opened, AllocError> {
        let (table, seat) = Table::of_words(alloc, &[0], &())?;
        Ok(Opened { table, seat })
    }

    /// The history under its name, its keeper, and a share with all parts.
    pub fn named<B: Book>(self) -> (Tokens<B>, Keeper<B>, Share<B>)
        requires { self ≡ B.table }
        ensures keeper { result.1 ≡ [] }
        ensures share { result.2 ≡ account all_parts [] [] [] }
    {
        let Opened { table, mut seat } = self;
        let tokens = Tokens {
            table,
            of: PhantomData,
        };
        let rest = tokens.cut_keeper(&mut seat);
        (
            tokens,
            Keeper {
                seat,
                of: PhantomData,
            },
            Share {
                seat: rest,
                of: PhantomData,
            },
        )
    }
}

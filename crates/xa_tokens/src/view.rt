use crate::ask::Ask;
use crate::receipt::Receipt;
use atomic_table::{Seat, TableRule};
use std::collections::LinkedList;

/// What a token knows. No value of it is made.
pub struct View {
    /// Whether it is the keeper.
    pub keeps: bool,
    /// The whole history, if it is the keeper.
    pub history: LinkedList<Receipt>,
    /// How many of the parts it has into which all shares can be cut.
    pub parts: u64,
    /// What was asked by it.
    pub asked: LinkedList<Ask>,
    /// The entries that it was told.
    pub told: LinkedList<Receipt>,
    /// What may be carried out by it, each once.
    pub tickets: LinkedList<Ask>,
    /// What it gave up: nobody will carry it out.
    pub given_up: LinkedList<Ask>,
}

/// The rule of all tokens of a history.
pub struct OneHistory;

impl TableRule<(), View, ()> for OneHistory {
    ghost use Rattle.xa_tokens.specs.{Believed.Rule.Kept, Believed.View.first_view};

    ghost holds = { λ _ s. Kept s.views };

    ghost first = { λ _. first_view };
}

/// A place in the table, which has what one token knows.
pub(crate) type Token = Seat<(), View>;

//! What a token knows changes by these steps, cuts and joins alone.
ghost use Rattle.std.specs.Prelude.{◌≡◌, ◌<◌};

use crate::view::View;
use atomic_table::{Join, Play, Split};
use std::marker::{Brand, PhantomData};

/// Which ask or receipt a step is about. Each call picks it.
pub trait About {
    ghost use Rattle.xa_tokens.specs.declared.receipt.Receipt.{Receipt};

    ghost receipt: { Receipt };
}

impl About for Brand {
    ghost use Rattle.xa_tokens.specs.Believed.View.{no_receipt};

    ghost receipt = { no_receipt };
}

/// It asks for something, and may carry it out.
pub struct Asks<P: About>(PhantomData<P>);

impl<P: About> Play<(), View> for Asks<P> {
    ghost use Rattle.xa_tokens.specs.Steps.{asking};

    ghost then = { λ _ m _ n. (n.0 ≡ asking P.receipt.ask m.0) × (n.1 ≡ m.1) };
}

/// The keeper carries out what it may: that is the history's next entry.
pub struct Answers<P: About>(PhantomData<P>);

impl<P: About> Play<(), View> for Answers<P> {
    ghost use Rattle.xa_tokens.specs.Believed.Receipts.{IsInOrder};
    ghost use Rattle.xa_tokens.specs.Steps.{answering};

    ghost then = { λ _ m _ n. (n.0 ≡ answering P.receipt m.0) × (n.1 ≡ m.1) × IsInOrder P.receipt };
}

/// It gives up what it may carry out.
pub struct GivesUp;

impl Play<(), View> for GivesUp {
    ghost use Rattle.xa_tokens.specs.Steps.{giving_up};

    ghost then = { λ _ m _ n. (n.0 ≡ giving_up m.0) × (n.1 ≡ m.1) };
}

/// It takes back what it asked for last, with the ticket for it.
pub struct Withdraws;

impl Play<(), View> for Withdraws {
    ghost use Rattle.xa_tokens.specs.Steps.{withdrawing};

    ghost then = { λ _ m _ n. (n.0 ≡ withdrawing m.0) × (n.1 ≡ m.1) };
}

/// It learns what the rule comes to if it has everything.
pub struct Audits;

impl Play<(), View> for Audits {
    ghost use Rattle.xa_tokens.specs.{Believed.Account.account_of, Believed.Account.Owes, Believed.Account.HasHistory};

    ghost then = { λ _ m _ n. (n.0 ≡ m.0) × (n.1 ≡ m.1)
        × (Owes (account_of m.0) 0 → HasHistory m.0.history (account_of m.0)) };
}

/// It learns what the rule comes to of what it was told.
pub struct Looks;

impl Play<(), View> for Looks {
    ghost use Rattle.xa_tokens.specs.Believed.Account.{IsWithin, account_of};

    ghost then = { λ _ m _ n. (n.0 ≡ m.0) × (n.1 ≡ m.1) × IsWithin m.0.history (account_of m.0) };
}

/// The keeper, and what else there is.
pub struct KeptPart;

impl Split<View> for KeptPart {
    ghost use Rattle.xa_tokens.specs.Steps.{kept_part, other_part};

    ghost left = { kept_part };

    ghost right = { other_part };
}

/// A token without its tickets, and these.
pub struct OnlyTickets;

impl Split<View> for OnlyTickets {
    ghost use Rattle.xa_tokens.specs.Steps.{without_tickets, only_tickets};

    ghost left = { without_tickets };

    ghost right = { only_tickets };
}

/// A share, and another with one of its parts.
pub struct OnePart;

impl Split<View> for OnePart {
    ghost use Rattle.xa_tokens.specs.Steps.{less_one, one_part};

    ghost left = { less_one };

    ghost right = { one_part };
}

/// Both as one.
pub struct Joined;

impl Join<View> for Joined {
    ghost use Rattle.xa_tokens.specs.{Steps.joined, Believed.View.no_view};

    ghost both = { joined };

    ghost spent = { no_view };
}

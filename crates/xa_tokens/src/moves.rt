//! What happens to one token or to two, each a load of the table's word.
ghost use Rattle.std.specs.Prelude.{◌≡◌, ◌+◌, ◌<◌, true, List, [], ◌∷◌, ◌++◌, length};
ghost use Rattle.xa_tokens.specs.Believed.Account.{HasHistory, IsWithin, Owes, account_of};
ghost use Rattle.xa_tokens.specs.Believed.Receipts.{IsInOrder, last_or};
ghost use Rattle.xa_tokens.specs.Steps.{answering, asking, giving_up, joined, kept_part, less_one, one_part, only_tickets};
ghost use Rattle.xa_tokens.specs.Steps.{other_part, without_tickets, withdrawing};
ghost use Rattle.xa_tokens.specs.Believed.View.{all_parts};
ghost use Rattle.xa_tokens.specs.declared.ask.Ask.{Ask};

use crate::book::Book;
use crate::steps::{
    About, Answers, Asks, Audits, GivesUp, Joined, KeptPart, Looks, OnePart, OnlyTickets, Withdraws,
};
use crate::tokens::Tokens;
use crate::view::Token;

impl<B: Book> Tokens<B> {
    /// Cuts the keeper off from what else there is.
    pub(crate) fn cut_keeper(&self, seat: &mut Token) -> Token
        requires { seat.old.table_id ≡ B.table }
        ensures left { (seat.new.table_id ≡ B.table) × (seat.new.me ≡ (kept_part seat.old.me.0, seat.old.me.1)) }
        ensures right { (result.table_id ≡ B.table) × (result.me ≡ (other_part seat.old.me.0, [])) }
    {
        self.table.shared.split_seat::<KeptPart>(seat)
    }

    /// Cuts its tickets off.
    pub(crate) fn cut_tickets(&self, seat: &mut Token) -> Token
        requires { seat.old.table_id ≡ B.table }
        ensures left { (seat.new.table_id ≡ B.table) × (seat.new.me ≡ (without_tickets seat.old.me.0, seat.old.me.1)) }
        ensures right { (result.table_id ≡ B.table) × (result.me ≡ (only_tickets seat.old.me.0, [])) }
    {
        self.table.shared.split_seat::<OnlyTickets>(seat)
    }

    /// Cuts one of its parts off.
    pub(crate) fn cut_part(&self, seat: &mut Token) -> Token
        requires own { seat.old.table_id ≡ B.table }
        requires parts { 1 < seat.old.me.0.parts }
        ensures left { (seat.new.table_id ≡ B.table) × (seat.new.me ≡ (less_one seat.old.me.0, seat.old.me.1)) }
        ensures right { (result.table_id ≡ B.table) × (result.me ≡ (one_part seat.old.me.0, [])) }
    {
        self.table.shared.split_seat::<OnePart>(seat)
    }

    /// It has what the other had.
    pub(crate) fn join(&self, seat: &mut Token, other: Token)
        requires own { seat.old.table_id ≡ B.table }
        requires other { (other.table_id ≡ B.table) × (other.me.1 ≡ []) }
        ensures { (seat.new.table_id ≡ B.table) × (seat.new.me ≡ (joined seat.old.me.0 other.me.0, seat.old.me.1)) }
    {
        self.table.shared.join_seat::<Joined>(seat, other);
    }

    /// It asks, after what it was told last.
    pub(crate) fn step_asks<P: About>(&self, seat: &mut Token)
        requires own { seat.old.table_id ≡ B.table }
        requires parts { 0 < seat.old.me.0.parts }
        requires after { P.receipt.ask.after ≡ last_or 0 seat.old.me.0.told }
        ensures { (seat.new.table_id ≡ B.table)
            × (seat.new.me ≡ (asking P.receipt.ask seat.old.me.0, seat.old.me.1)) }
    {
        self.table.shared.load::<Asks<P>>(seat, 0);
    }

    /// The keeper carries out what it has the one ticket for.
    pub(crate) fn step_answers<P: About>(&self, seat: &mut Token)
        requires own { seat.old.table_id ≡ B.table }
        requires keeps { seat.old.me.0.keeps ≡ true }
        requires ticket { seat.old.me.0.tickets ≡ P.receipt.ask ∷ [] }
        requires next { P.receipt.reply.place ≡ length seat.old.me.0.history + 1 }
        ensures seat { (seat.new.table_id ≡ B.table)
            × (seat.new.me ≡ (answering P.receipt seat.old.me.0, seat.old.me.1)) }
        ensures order { IsInOrder P.receipt }
    {
        self.table.shared.load::<Answers<P>>(seat, 0);
    }

    /// It gives up what it has tickets for.
    pub(crate) fn step_gives_up(&self, seat: &mut Token)
        requires own { seat.old.table_id ≡ B.table }
        requires parts { 0 < seat.old.me.0.parts }
        ensures { (seat.new.table_id ≡ B.table) × (seat.new.me ≡ (giving_up seat.old.me.0, seat.old.me.1)) }
    {
        self.table.shared.load::<GivesUp>(seat, 0);
    }

    /// It takes back what it asked for last, for which it has the one ticket.
    pub(crate) fn step_withdraws(&self, seat: &mut Token)
        requires own { seat.old.table_id ≡ B.table }
        requires parts { 0 < seat.old.me.0.parts }
        requires last { (asked : List Ask) × (ask : Ask)
            × (seat.old.me.0.asked ≡ asked ++ ask ∷ []) × (seat.old.me.0.tickets ≡ ask ∷ []) }
        ensures { (seat.new.table_id ≡ B.table) × (seat.new.me ≡ (withdrawing seat.old.me.0, seat.old.me.1)) }
    {
        self.table.shared.load::<Withdraws>(seat, 0);
    }

    /// The keeper that has all parts, and owes nothing, has what it was told as its history.
    pub(crate) fn step_audits(&self, seat: &mut Token)
        requires own { seat.old.table_id ≡ B.table }
        requires keeps { seat.old.me.0.keeps ≡ true }
        requires parts { seat.old.me.0.parts ≡ all_parts }
        requires owes { Owes (account_of seat.old.me.0) 0 }
        ensures { HasHistory seat.old.me.0.history (account_of seat.old.me.0) }
    {
        self.table.shared.load::<Audits>(seat, 0);
    }

    /// The keeper's history has what it was told.
    pub(crate) fn step_looks(&self, seat: &mut Token)
        requires own { seat.old.table_id ≡ B.table }
        requires keeps { seat.old.me.0.keeps ≡ true }
        ensures same { (seat.new.table_id ≡ B.table) × (seat.new.me ≡ seat.old.me) }
        ensures within { IsWithin seat.old.me.0.history (account_of seat.old.me.0) }
    {
        self.table.shared.load::<Looks>(seat, 0);
    }
}

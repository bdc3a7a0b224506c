ghost use Rattle.std.specs.Prelude.{◌≡◌, ◌+◌, ◌-◌, ◌<◌, List, [], ◌∷◌, ◌++◌, length};
ghost use Rattle.xa_tokens.specs.Believed.Account.{HasHistory, IsWithin, Owes, account, merged};
ghost use Rattle.xa_tokens.specs.Believed.Receipts.{IsInOrder, ask_of, last_or, receipt_of};
ghost use Rattle.xa_tokens.specs.Believed.View.{all_parts};
ghost use Rattle.xa_tokens.specs.declared.ask.Ask.{Ask};

use crate::book::Book;
use crate::keeper::Keeper;
use crate::share::Share;
use crate::steps::About;
use crate::ticket::Ticket;
use crate::told::Told;
use crate::view::{OneHistory, View};
use atomic_table::Table;
use std::alloc::Global;
use std::marker::{Brand, PhantomData};
use xa_frame::Reply;
use xa_model::Event;

/// What the tokens of a history change by. Threads share it by a `&`. Each change is a load or a few of a word that is
/// never written; no byte of an event or a reply that a call is given is read.
#[derive(Drop)]
pub struct Tokens<B: Book> {
    pub(crate) table: Table<(), View, (), OneHistory, Global>,
    pub(crate) of: PhantomData<B>,
    ghost is: { table.shared.table_id ≡ B.table },
    ghost some: { 0 < table.shared.table_id.words },
}

impl<B: Book> Tokens<B> {
    /// Asks for an event, once. `after` is the place of the entry that the share was told last, or 0.
    pub fn ask(&self, share: &mut Share<B>, event: &Event, after: u64) -> Ticket<B>
        requires parts { 0 < share.old.parts }
        requires after { after ≡ last_or 0 share.old.told }
        ensures ticket { result ≡ ask_of event.now after }
        ensures share { share.new ≡ record share.old { asked = share.old.asked ++ ask_of event.now after ∷ [] } }
    {
        self.ask_as::<Brand>(share, event, after)
    }

    /// Answers the ask of a ticket, which is the history's next entry. The reply has its place.
    pub fn answer(&self, keeper: &mut Keeper<B>, ticket: Ticket<B>, reply: &Reply) -> Told<B>
        requires { reply.now.place ≡ length keeper.old + 1 }
        ensures told { result ≡ receipt_of ticket reply.now }
        ensures keeper { keeper.new ≡ keeper.old ++ receipt_of ticket reply.now ∷ [] }
    {
        self.answer_as::<Brand>(keeper, ticket, reply)
    }

    /// The share has the entry from now on.
    pub fn take(&self, share: &mut Share<B>, told: Told<B>)
        ensures share { share.new ≡ record share.old { told = share.old.told ++ told ∷ [] } }
        ensures last { last_or 0 share.new.told ≡ told.reply.place }
        ensures order { IsInOrder told }
    {
        let Told { seat, of: _ } = told;
        self.join(&mut share.seat, seat);
    }

    /// Nobody will carry the ask out.
    pub fn give_up(&self, share: &mut Share<B>, ticket: Ticket<B>)
        requires { 0 < share.old.parts }
        ensures { share.new ≡ record share.old { given_up = share.old.given_up ++ ticket ∷ [] } }
    {
        let Ticket { seat, of: _ } = ticket;
        self.join(&mut share.seat, seat);
        self.step_gives_up(&mut share.seat);
    }

    /// The share takes back what it asked for last: nobody will carry that out, and it is as if it hadn't been asked.
    pub fn withdraw(&self, share: &mut Share<B>, ticket: Ticket<B>)
        requires parts { 0 < share.old.parts }
        requires last { (asked : List Ask) × (share.old.asked ≡ asked ++ ticket ∷ []) }
        ensures { (asked : List Ask) → share.old.asked ≡ asked ++ ticket ∷ []
            → share.new ≡ record share.old { asked = asked } }
    {
        let Ticket { seat, of: _ } = ticket;
        self.join(&mut share.seat, seat);
        self.step_withdraws(&mut share.seat);
    }

    /// A share of one part, with which nothing was asked.
    pub fn split(&self, share: &mut Share<B>) -> Share<B>
        requires { 1 < share.old.parts }
        ensures one { result ≡ account 1 [] [] [] }
        ensures rest { share.new ≡ record share.old { parts = share.old.parts - 1 } }
    {
        let seat = self.cut_part(&mut share.seat);
        Share {
            seat,
            of: PhantomData,
        }
    }

    /// Both shares as one.
    pub fn merge(&self, share: &mut Share<B>, other: Share<B>)
        ensures { share.new ≡ merged share.old other }
    {
        let Share { seat, of: _ } = other;
        self.join(&mut share.seat, seat);
    }

    /// If all shares are one, and each ask was answered or given up, what it was told is the history, each entry
    /// once.
    pub fn audit(&self, keeper: Keeper<B>, all: Share<B>)
        requires parts { all.parts ≡ all_parts }
        requires owes { Owes all 0 }
        ensures { HasHistory keeper all }
    {
        let Keeper { mut seat, of: _ } = keeper;
        let Share { seat: other, of: _ } = all;
        self.join(&mut seat, other);
        self.step_audits(&mut seat);
    }

    /// What a share was told is in the history, whatever others ask and are told. It changes nothing.
    pub fn look(&self, keeper: &mut Keeper<B>, share: Share<B>) -> Share<B>
        ensures within { IsWithin keeper.old share }
        ensures same { (keeper.new ≡ keeper.old) × (result ≡ share) }
    {
        let Share { seat, of: _ } = share;
        self.join(&mut keeper.seat, seat);
        self.step_looks(&mut keeper.seat);
        let seat = self.cut_keeper(&mut keeper.seat);
        Share {
            seat,
            of: PhantomData,
        }
    }

    fn ask_as<P: About>(&self, share: &mut Share<B>, event: &Event, after: u64) -> Ticket<B>
        requires parts { 0 < share.old.parts }
        requires after { after ≡ last_or 0 share.old.told }
        requires about { P.receipt.ask ≡ ask_of event.now after }
        ensures ticket { result ≡ ask_of event.now after }
        ensures share { share.new ≡ record share.old { asked = share.old.asked ++ ask_of event.now after ∷ [] } }
    {
        self.step_asks::<P>(&mut share.seat);
        let seat = self.cut_tickets(&mut share.seat);
        Ticket {
            seat,
            of: PhantomData,
        }
    }

    fn answer_as<P: About>(
        &self,
        keeper: &mut Keeper<B>,
        ticket: Ticket<B>,
        reply: &Reply,
    ) -> Told<B>
        requires place { reply.now.place ≡ length keeper.old + 1 }
        requires about { P.receipt ≡ receipt_of ticket reply.now }
        ensures told { result ≡ receipt_of ticket reply.now }
        ensures keeper { keeper.new ≡ keeper.old ++ receipt_of ticket reply.now ∷ [] }
    {
        let Ticket { seat, of: _ } = ticket;
        self.join(&mut keeper.seat, seat);
        self.step_answers::<P>(&mut keeper.seat);
        let seat = self.cut_keeper(&mut keeper.seat);
        Told {
            seat,
            of: PhantomData,
        }
    }
}

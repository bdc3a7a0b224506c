//! What became of asks, noted by the keeper of the history.
ghost use Rattle.std.specs.Prelude.{◌≡◌, ◌+◌, [], ◌∷◌, ◌++◌, length, MatchBool};
ghost use Rattle.xa_assoc.specs.Refusals.{is_memory};
ghost use Rattle.xa_handles.specs.Believed.Accounts.{Ends, IsToldAtOnce, next_ask};
ghost use Rattle.xa_tokens.specs.Believed.Receipts.{receipt_of};

use crate::asker::Asker;
use xa_frame::Reply;
use xa_history::is_memory;
use xa_model::Event;
use xa_tokens::{Book, Keeper, Ticket, Tokens};

/// An event that is asked for was carried out, with this reply, of which the asker is told at once.
pub(crate) fn note<B: Book>(
    tokens: &Tokens<B>,
    keeper: &mut Keeper<B>,
    asker: &mut Asker<'_, B>,
    event: &Event,
    reply: &Reply,
)
    requires { reply.now.place ≡ length keeper.old + 1 }
    ensures keeper { keeper.new ≡ keeper.old ++ receipt_of (next_ask asker.old event.now) reply.now ∷ [] }
    ensures told { IsToldAtOnce asker.old event.now reply.now asker.new }
{
    let ticket = asker.ask(event);
    let told = tokens.answer(keeper, ticket, reply);
    asker.take(told, reply.place);
}

/// The ask of a ticket was carried out, and its asker is told; or there was no memory, and it is given up.
pub(crate) fn end<B: Book>(
    tokens: &Tokens<B>,
    keeper: &mut Keeper<B>,
    asker: &mut Asker<'_, B>,
    ticket: Ticket<B>,
    reply: &Reply,
)
    requires { MatchBool (is_memory reply.now.detail) (Unit {0}) (reply.now.place ≡ length keeper.old + 1) }
    ensures keeper { MatchBool (is_memory reply.now.detail) (keeper.new ≡ keeper.old)
        (keeper.new ≡ keeper.old ++ receipt_of ticket reply.now ∷ []) }
    ensures ends { Ends (is_memory reply.now.detail) asker.old ticket reply.now asker.new }
{
    if is_memory(reply) {
        asker.give_up(ticket);
        return;
    }
    let told = tokens.answer(keeper, ticket, reply);
    asker.take(told, reply.place);
}

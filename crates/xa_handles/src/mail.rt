//! The letters of a group: their calls, their answers, and their way into the trays.
ghost use Rattle.std.specs.Prelude.{ℕ, ◌≡◌, ◌+◌, ◌≤◌, [], ◌∷◌, ◌++◌, IfSome, IsTrue, MatchBool, length, sum_by};
ghost use Rattle.std.specs.List.{AllByRecursion};
ghost use Rattle.xa_frame.specs.Limits.{IsRequest};
ghost use Rattle.xa_handles.specs.Mail.{AreLetters, IsCallOf, Mailed, slot_weight};
ghost use Rattle.xa_handles.specs.Telling.{AnswersAll, AnswersAt, IsAnswerTo, IsOpen};
ghost use Rattle.xa_manager.specs.Once.{AreOnce};
ghost use Rattle.xa_sequencer.specs.Believed.Together.{ArePlaced};

use crate::letter::Letter;
use crate::trays::Trays;
use std::alloc::Global;
use xa_frame::Reply;
use xa_history::Start;
use xa_manager::Asked;
use xa_model::Event;
use xa_sequencer::Manages;
use xa_tokens::{Book, Keeper, Tokens};

/// Copies the calls of letters. Returns whether it did: it doesn't if one of them has its answer, or there is no memory.
pub(crate) fn copy_calls<M: Manages, S: Start, B: Book>(
    letters: &[Option<Letter<M, S, B>>],
    calls: &mut Vec<Asked>,
    alloc: Global,
) -> bool
    ensures are { IsTrue result → AreLetters letters.now calls.new.items }
    ensures limits { AllByRecursion (λ c. IsRequest c.request) calls.new.items }
{
    calls.clear();
    for letter in letters {
        let Some(call) = call_of(letter, alloc) else {
            return false;
        };
        if !push(calls, call) {
            return false;
        }
    }
    true
}

// Whether there was memory for one more.
fn push(calls: &mut Vec<Asked>, call: Asked) -> bool
    ensures { MatchBool result (calls.new.items ≡ calls.old.items ++ call ∷ []) (calls.new.items ≡ calls.old.items) }
{
    if calls.reserve(1).is_err() {
        return false;
    }
    calls.push_reserved(call);
    true
}

// A copy of a letter's call, if it has no answer, and there is memory.
fn call_of<M: Manages, S: Start, B: Book>(
    letter: &Option<Letter<M, S, B>>,
    alloc: Global,
) -> Option<Asked>
    ensures is { IfSome result (IsCallOf letter.now) }
    ensures limits { IfSome result (λ c. IsRequest c.request) }
{
    let Some(letter) = letter else {
        return None;
    };
    let Event::Call(session, request) = &letter.unanswered()?.event else {
        return None;
    };
    let Ok(request) = request.copied(alloc) else {
        return None;
    };
    Some(Asked {
        session: *session,
        request,
    })
}

/// Answers the calls of a group, in the order of their replies, each of which comes with its call's place. They are the
/// history's next entries. Takes no memory.
pub(crate) fn answer_all<M: Manages, S: Start, B: Book>(
    tokens: &Tokens<B>,
    keeper: &mut Keeper<B>,
    letters: &mut Vec<Option<Letter<M, S, B>>>,
    calls: &[Asked],
    replies: Vec<(usize, Reply)>,
)
    requires letters { AllByRecursion (IsOpen calls.now letters.old.items) replies.items }
    requires answers { AllByRecursion (IsAnswerTo M.manages S.start S.base calls.now) replies.items }
    requires once { AreOnce replies.items }
    requires places { ArePlaced (length keeper.old) replies.items }
    ensures { AnswersAll calls.now replies.items keeper.old letters.old.items keeper.new letters.new.items }
{
    for reply in replies {
        answer_at(tokens, keeper, letters, calls, reply);
    }
}

// Answers one of them.
fn answer_at<M: Manages, S: Start, B: Book>(
    tokens: &Tokens<B>,
    keeper: &mut Keeper<B>,
    letters: &mut Vec<Option<Letter<M, S, B>>>,
    calls: &[Asked],
    reply: (usize, Reply),
)
    requires opened { IsOpen calls.now letters.old.items reply }
    requires answer { IsAnswerTo M.manages S.start S.base calls.now reply }
    requires place { reply.1.place ≡ length keeper.old + 1 }
    ensures { AnswersAt calls.now reply keeper.old letters.old.items keeper.new letters.new.items }
{
    let (at, reply) = reply;
    let slot = &mut letters[at];
    let Some(letter) = slot.take() else {
        unreachable!()
    };
    *slot = Some(letter.answered(tokens, keeper, reply));
}

/// Puts letters into their trays, the last one first, as long as there is memory.
pub(crate) fn put_all<M: Manages, S: Start, B: Book>(
    letters: &mut Vec<Option<Letter<M, S, B>>>,
    trays: &mut Trays<M, S, B>,
)
    ensures less { length letters.new.items ≤ length letters.old.items }
    ensures weighs { (weigh : Mailed → ℕ) → sum_by (slot_weight weigh) letters.new.items + sum_by (λ t. sum_by weigh t) trays.new
        ≡ sum_by (slot_weight weigh) letters.old.items + sum_by (λ t. sum_by weigh t) trays.old }
{
    while let Some(slot) = letters.pop() {
        if let Some(letter) = slot {
            if let Err(letter) = trays.put(letter) {
                letters.push_reserved(Some(letter));
                return;
            }
        }
    }
}

ghost use Rattle.std.specs.Prelude.{◌≡◌, ℕ, IfSome, false};
ghost use Rattle.xa_model.specs.State.{Known};
ghost use Rattle.xa_model.specs.Associations.{connect_refusal, close_refusal, start_refusal, join_refusal, resume_refusal};
ghost use Rattle.xa_model.specs.Associations.{end_refusal, loose_refusal, is_unknown, is_lasting};
ghost use Rattle.xa_assoc.specs.Refusals.{is_memory, IsBare};

use xa_codes::{Detail, XAER_DUPID, XAER_NOTA, XAER_PROTO, XAER_RMERR};
use xa_frame::Reply;
use xa_limits::{MOST_BRANCHES, MOST_GIVEN, MOST_LOOSE, MOST_SESSIONS};

/// The refusal of a connect, if `connected` sessions are connected.
pub fn connect_refusal(connected: usize) -> Option<Reply>
    ensures value { result ≡ connect_refusal connected }
{
    if connected < MOST_SESSIONS {
        return None;
    }
    Some(Reply::detailed(XAER_RMERR, Detail::Limit))
}

/// The refusal of a close, by whether the session has an association.
pub fn close_refusal(holds: bool) -> Option<Reply>
    ensures value { result ≡ close_refusal holds }
{
    if holds {
        return Some(Reply::plain(XAER_PROTO));
    }
    None
}

/// The refusal of the start of a new branch, if `known` branches are known and `given` timestamps are given.
pub fn start_refusal(is_at_work: bool, is_taken: bool, known: usize, given: u64) -> Option<Reply>
    ensures value { result ≡ start_refusal is_at_work is_taken known given }
{
    if is_at_work {
        return Some(Reply::plain(XAER_PROTO));
    }
    if is_taken {
        return Some(Reply::plain(XAER_DUPID));
    }
    if known >= MOST_BRANCHES || given >= MOST_GIVEN {
        return Some(Reply::detailed(XAER_RMERR, Detail::Limit));
    }
    None
}

/// The refusal of a start with TMJOIN. A branch is lasting once it is prepared or completed.
pub fn join_refusal(
    is_at_work: bool,
    has_suspended: bool,
    unknown: bool,
    lasting: bool,
) -> Option<Reply>
    ensures value { (known : Known) → is_unknown known ≡ unknown → is_lasting known ≡ lasting
        → result ≡ join_refusal is_at_work has_suspended known }
    ensures served { IfSome result (λ r. is_memory r.detail ≡ false) }
    ensures bare { IfSome result IsBare }
{
    if is_at_work || has_suspended {
        return Some(Reply::plain(XAER_PROTO));
    }
    if unknown {
        return Some(Reply::plain(XAER_NOTA));
    }
    if lasting {
        return Some(Reply::plain(XAER_PROTO));
    }
    None
}

/// The refusal of a start with TMRESUME.
pub fn resume_refusal(
    is_at_work: bool,
    unknown: bool,
    has_suspended: bool,
    has_loose: bool,
) -> Option<Reply>
    ensures value { (known : Known) → is_unknown known ≡ unknown
        → result ≡ resume_refusal is_at_work known has_suspended has_loose }
    ensures served { IfSome result (λ r. is_memory r.detail ≡ false) }
    ensures bare { IfSome result IsBare }
{
    if is_at_work {
        return Some(Reply::plain(XAER_PROTO));
    }
    if unknown {
        return Some(Reply::plain(XAER_NOTA));
    }
    if !(has_suspended || has_loose) {
        return Some(Reply::plain(XAER_PROTO));
    }
    None
}

/// The refusal of an end. The session holds what has to end, or to be suspended, or it doesn't.
pub fn end_refusal(unknown: bool, holds: bool) -> Option<Reply>
    ensures value { (known : Known) → is_unknown known ≡ unknown → result ≡ end_refusal known holds }
    ensures served { IfSome result (λ r. is_memory r.detail ≡ false) }
    ensures bare { IfSome result IsBare }
{
    if unknown {
        return Some(Reply::plain(XAER_NOTA));
    }
    if !holds {
        return Some(Reply::plain(XAER_PROTO));
    }
    None
}

/// The refusal of an end with TMSUSPEND of a branch with `loose` loose associations: with TMMIGRATE there is one more.
pub fn loose_refusal(migrates: bool, loose: u64) -> Option<Reply>
    ensures value { result ≡ loose_refusal migrates loose }
{
    if migrates && loose >= MOST_LOOSE {
        return Some(Reply::detailed(XAER_RMERR, Detail::Limit));
    }
    None
}

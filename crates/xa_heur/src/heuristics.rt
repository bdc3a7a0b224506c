ghost use Rattle.std.specs.Prelude.{◌≡◌, IfOk};
ghost use Rattle.xa_record.specs.declared.record.Record.TheVariants as logged;
ghost use Rattle.xa_model.specs.{State.Known, Completions.decide_refusal, Completions.forget_refusal};
ghost use Rattle.xa_heur.specs.Answers.{IsStateOf, refused, answered, completion_refusal};

use xa_branch::State;
use xa_codes::{Call, Code, Direction, XA_HEURCOM, XA_HEURRB, XAER_PROTO};
use xa_record::Record;
use xa_xid::Xid;

/// The record of an operator's decision. Only a branch that is in doubt is decided: for another one, also one that
/// was decided before, XAER_PROTO.
pub fn decide(state: State, xid: &Xid, direction: Direction) -> Result<Record, Code>
    ensures refusal { (known : Known) → IsStateOf state known → refused result ≡ decide_refusal known }
    ensures logs { IfOk result (λ r. r ≡ logged.Decided xid.now direction) }
{
    match state {
        State::Prepared => Ok(Record::Decided {
            xid: xid.copied(),
            direction,
        }),
        State::RollbackOnly(_)
        | State::Active
        | State::Suspended
        | State::Idle
        | State::HeurCommitted
        | State::HeurRolledBack => Err(XAER_PROTO),
    }
}

/// What a commit in two phases or a rollback is answered if the operator completed the branch: XA_HEURCOM if he
/// committed it, XA_HEURRB if he rolled it back, whichever of the two is asked. For other calls and other branches
/// nothing.
pub fn answer_completed(state: State, call: Call) -> Option<Code>
    ensures { (known : Known) → IsStateOf state known → answered result ≡ completion_refusal call known }
{
    match call {
        Call::Commit | Call::Rollback => match state {
            State::HeurCommitted => Some(XA_HEURCOM),
            State::HeurRolledBack => Some(XA_HEURRB),
            State::RollbackOnly(_)
            | State::Active
            | State::Suspended
            | State::Idle
            | State::Prepared => None,
        },
        _ => None,
    }
}

/// The record that forgets what the operator decided. For a branch that he did not complete, XAER_PROTO.
pub fn forget(state: State, xid: &Xid) -> Result<Record, Code>
    ensures refusal { (known : Known) → IsStateOf state known → refused result ≡ forget_refusal known }
    ensures logs { IfOk result (λ r. r ≡ logged.Forgotten xid.now) }
{
    match state {
        State::HeurCommitted | State::HeurRolledBack => Ok(Record::Forgotten { xid: xid.copied() }),
        State::RollbackOnly(_) | State::Active | State::Suspended | State::Idle | State::Prepared =>
            Err(XAER_PROTO),
    }
}

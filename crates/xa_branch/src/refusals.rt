ghost use Rattle.std.specs.Prelude.{◌≡◌};
ghost use Rattle.xa_model.specs.Phases.{unprepared_refusal, two_phase_refusal, rollback_refusal, doom_refusal};
ghost use Rattle.xa_branch.specs.Facts.{fact_of};

use crate::known::Known;
use xa_codes::{XAER_NOTA, XAER_PROTO};
use xa_frame::Reply;

/// Why a branch can be neither prepared nor committed in one phase: its XID isn't known, it is associated, or it is
/// prepared or completed.
pub fn unprepared_refusal(known: Known, is_associated: bool) -> Option<Reply>
    ensures value { result ≡ unprepared_refusal (fact_of known) is_associated }
{
    match known {
        Known::Unknown => Some(Reply::plain(XAER_NOTA)),
        Known::AtWork(_) if !is_associated => None,
        _ => Some(Reply::plain(XAER_PROTO)),
    }
}

/// Why a branch can't be committed in two phases: its XID isn't known, or it is neither prepared nor completed.
pub fn two_phase_refusal(known: Known) -> Option<Reply>
    ensures value { result ≡ two_phase_refusal (fact_of known) }
{
    match known {
        Known::Unknown => Some(Reply::plain(XAER_NOTA)),
        Known::AtWork(_) => Some(Reply::plain(XAER_PROTO)),
        Known::InDoubt | Known::Completed(_) => None,
    }
}

/// Why a branch can't be rolled back: its XID isn't known, or it is associated.
pub fn rollback_refusal(known: Known, is_associated: bool) -> Option<Reply>
    ensures value { result ≡ rollback_refusal (fact_of known) is_associated }
{
    match known {
        Known::Unknown => Some(Reply::plain(XAER_NOTA)),
        _ if is_associated => Some(Reply::plain(XAER_PROTO)),
        _ => None,
    }
}

/// Why the operator can't doom a branch: its XID isn't known, or it is prepared or completed.
pub fn doom_refusal(known: Known) -> Option<Reply>
    ensures value { result ≡ doom_refusal (fact_of known) }
{
    match known {
        Known::Unknown => Some(Reply::plain(XAER_NOTA)),
        Known::AtWork(_) => None,
        Known::InDoubt | Known::Completed(_) => Some(Reply::plain(XAER_PROTO)),
    }
}

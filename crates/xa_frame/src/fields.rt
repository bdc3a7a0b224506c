ghost use Rattle.std.specs.Int.{w16, w32, w64};
ghost use Rattle.std.specs.Prelude.{◌≡◌};
ghost use Rattle.xa_fields.specs.Answers.{Gives};
ghost use Rattle.xa_frame.specs.Reading.{ended, number_at, code_at, detail_at, cursor_at, state_at, counts_at, branch_at};

use crate::fault::FrameFault;
use crate::known_branch::{AssociationCounts, BranchState, KnownBranch};
use crate::numbers::{detail_of, state_of};
use xa_bytes::{take_u16, take_u32, take_u64};
use xa_codes::{Code, Detail};
use xa_fields::take_xid;
use xa_xid::Xid;

/// Nothing may be left.
pub(crate) fn end(bytes: &[u8]) -> Result<(), FrameFault>
    ensures { result ≡ ended tt bytes.now }
{
    if bytes.is_empty() {
        Ok(())
    } else {
        Err(FrameFault::Trailing)
    }
}

#[tactic(auto, unfolding(crate::specs::Reading::number_at))]
pub(crate) fn u16_at(bytes: &[u8]) -> Result<(u16, &[u8]), FrameFault>
    ensures { Gives (λ x. (x.0, x.1.now)) result (number_at w16 bytes.now) }
{
    take_u16(bytes).ok_or(FrameFault::Short)
}

#[tactic(auto, unfolding(crate::specs::Reading::number_at))]
pub(crate) fn u32_at(bytes: &[u8]) -> Result<(u32, &[u8]), FrameFault>
    ensures { Gives (λ x. (x.0, x.1.now)) result (number_at w32 bytes.now) }
{
    take_u32(bytes).ok_or(FrameFault::Short)
}

#[tactic(auto, unfolding(crate::specs::Reading::number_at))]
pub(crate) fn u64_at(bytes: &[u8]) -> Result<(u64, &[u8]), FrameFault>
    ensures { Gives (λ x. (x.0, x.1.now)) result (number_at w64 bytes.now) }
{
    take_u64(bytes).ok_or(FrameFault::Short)
}

#[tactic(auto, unfolding(crate::specs::Reading::code_at, crate::specs::Reading::number_at))]
pub(crate) fn code_of(bytes: &[u8]) -> Result<(Code, &[u8]), FrameFault>
    ensures { Gives (λ x. (x.0, x.1.now)) result (code_at bytes.now) }
{
    if bytes.len() < 4 {
        return Err(FrameFault::Short);
    }
    let (front, rest) = bytes.split_at(4);
    let code = i32::from_be_bytes([front[0], front[1], front[2], front[3]]);
    Ok((code, rest))
}

#[tactic(auto, unfolding(crate::specs::Reading::detail_at))]
pub(crate) fn detail_front(bytes: &[u8]) -> Result<(Detail, &[u8]), FrameFault>
    ensures { Gives (λ x. (x.0, x.1.now)) result (detail_at bytes.now) }
{
    match bytes {
        [] => Err(FrameFault::Short),
        [number, rest @ ..] => match detail_of(*number) {
            Some(detail) => Ok((detail, rest)),
            None => Err(FrameFault::Field),
        },
    }
}

/// No XID, or one.
#[tactic(auto, unfolding(crate::specs::Reading::cursor_at))]
pub(crate) fn cursor_of(bytes: &[u8]) -> Result<(Option<Xid>, &[u8]), FrameFault>
    ensures { Gives (λ x. (x.0, x.1.now)) result (cursor_at bytes.now) }
{
    match bytes {
        [] => Err(FrameFault::Short),
        [0, rest @ ..] => Ok((None, rest)),
        [1, rest @ ..] => {
            let (xid, rest) = take_xid(rest)?;
            Ok((Some(xid), rest))
        }
        [_, ..] => Err(FrameFault::Field),
    }
}

#[tactic(auto, unfolding(crate::specs::Reading::state_at))]
fn state_front(bytes: &[u8]) -> Result<(BranchState, &[u8]), FrameFault>
    ensures { Gives (λ x. (x.0, x.1.now)) result (state_at bytes.now) }
{
    match bytes {
        [] => Err(FrameFault::Short),
        [number, rest @ ..] => match state_of(*number) {
            Some(state) => Ok((state, rest)),
            None => Err(FrameFault::Field),
        },
    }
}

#[tactic(auto, unfolding(crate::specs::Reading::counts_at))]
fn counts_front(bytes: &[u8]) -> Result<(AssociationCounts, &[u8]), FrameFault>
    ensures { Gives (λ x. (x.0, x.1.now)) result (counts_at bytes.now) }
{
    let (active, rest) = u16_at(bytes)?;
    let (suspended, rest) = u16_at(rest)?;
    let (loose, rest) = u16_at(rest)?;
    let counts = AssociationCounts {
        active,
        suspended,
        loose,
    };
    Ok((counts, rest))
}

/// A known branch. Takes no memory.
#[tactic(auto, unfolding(crate::specs::Reading::branch_at))]
pub(crate) fn branch_front(bytes: &[u8]) -> Result<(KnownBranch, &[u8]), FrameFault>
    ensures { Gives (λ x. (x.0, x.1.now)) result (branch_at bytes.now) }
{
    let (xid, rest) = take_xid(bytes)?;
    let (state, rest) = state_front(rest)?;
    let (mark, rest) = code_of(rest)?;
    let (timestamp, rest) = u64_at(rest)?;
    let (associations, rest) = counts_front(rest)?;
    let branch = KnownBranch {
        xid,
        state,
        mark,
        timestamp,
        associations,
    };
    Ok((branch, rest))
}

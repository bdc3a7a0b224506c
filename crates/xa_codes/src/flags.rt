ghost use Rattle.std.specs.Prelude.{◌≡◌};
ghost use Rattle.xa_codes.specs.Flags.{legal};
ghost use Rattle.xa_codes.specs.Rows.{HasValues, HasNumbers, MayHave, MayNotHave};

use crate::call::Call;

pub const TMNOFLAGS: u32 = 0x0000_0000;

pub const TMASYNC: u32 = 0x8000_0000;

pub const TMONEPHASE: u32 = 0x4000_0000;

pub const TMFAIL: u32 = 0x2000_0000;
/// Changes nothing here, since no call blocks on another branch.
pub const TMNOWAIT: u32 = 0x1000_0000;

pub const TMRESUME: u32 = 0x0800_0000;

pub const TMSUCCESS: u32 = 0x0400_0000;

pub const TMSUSPEND: u32 = 0x0200_0000;

pub const TMSTARTRSCAN: u32 = 0x0100_0000;

pub const TMENDRSCAN: u32 = 0x0080_0000;

pub const TMMULTIPLE: u32 = 0x0040_0000;

pub const TMJOIN: u32 = 0x0020_0000;

pub const TMMIGRATE: u32 = 0x0010_0000;

/// Whether a call may have these flags. TMASYNC is taken away first, except on Recover: it has an answer of its own,
/// XAER_ASYNC. Takes no memory.
pub fn legal_flags(call: Call, flags: u32) -> bool
    ensures { result ≡ legal call flags }
{
    let rest = flags & !TMASYNC;
    match call {
        Call::Open | Call::Close | Call::Prepare | Call::Rollback | Call::Forget => rest == 0,
        Call::Start => {
            rest & !(TMJOIN | TMRESUME | TMNOWAIT) == 0
                && rest & (TMJOIN | TMRESUME) != TMJOIN | TMRESUME
        }
        Call::End => {
            rest == TMSUCCESS
                || rest == TMFAIL
                || rest == TMSUSPEND
                || rest == TMSUSPEND | TMMIGRATE
        }
        Call::Commit => rest & !(TMONEPHASE | TMNOWAIT) == 0,
        Call::Recover => flags & !(TMSTARTRSCAN | TMENDRSCAN) == 0,
        Call::Get
        | Call::Put
        | Call::Delete
        | Call::Decide
        | Call::Doom
        | Call::Restart
        | Call::Timeout
        | Call::Tick
        | Call::Trim
        | Call::Branches => rest == 0,
    }
}

/// The law of worked rows: the values of the flags, the numbers of the directions, flags that a call may have, and
/// flags that it may not have, by the definition of `legal_flags`. It does nothing.
pub fn worked_flags()
    ensures values { HasValues }
    ensures directions { HasNumbers }
    ensures legal { MayHave }
    ensures illegal { MayNotHave }
{}

ghost use Rattle.std.specs.Prelude.{◌≡◌};
ghost use Rattle.xa_talk.specs.declared.fault.TalkFault.TheVariants.{Memory};
ghost use Rattle.xa_operate.specs.declared.fault.OperateFault.TheVariants.{Talk};

use std::alloc::AllocError;
use std::error::Error;
use std::fmt;
use xa_codes::{Code, Detail, code_name};
use xa_talk::TalkFault;

/// Why a task isn't done, or isn't known to be. Its text is what `xarm` prints after its name.
#[derive(Clone, Copy, Debug, PartialEq, Eq)]
pub enum OperateFault {
    /// The server refused a question so.
    Refused(Code, Detail),
    /// It wasn't asked for, since who was asked back didn't say yes.
    Declined,
    /// The connection couldn't be opened, or broke, or brought what is no reply; or an answer couldn't be printed; or memory
    /// ran out.
    Talk(TalkFault),
}

impl fmt::Display for OperateFault {
    fn fmt<W: fmt::Write>(&self, f: &mut fmt::Formatter<W>) -> fmt::Result {
        match self {
            OperateFault::Refused(code, Detail::Nothing) => write!(
                f,
                "{code} {}",
                code_name(*code)
            ),
            OperateFault::Refused(code, detail) => {
                write!(f, "{code} {} {detail:?}", code_name(*code))
            }
            OperateFault::Declined => f.write_str("not done"),
            OperateFault::Talk(fault) => write!(f, "{fault}"),
        }
    }
}

impl Error for OperateFault {}

impl From<AllocError> for OperateFault {
    ghost from_gives = { λ _ fault. fault ≡ Talk Memory };

    fn from(_: AllocError) -> OperateFault {
        OperateFault::Talk(TalkFault::Memory)
    }
}

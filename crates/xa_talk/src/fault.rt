ghost use Rattle.std.specs.Prelude.{◌≡◌};
ghost use Rattle.xa_talk.specs.declared.fault.TalkFault.TheVariants.{Memory};

use std::alloc::AllocError;
use thiserror::Error;

/// Why a script wasn't talked to its end. Its text is what `xarm` prints after its name.
#[derive(Clone, Copy, Debug, PartialEq, Eq, Error)]
pub enum TalkFault {
    #[error("no memory")]
    Memory,
    #[error("cannot read")]
    Read,
    #[error("cannot write")]
    Write,
    /// No connection could be opened.
    #[error("cannot connect")]
    Connect,
    /// The connection ended or failed before the whole reply was there.
    #[error("connection lost")]
    Broken,
    /// What came isn't the frame of a reply.
    #[error("no reply")]
    NoReply,
    /// A reply is an error, which ends a script that is talked strictly.
    #[error("refused")]
    Refused,
}

impl From<AllocError> for TalkFault {
    ghost from_gives = { λ _ fault. fault ≡ Memory };

    fn from(_: AllocError) -> TalkFault {
        TalkFault::Memory
    }
}

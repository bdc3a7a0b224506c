ghost use Rattle.std.specs.Prelude.{◌≡◌};
ghost use Rattle.xa_commands.specs.declared.secret_fault.SecretFault.TheVariants.{Memory};

use std::alloc::AllocError;
use std::io;
use thiserror::Error;

/// Why a secret can't be had where it is to be read.
#[derive(Clone, Copy, Debug, Drop, Error)]
pub enum SecretFault {
    #[error("no memory")]
    Memory,
    /// It couldn't be opened or read.
    #[error("{0}")]
    Unread(io::Error),
    /// It is a file that not its owner alone may read or write.
    #[error("not its owner's alone: its mode is to be 0600")]
    Shared,
    #[error("its first line, which is to be the secret, is empty")]
    Empty,
    #[error("its first line, which is to be the secret, has more than 1,024 bytes")]
    TooLong,
}

impl From<AllocError> for SecretFault {
    ghost from_gives = { λ _ fault. fault ≡ Memory };

    fn from(_: AllocError) -> SecretFault {
        SecretFault::Memory
    }
}

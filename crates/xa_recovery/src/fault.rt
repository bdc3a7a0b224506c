ghost use Rattle.std.specs.Prelude.{◌≡◌};
ghost use Rattle.xa_recovery.specs.declared.fault.AddFault.TheVariants.{Memory};
ghost use Rattle.xa_recovery.specs.declared.fault.RebuildFault.TheVariants.{Memory as WantsMemory};

use std::alloc::{AllocError, AllocFailed};
use thiserror::Error;

/// Why a record wasn't taken.
#[derive(Clone, Copy, Debug, PartialEq, Eq, Error)]
pub enum AddFault {
    /// Out of memory.
    #[error("no memory")]
    Memory,
    /// It may not follow those that were read.
    #[error("record out of order")]
    Order,
}

/// Why records come to nothing.
#[derive(Clone, Copy, Debug, PartialEq, Eq, Error)]
pub enum RebuildFault {
    /// Out of memory.
    #[error("no memory")]
    Memory,
    /// The record with this index, counted from 0, is the first that may not follow those before it.
    #[error("record {0} out of order")]
    Order(usize),
}

impl From<AllocError> for AddFault {
    ghost from_gives = { λ _ e. e ≡ Memory };

    fn from(_e: AllocError) -> AddFault {
        AddFault::Memory
    }
}

impl<T: Drop> From<AllocFailed<T>> for AddFault {
    ghost from_gives = { λ _ e. e ≡ Memory };

    fn from(_e: AllocFailed<T>) -> AddFault {
        AddFault::Memory
    }
}

impl From<AllocError> for RebuildFault {
    ghost from_gives = { λ _ e. e ≡ WantsMemory };

    fn from(_e: AllocError) -> RebuildFault {
        RebuildFault::Memory
    }
}

ghost use Rattle.std.specs.Prelude.{◌≡◌};
ghost use Rattle.xa_recovery.specs.declared.log_fault.LogFault.TheVariants.{Memory};

use std::alloc::{AllocError, AllocFailed};
use thiserror::Error;

/// Why the bodies of a log come to nothing. Indices count from 0.
#[derive(Clone, Copy, Debug, PartialEq, Eq, Error)]
pub enum LogFault {
    /// Out of memory.
    #[error("no memory")]
    Memory,
    /// The body with this index is the first that is no record's.
    #[error("record {0} malformed")]
    Malformed(usize),
    /// Each body is a record's, and the record with this index is the first that may not follow those before it.
    #[error("record {0} out of order")]
    Order(usize),
}

impl From<AllocError> for LogFault {
    ghost from_gives = { λ _ e. e ≡ Memory };

    fn from(_e: AllocError) -> LogFault {
        LogFault::Memory
    }
}

impl<T: Drop> From<AllocFailed<T>> for LogFault {
    ghost from_gives = { λ _ e. e ≡ Memory };

    fn from(_e: AllocFailed<T>) -> LogFault {
        LogFault::Memory
    }
}

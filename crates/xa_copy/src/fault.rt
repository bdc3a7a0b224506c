ghost use Rattle.std.specs.Prelude.{◌≡◌};
ghost use Rattle.xa_copy.specs.declared.fault.CopyFault.TheVariants.{Device, Memory, Read};

use crate::source::SourceFault;
use std::alloc::{AllocError, AllocFailed};
use thiserror::Error;
use xa_disk::DiskFault;

/// Why no copy of a log was made. The files that are copied are only read, whatever is answered.
#[derive(Clone, Copy, Debug, PartialEq, Eq, Error)]
pub enum CopyFault {
    /// Neither file is a log with a record.
    #[error("not a log")]
    NotALog,
    /// One of the files has a later format, 3 to 9.
    #[error("log too new")]
    TooNew,
    /// The log and its closing length have more bytes than a log may have.
    #[error("log too long")]
    TooLong,
    /// Neither a record that chains nor a closing length stands after the records before: the record's number in its file,
    /// from 1, and the byte at which it begins.
    #[error("log damaged: record {number} at byte {at}")]
    Damaged { number: u64, at: u64 },
    /// Each time that the log was copied, it had been begun anew by the end.
    #[error("log begun anew while it was copied")]
    Moved,
    /// A file that the copy should be written to isn't empty.
    #[error("not empty")]
    NotEmpty,
    /// A read of the log failed.
    #[error("cannot read")]
    Read,
    /// A call on a file that the copy is written to failed.
    #[error("cannot write")]
    Device,
    #[error("no memory")]
    Memory,
}

impl From<SourceFault> for CopyFault {
    ghost from_gives = { λ _ fault. fault ≡ Read };

    fn from(_fault: SourceFault) -> CopyFault {
        CopyFault::Read
    }
}

impl From<DiskFault> for CopyFault {
    ghost from_gives = { λ _ fault. fault ≡ Device };

    fn from(_fault: DiskFault) -> CopyFault {
        CopyFault::Device
    }
}

impl From<AllocError> for CopyFault {
    ghost from_gives = { λ _ fault. fault ≡ Memory };

    fn from(_error: AllocError) -> CopyFault {
        CopyFault::Memory
    }
}

impl<T: Drop> From<AllocFailed<T>> for CopyFault {
    ghost from_gives = { λ _ fault. fault ≡ Memory };

    fn from(_error: AllocFailed<T>) -> CopyFault {
        CopyFault::Memory
    }
}

ghost use Rattle.std.specs.Prelude.{◌≡◌};
ghost use Rattle.xa_frame.specs.{declared.fault.FrameFault.TheVariants.Memory, Fields.fault_of_field};

use std::alloc::{AllocError, AllocFailed};
use thiserror::Error;
use xa_fields::FieldFault;
use xa_limits::MOST_CONTENT;

/// Why a content gave no value: the first fault, read from left to right.
#[derive(Clone, Copy, Debug, PartialEq, Eq, Error)]
pub enum FrameFault {
    /// A number, a length or the bytes that it announces are cut.
    #[error("content cut short")]
    Short = 1,
    /// There are more than `MOST_CONTENT` bytes.
    #[error("content above {most} bytes", most = MOST_CONTENT)]
    Long = 2,
    /// The first byte isn't 1.
    #[error("version not 1")]
    Version = 3,
    /// The operation isn't one of 1 to 17, or 65 to 67.
    #[error("operation not one of 1 to 17, or 65 to 67")]
    Operation = 4,
    /// A field is outside its limits, or no XID.
    #[error("field out of its limits")]
    Field = 5,
    /// Bytes are left.
    #[error("bytes behind the last field")]
    Trailing = 6,
    /// There is a value, but there was no memory for it.
    #[error("no memory")]
    Memory = 7,
}

impl From<FieldFault> for FrameFault {
    ghost from_gives = { λ e f. f ≡ fault_of_field e };

    fn from(e: FieldFault) -> FrameFault {
        match e {
            FieldFault::Cut => FrameFault::Short,
            FieldFault::Limit => FrameFault::Field,
        }
    }
}

impl From<AllocError> for FrameFault {
    ghost from_gives = { λ _ e. e ≡ Memory };

    fn from(_e: AllocError) -> FrameFault {
        FrameFault::Memory
    }
}

impl<T: Drop> From<AllocFailed<T>> for FrameFault {
    ghost from_gives = { λ _ e. e ≡ Memory };

    fn from(_e: AllocFailed<T>) -> FrameFault {
        FrameFault::Memory
    }
}

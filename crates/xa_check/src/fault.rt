ghost use Rattle.std.specs.Prelude.{◌≡◌};
ghost use Rattle.xa_check.specs.Checks.{fault_of};
ghost use Rattle.xa_check.specs.declared.fault.CheckFault.TheVariants.{Memory};

use std::alloc::AllocError;
use thiserror::Error;
use xa_log::OpenFault;

/// Why it isn't told what two files are. Its text is what `xarm` prints after its name.
#[derive(Clone, Copy, Debug, PartialEq, Eq, Error)]
pub enum CheckFault {
    #[error("no memory")]
    Memory,
    #[error("cannot write")]
    Write,
    #[error("device fault")]
    Device,
}

impl From<AllocError> for CheckFault {
    ghost from_gives = { λ _ fault. fault ≡ Memory };

    fn from(_: AllocError) -> CheckFault {
        CheckFault::Memory
    }
}

impl From<OpenFault> for CheckFault {
    ghost from_gives = { λ fault told. told ≡ fault_of fault };

    fn from(fault: OpenFault) -> CheckFault {
        match fault {
            OpenFault::Memory => CheckFault::Memory,
            // the files' bytes are no fault here
            _ => CheckFault::Device,
        }
    }
}

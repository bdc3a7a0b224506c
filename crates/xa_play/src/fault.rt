ghost use Rattle.std.specs.Prelude.{◌≡◌};
ghost use Rattle.xa_play.specs.{declared.fault.PlayFault.TheVariants.Memory, Faults.fault_of};

use std::alloc::AllocError;
use thiserror::Error;
use xa_manager::ManagerFault;

/// Why a script wasn't played to its end. Its text is what `xarm` prints after its name.
#[derive(Clone, Copy, Debug, PartialEq, Eq, Error)]
pub enum PlayFault {
    #[error("no memory")]
    Memory,
    #[error("bad setting")]
    Setting,
    #[error("script too long")]
    TooLong,
    #[error("cannot read")]
    Read,
    #[error("cannot write")]
    Write,
    /// The manager couldn't be opened on its disks.
    #[error("{0}")]
    Manager(ManagerFault),
}

impl From<AllocError> for PlayFault {
    ghost from_gives = { λ _ fault. fault ≡ Memory };

    fn from(_: AllocError) -> PlayFault {
        PlayFault::Memory
    }
}

impl From<ManagerFault> for PlayFault {
    ghost from_gives = { λ fault played. played ≡ fault_of fault };

    fn from(fault: ManagerFault) -> PlayFault {
        match fault {
            ManagerFault::Memory => PlayFault::Memory,
            ManagerFault::Setting => PlayFault::Setting,
            fault => PlayFault::Manager(fault),
        }
    }
}

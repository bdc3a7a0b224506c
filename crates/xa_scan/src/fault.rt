ghost use Rattle.std.specs.Prelude.{◌≡◌};
ghost use Rattle.xa_scan.specs.{declared.fault.ScanFault.TheVariants.Memory, Faults.fault_of};

use std::alloc::AllocError;
use thiserror::Error;
use xa_log::OpenFault;

/// Why a log wasn't printed to its end. Its text is what `xarm` prints after its name.
#[derive(Clone, Copy, Debug, PartialEq, Eq, Error)]
pub enum ScanFault {
    #[error("no memory")]
    Memory,
    #[error("cannot write")]
    Write,
    /// The disk's bytes weren't taken as a log.
    #[error("{0}")]
    Log(OpenFault),
    /// All lines were printed of a log that is damaged after them: the record that isn't as it was written, from 1, and
    /// the byte at which it begins.
    #[error("log damaged: record {number} at byte {at}")]
    Damaged { number: usize, at: u64 },
}

impl From<AllocError> for ScanFault {
    ghost from_gives = { λ _ fault. fault ≡ Memory };

    fn from(_: AllocError) -> ScanFault {
        ScanFault::Memory
    }
}

impl From<OpenFault> for ScanFault {
    ghost from_gives = { λ fault scanned. scanned ≡ fault_of fault };

    fn from(fault: OpenFault) -> ScanFault {
        match fault {
            OpenFault::Memory => ScanFault::Memory,
            fault => ScanFault::Log(fault),
        }
    }
}

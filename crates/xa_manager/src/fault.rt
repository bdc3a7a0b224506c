use thiserror::Error;
use xa_log::OpenFault;
use xa_recovery::LogFault;

/// Why there is no manager. Indices of records count from 0.
#[derive(Clone, Copy, Debug, PartialEq, Eq, Error)]
pub enum ManagerFault {
    /// The files are no log that can be read.
    #[error("{0}")]
    Log(OpenFault),
    /// The log is in the second file, and the first one is empty, in which every log is made.
    #[error("first file missing")]
    MissingFirst,
    /// The log in the first file is of generation 2 or more, and the second one is empty, to which the second generation
    /// went.
    #[error("second file missing")]
    MissingSecond,
    /// What has this index is no record.
    #[error("record {0} malformed")]
    Malformed(usize),
    /// The record with this index may not follow those before it.
    #[error("record {0} out of order")]
    Order(usize),
    /// The number of the boot would be too great.
    #[error("boots used up")]
    Boots,
    /// The log leaves no room for a new boot.
    #[error("log full")]
    LogFull,
    /// The device failed, as the new boot was logged.
    #[error("device fault")]
    Device,
    /// There was no memory.
    #[error("no memory")]
    Memory,
    /// A setting is outside its limits.
    #[error("bad setting")]
    Setting,
}

impl From<LogFault> for ManagerFault {
    ghost use Rattle.std.specs.Prelude.{◌≡◌};
    ghost use Rattle.xa_manager.specs.Faults.{fault_of};

    ghost from_gives = { λ fault opened. opened ≡ fault_of fault };

    fn from(fault: LogFault) -> ManagerFault {
        match fault {
            LogFault::Memory => ManagerFault::Memory,
            LogFault::Malformed(index) => ManagerFault::Malformed(index),
            LogFault::Order(index) => ManagerFault::Order(index),
        }
    }
}

use crate::CopyFault;
use std::alloc::AllocError;
use thiserror::Error;
use xa_log::OpenFault;

/// Why a standby isn't what its source was at a moment of the call. After each but `Lost` it may be tried again.
#[derive(Clone, Copy, Debug, PartialEq, Eq, Error)]
pub enum FollowFault {
    /// The log was begun anew while it was read.
    #[error("log begun anew while it was read")]
    Moved,
    /// The log couldn't be read, or isn't one.
    #[error("{0}")]
    Source(CopyFault),
    /// The standby's disks have no log that an opening takes.
    #[error("{0}")]
    Open(OpenFault),
    /// The log has a smaller generation than the standby, or its generation in another file or format.
    #[error("another log")]
    Other,
    /// What was read is in no disk of the standby's, which has what it had before.
    #[error("cannot write to the standby")]
    Refused,
    /// Whether what was read is in the standby's disks isn't known before they are opened again.
    #[error("write to the standby lost")]
    Lost,
    /// The standby's limit leaves no room.
    #[error("standby full")]
    Full,
    #[error("no memory")]
    Memory,
}

impl From<CopyFault> for FollowFault {
    fn from(fault: CopyFault) -> FollowFault {
        match fault {
            CopyFault::Moved => FollowFault::Moved,
            CopyFault::Memory => FollowFault::Memory,
            fault => FollowFault::Source(fault),
        }
    }
}

impl From<OpenFault> for FollowFault {
    fn from(fault: OpenFault) -> FollowFault {
        FollowFault::Open(fault)
    }
}

impl From<AllocError> for FollowFault {
    fn from(_error: AllocError) -> FollowFault {
        FollowFault::Memory
    }
}

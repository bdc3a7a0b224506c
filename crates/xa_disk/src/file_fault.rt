use crate::FileCall;
use std::io;
use thiserror::Error;

/// Why a file is not taken as a disk.
#[derive(Clone, Copy, Debug, Drop, Error)]
pub enum FileFault {
    /// A call of the system failed.
    #[error("{call}: {error}")]
    Call { call: FileCall, error: io::Error },
    /// Another disk has it, of this process or of another.
    #[error("in use")]
    InUse,
    /// It is a directory, a device, a pipe or a socket.
    #[error("no regular file")]
    Irregular,
    /// It isn't there, and the other one of its log has records: so it was removed, and none is made in its place.
    #[error("missing")]
    Absent,
    #[error("no memory")]
    Memory,
}

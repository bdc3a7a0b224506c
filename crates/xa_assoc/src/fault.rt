use thiserror::Error;

/// Why a session isn't connected.
#[derive(Clone, Copy, Debug, PartialEq, Eq, Error)]
pub enum ConnectFault {
    /// There was no memory. The session isn't connected.
    #[error("no memory")]
    Memory = 1,
    /// `MOST_SESSIONS` sessions are connected.
    #[error("1,024 sessions connected")]
    Full = 2,
}

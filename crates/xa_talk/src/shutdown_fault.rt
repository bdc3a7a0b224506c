use crate::fault::TalkFault;
use thiserror::Error;

/// Why a server that was asked to end isn't known to have ended. Its text is what `xarm` prints after its name.
#[derive(Clone, Copy, Debug, PartialEq, Eq, Error)]
pub enum ShutdownFault {
    /// The server replied: it takes no shutdown, and goes on.
    #[error("the server takes no shutdown")]
    Refused,
    /// The connection couldn't be opened, or it failed.
    #[error("{0}")]
    Talk(TalkFault),
}

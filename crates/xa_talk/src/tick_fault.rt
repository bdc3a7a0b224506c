use crate::fault::TalkFault;
use thiserror::Error;

/// Why no more moments are told. Its text is what `xarm` prints after its name.
#[derive(Clone, Copy, Debug, PartialEq, Eq, Error)]
pub enum TickFault {
    #[error("cannot read the clock")]
    Clock,
    /// The connection couldn't be opened, or it ended.
    #[error("{0}")]
    Talk(TalkFault),
}

/// One of the two files of a log.
#[derive(Clone, Copy, Debug, PartialEq, Eq)]
pub enum LogFile {
    /// The one that is appended to when the line is played.
    Current,
    /// The other one.
    Other,
}

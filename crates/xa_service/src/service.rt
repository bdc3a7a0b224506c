use crate::at::At;

/// The most loops.
pub const MOST_LOOPS: u64 = 64;

/// The most connections until a server ends.
pub const MOST_SERVED: u64 = 1_000_000;

/// What is to be served.
#[derive(Clone, Copy, Debug, Drop)]
pub struct Service<'a> {
    /// Of the log's first file. The second one's has `.2` after it.
    pub path: &'a str,
    pub name: &'a str,
    pub at: At<'a>,
    /// How many bytes each of the log's two files may have.
    pub log_bytes: u64,
    /// 1 to `MOST_LOOPS`, or 0 for as many as the machine has cores, at most 4.
    pub loops: u64,
    /// After how many connections it ends, 0 for never.
    pub connections: u64,
    /// For how many seconds a connection may bring no byte inside a frame, 0 for ever.
    pub frame_seconds: u64,
    /// For how many seconds a connection whose session is at work for no branch, or for marked ones alone, may be quiet, 0 for
    /// ever.
    pub idle_seconds: u64,
    /// For how many seconds a connection whose session has an association may be quiet, 0 for ever.
    pub branch_seconds: u64,
    /// Above which end of the log it is trimmed, in bytes, 0 for never. Above half of `log_bytes` a quarter of that counts.
    pub trim_bytes: u64,
    /// After how many seconds the manager is told the time again, 0 for never.
    pub tick_seconds: u64,
    /// Whether it ends when the manager has gone down.
    pub ends_when_down: bool,
    /// Whether it keeps the history, and audits it at its end.
    pub audits: bool,
    /// The file to which the history is written at the end, if it is audited; the replies go to the one with `.out` after it.
    pub history: Option<&'a str>,
    /// The file that says who may log in, and with which role; None if whoever connects may ask everything.
    pub users: Option<&'a str>,
    /// Whether it may listen at an address that others than this machine reach, though nobody has to log in.
    pub opens_to_all: bool,
    /// The permissions of its Unix socket, as `chmod` has them, at most 0o777.
    pub socket_mode: u32,
    /// The group of its Unix socket, by its name or number; None for its owner's own.
    pub socket_group: Option<&'a str>,
}

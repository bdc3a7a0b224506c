use crate::malformed::Malformed;
use xa_commands::Reach;
use xa_operate::{Format, Task};
use xa_roles::Role;
use xa_script::Style;
use xa_service::Service;

/// What a command line asks for.
#[derive(Debug, Drop)]
pub enum Asked<'a> {
    Play {
        name: &'a str,
        /// How many bytes each of the log's two files may have.
        log_bytes: u64,
    },
    Scan {
        path: &'a str,
        format: Format,
    },
    Check {
        /// Of the log's first file.
        path: &'a str,
        /// How many bytes each of the log's two files may have.
        log_bytes: u64,
    },
    Copy {
        /// Of the log's first file.
        path: &'a str,
        /// Of the copy's first file.
        to: &'a str,
        /// How many bytes each of the log's two files may have.
        log_bytes: u64,
        /// Whether the copy goes on with what the server appends.
        follows: bool,
    },
    /// A user is to be added to those who may log in.
    AddUser {
        /// Of the file that says them.
        path: &'a str,
        name: &'a str,
        role: Role,
        /// The file whose first line is the secret; None for standard input.
        secret: Option<&'a str>,
    },
    Talk {
        reach: Reach<'a>,
        /// Under which name each connection is logged in, if it is.
        user: Option<&'a str>,
        /// How many seconds an answer may be waited for: 0 for no end.
        seconds: u64,
        style: Style,
        /// The first reply that is an error ends it.
        is_strict: bool,
    },
    Tick {
        reach: Reach<'a>,
        user: Option<&'a str>,
        /// How many seconds there are from one moment to the next.
        every: u64,
    },
    Shutdown {
        reach: Reach<'a>,
        user: Option<&'a str>,
    },
    Serve {
        service: Service<'a>,
        /// Whether what stands of a damaged log is to be opened.
        accepts_damage: bool,
    },
    /// A server is to be asked a task.
    Operate {
        reach: Reach<'a>,
        user: Option<&'a str>,
        /// How many seconds an answer may be waited for.
        seconds: u64,
        format: Format,
        /// Under which the resource manager is opened, if that is needed.
        name: &'a str,
        task: Task,
    },
    /// The script that asks a task is to be printed.
    Script {
        name: &'a str,
        task: Task,
    },
    /// A server is to be asked a task that can't be taken back, and that wasn't confirmed.
    Unconfirmed {
        /// None if neither a port nor a path was given.
        reach: Option<Reach<'a>>,
        user: Option<&'a str>,
        seconds: u64,
        format: Format,
        name: &'a str,
        task: Task,
        /// What it is about, as it was given: an XID, or a session's number, if the task names one.
        about: &'a str,
    },
    /// A word isn't as it has to be.
    Malformed(Malformed),
    /// A server's loops are counted by `--workers` and by `--loops`.
    Conflict,
    /// Neither a port nor a path was given, for a command that needs one.
    Nowhere,
}

ghost use Rattle.std.specs.Prelude.{◌≡◌};
ghost use Rattle.xa_server.specs.declared.serve_fault.ServeFault.TheVariants.{Memory};
ghost use Rattle.xa_server.specs.Faults.{opening_fault, serving_fault};

use crate::fault::ServerFault;
use crate::history_file::HistoryFile;
use crate::log_file::LogFile;
use crate::users_file::UnreadUsers;
use std::alloc::AllocError;
use std::error::Error;
use std::{fmt, io};
use xa_disk::{FileCall, FileFault};
use xa_manager::ManagerFault;

/// Why nothing was served, or not to the end. Its text is what `xarm` prints after its name.
#[derive(Debug, Drop)]
pub enum ServeFault<'a> {
    Memory,
    Write,
    Listen,
    Start,
    Wait,
    Random,
    /// The file of users says none.
    Users {
        path: &'a str,
        fault: UnreadUsers,
    },
    /// Others than this machine reach the address, and nobody would have to log in.
    Open {
        address: &'a str,
    },
    /// There is no group of this name, which its Unix socket is to have.
    Group {
        name: &'a str,
    },
    /// A server has the log, or a scan reads it.
    InUse,
    /// A file of the log couldn't be opened.
    File {
        file: LogFile<'a>,
        fault: FileFault,
    },
    /// It isn't there, beside the other one's log. None was made in its place.
    Absent(LogFile<'a>),
    /// It was there once, as the other one's log shows.
    Missing(LogFile<'a>),
    /// Something stands there over which a log would be written.
    Stray(LogFile<'a>),
    /// The log breaks off where it didn't end: the file, the record that isn't as it was written, from 1, and the byte at
    /// which it begins.
    Damaged {
        file: LogFile<'a>,
        number: usize,
        at: u64,
    },
    /// The manager couldn't be opened on its log.
    Manager(ManagerFault),
    /// A file of the history couldn't be made, or written.
    History {
        file: HistoryFile<'a>,
        error: io::Error,
    },
}

impl fmt::Display for ServeFault<'_> {
    fn fmt<W: fmt::Write>(&self, f: &mut fmt::Formatter<W>) -> fmt::Result {
        match self {
            ServeFault::Memory => f.write_str("no memory"),
            ServeFault::Write => f.write_str("cannot write"),
            ServeFault::Listen => f.write_str("cannot listen"),
            ServeFault::Start => f.write_str("cannot start loops"),
            ServeFault::Wait => f.write_str("cannot wait for connections"),
            ServeFault::Random => f.write_str("no random bytes"),
            ServeFault::Users { path, fault } => write!(f, "{path}: {fault}"),
            ServeFault::Open { address } => write!(
                f,
                "{address} is not a loopback address, and nobody would have to log in: give --users PATH, or --open-to-all"
            ),
            ServeFault::Group { name } => write!(f, "there is no group {name}"),
            ServeFault::InUse => f.write_str("log in use"),
            ServeFault::File { file, fault } => write_unopened(f, file, fault),
            ServeFault::Absent(file) | ServeFault::Missing(file) => {
                write!(f, "log file missing or empty: {file}")
            }
            ServeFault::Stray(file) => write!(f, "{file}: not a log, and not empty"),
            ServeFault::Damaged { file, number, at } => {
                write!(f, "log damaged: {file}: record {number} at byte {at}")
            }
            ServeFault::Manager(fault) => write!(f, "{fault}"),
            ServeFault::History { file, error } => write!(f, "cannot write {file}: {error}"),
        }
    }
}

/// Writes why a file wasn't opened: a path that can't be opened is no fault of a device.
fn write_unopened<W: fmt::Write>(
    f: &mut fmt::Formatter<W>,
    file: &LogFile<'_>,
    fault: &FileFault,
) -> fmt::Result {
    match fault {
        FileFault::Call {
            call: FileCall::Open,
            error,
        } => write!(f, "cannot open {file}: {error}"),
        FileFault::Irregular => write!(f, "cannot open {file}: {fault}"),
        _ => write!(f, "device fault: {file}: {fault}"),
    }
}

impl Error for ServeFault<'_> {}

impl From<AllocError> for ServeFault<'_> {
    ghost from_gives = { λ _ fault. fault ≡ Memory };

    fn from(_: AllocError) -> Self {
        ServeFault::Memory
    }
}

impl From<ManagerFault> for ServeFault<'_> {
    ghost from_gives = { λ fault told. told ≡ opening_fault fault };

    fn from(fault: ManagerFault) -> Self {
        match fault {
            ManagerFault::Memory => ServeFault::Memory,
            fault => ServeFault::Manager(fault),
        }
    }
}

impl From<ServerFault> for ServeFault<'_> {
    ghost from_gives = { λ fault told. told ≡ serving_fault fault };

    fn from(fault: ServerFault) -> Self {
        match fault {
            ServerFault::Memory => ServeFault::Memory,
            // the command line takes no such number
            ServerFault::Loops(_) => ServeFault::Start,
            ServerFault::Wait => ServeFault::Wait,
            ServerFault::Write => ServeFault::Write,
            ServerFault::Random => ServeFault::Random,
        }
    }
}

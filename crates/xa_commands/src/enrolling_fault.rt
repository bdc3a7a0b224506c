ghost use Rattle.std.specs.Prelude.{◌≡◌};
ghost use Rattle.xa_commands.specs.declared.enrolling_fault.EnrollingFault.TheVariants.{Memory};

use crate::entry_fault::EntryFault;
use crate::secret_fault::SecretFault;
use crate::unlogged::NO_NAME;
use std::alloc::AllocError;
use std::error::Error;
use std::{fmt, io};

/// Why no user was added to a file. Its text is what `xarm` prints after its name.
#[derive(Debug, Drop)]
pub enum EnrollingFault<'a> {
    Memory,
    /// Nobody can have this name.
    Name(&'a str),
    /// The file at this path gives no secret; standard input doesn't, if there is no path.
    Secret {
        path: Option<&'a str>,
        fault: SecretFault,
    },
    /// The system gave no random bytes for the salt.
    Random(io::Error),
    /// The file at this path couldn't be read.
    Unread {
        path: &'a str,
        error: io::Error,
    },
    /// It isn't its owner's alone.
    Shared {
        path: &'a str,
    },
    /// It has more bytes than a file of users may have.
    TooLong {
        path: &'a str,
    },
    /// It isn't UTF-8.
    NoText {
        path: &'a str,
    },
    /// There is no place for this name in it.
    Entry {
        path: &'a str,
        name: &'a str,
        fault: EntryFault,
    },
    /// Beside it is what is to replace it, by somebody else or since that was cut off.
    Begun {
        path: &'a str,
    },
    /// What was to replace it couldn't be made or written, or put in its place.
    Unwritten {
        path: &'a str,
        error: io::Error,
    },
    /// The user was added, but that may not outlast a crash.
    Unsynced {
        path: &'a str,
        error: io::Error,
    },
}

impl fmt::Display for EnrollingFault<'_> {
    fn fmt<W: fmt::Write>(&self, f: &mut fmt::Formatter<W>) -> fmt::Result {
        match self {
            EnrollingFault::Memory => f.write_str("no memory"),
            EnrollingFault::Name(name) => write!(f, "{name:?} {NO_NAME}"),
            EnrollingFault::Secret {
                path: Some(path),
                fault,
            } => write!(f, "{path}: {fault}"),
            EnrollingFault::Secret { path: None, fault } => write!(f, "standard input: {fault}"),
            EnrollingFault::Random(error) => write!(f, "cannot draw a salt: {error}"),
            EnrollingFault::Unread { path, error } => write!(f, "{path}: {error}"),
            EnrollingFault::Shared { path } => write!(f, "{path}: {}", SecretFault::Shared),
            EnrollingFault::TooLong { path } => write!(f, "{path}: more than 1,048,576 bytes"),
            EnrollingFault::NoText { path } => write!(f, "{path}: not UTF-8"),
            EnrollingFault::Entry {
                path,
                name,
                fault: EntryFault::Taken,
            } => write!(f, "{path}: {name} is there already"),
            EnrollingFault::Entry { path, fault, .. } => write!(f, "{path}: {fault}"),
            EnrollingFault::Begun { path } => write!(
                f,
                "{path}.new is there: another user is being added, or that was cut off; then remove it"
            ),
            EnrollingFault::Unwritten { path, error } => {
                write!(f, "{path} stays as it was: {path}.new: {error}")
            }
            EnrollingFault::Unsynced { path, error } => {
                write!(f, "{path} is written, but may not outlast a crash: {error}")
            }
        }
    }
}

impl Error for EnrollingFault<'_> {}

impl From<AllocError> for EnrollingFault<'_> {
    ghost from_gives = { λ _ fault. fault ≡ Memory };

    fn from(_: AllocError) -> Self {
        EnrollingFault::Memory
    }
}

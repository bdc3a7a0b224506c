ghost use Rattle.std.specs.Prelude.{◌≡◌};
ghost use Rattle.xa_commands.specs.declared.copying_fault.CopyingFault.TheVariants.{Memory};

use std::alloc::AllocError;
use std::error::Error;
use std::{fmt, io};
use xa_copy::{CopyFault, FollowFault};
use xa_disk::FileFault;

/// Which of a log's two files.
#[derive(Clone, Copy, Debug, PartialEq, Eq)]
pub enum Side {
    First,
    Second,
}

/// What stands after the path of the first file in that of this one.
impl fmt::Display for Side {
    fn fmt<W: fmt::Write>(&self, f: &mut fmt::Formatter<W>) -> fmt::Result {
        f.write_str(match self {
            Side::First => "",
            Side::Second => ".2",
        })
    }
}

/// Why a log wasn't copied. Its text is what `xarm` prints after its name.
#[derive(Clone, Copy, Debug, Drop)]
pub enum CopyingFault<'a> {
    Memory,
    /// A file of the log couldn't be opened.
    Unopened {
        path: &'a str,
        side: Side,
        error: io::Error,
    },
    /// A read of it failed.
    Unread {
        path: &'a str,
        side: Side,
        error: io::Error,
    },
    /// Something is there already where a copy should be.
    Exists {
        to: &'a str,
        side: Side,
    },
    /// A file of the copy couldn't be made.
    Unmade {
        to: &'a str,
        side: Side,
        error: io::Error,
    },
    /// It couldn't be opened then.
    Untaken {
        to: &'a str,
        side: Side,
        fault: FileFault,
    },
    Copy {
        path: &'a str,
        fault: CopyFault,
    },
    /// The copy stands, but doesn't follow.
    Follow {
        to: &'a str,
        fault: FollowFault,
    },
    /// The copy stands, but its line couldn't be printed.
    Untold,
}

impl fmt::Display for CopyingFault<'_> {
    fn fmt<W: fmt::Write>(&self, f: &mut fmt::Formatter<W>) -> fmt::Result {
        match self {
            CopyingFault::Memory => f.write_str("no memory"),
            CopyingFault::Unopened { path, side, error } => {
                write!(f, "cannot open {path}{side}: {error}")
            }
            CopyingFault::Unread { path, side, error } => {
                write!(f, "cannot read {path}{side}: {error}")
            }
            CopyingFault::Exists { to, side } => write!(f, "{to}{side} is there already"),
            CopyingFault::Unmade { to, side, error } => {
                write!(f, "cannot create {to}{side}: {error}")
            }
            CopyingFault::Untaken { to, side, fault } => {
                write!(f, "cannot open {to}{side}: {fault}")
            }
            CopyingFault::Copy { path, fault } => write!(f, "{path}: {fault}"),
            CopyingFault::Follow { to, fault } => write!(f, "{to}: {fault}"),
            CopyingFault::Untold => f.write_str("cannot write"),
        }
    }
}

impl Error for CopyingFault<'_> {}

impl From<AllocError> for CopyingFault<'_> {
    ghost from_gives = { λ _ fault. fault ≡ Memory };

    fn from(_: AllocError) -> Self {
        CopyingFault::Memory
    }
}

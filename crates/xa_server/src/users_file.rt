//! The file that says who may log in.
ghost use Rattle.std.specs.Prelude.{IfOk, List, ℕ};
ghost use Rattle.xa_users.specs.Believed.Users.{SaysUsers, all_of};

use std::fs::{self, Files, OpenFile};
use std::io::{self, Read};
use std::os::unix::fs::MetadataExt;
use std::{fmt, str};
use xa_users::{Users, UsersFault, line_of};

// The most bytes of it.
const MOST_BYTES: u64 = 1_048_576;

/// Why a file of users says none.
#[derive(Debug, Drop)]
pub enum UnreadUsers {
    /// It couldn't be opened or read.
    Unread(io::Error),
    /// Not its owner alone may read or write it.
    Shared,
    TooLong,
    /// It isn't UTF-8.
    NoText,
    /// What it says: on a line, if that is known.
    Says {
        line: Option<u64>,
        fault: UsersFault,
    },
}

impl fmt::Display for UnreadUsers {
    fn fmt<W: fmt::Write>(&self, f: &mut fmt::Formatter<W>) -> fmt::Result {
        match self {
            UnreadUsers::Unread(error) => write!(f, "{error}"),
            UnreadUsers::Shared => {
                f.write_str("others than its owner may read or write it: its mode is to be 0600")
            }
            UnreadUsers::TooLong => f.write_str("over 1048576 bytes"),
            UnreadUsers::NoText => f.write_str("not UTF-8"),
            // this fault names its line itself
            UnreadUsers::Says { fault, .. } if matches!(fault, UsersFault::NoToml { .. }) => {
                write!(f, "{fault}")
            }
            UnreadUsers::Says {
                line: Some(line),
                fault,
            } => write!(f, "line {line}: {fault}"),
            UnreadUsers::Says { line: None, fault } => write!(f, "{fault}"),
        }
    }
}

/// The users that a file says, which is its owner's alone.
pub(crate) fn read_users<R: AllocGlobal + Files>(rt: &R, path: &str) -> Result<Users, UnreadUsers>
    ensures { IfOk result (λ us. (text : List ℕ) × SaysUsers text (all_of us)) }
{
    let bytes = read_private(rt, path)?;
    let Ok(text) = str::from_utf8(bytes.as_slice()) else {
        return Err(UnreadUsers::NoText);
    };
    match Users::read(rt.alloc(), text) {
        Ok(users) => Ok(users),
        Err(fault) => Err(UnreadUsers::Says {
            line: line_of(text, &fault),
            fault,
        }),
    }
}

// All bytes of a file that is its owner's alone.
fn read_private<R: AllocGlobal + Files>(rt: &R, path: &str) -> Result<Vec<u8>, UnreadUsers> {
    let file = fs::open(rt, path).map_err(UnreadUsers::Unread)?;
    let metadata = file.metadata().map_err(UnreadUsers::Unread)?;
    if metadata.mode() & 0o077 != 0 {
        return Err(UnreadUsers::Shared);
    }
    let mut bytes = Vec::new(rt.alloc());
    let mut front = file.take(MOST_BYTES + 1);
    if let Err(error) = front.read_to_end(&mut bytes) {
        return Err(UnreadUsers::Unread(error));
    }
    if bytes.len() as u64 > MOST_BYTES {
        return Err(UnreadUsers::TooLong);
    }
    Ok(bytes)
}

use crate::secret::TERMINAL;
use crate::secret_fault::SecretFault;
use crate::server::Reach;
use std::error::Error;
use std::{fmt, io};
use xa_talk::LoginFault;

/// Why a client that was to log in as a user hasn't. Its text is what `xarm` prints after its name.
#[derive(Debug, Drop)]
pub enum Unlogged<'w> {
    Memory,
    /// Nobody can have this name.
    Name(&'w str),
    /// `XARM_PASSWORD_FILE` isn't set, or is empty, and there is no terminal.
    Unset,
    /// What was typed is no secret.
    Typed(SecretFault),
    /// It isn't UTF-8.
    NoText,
    /// The file at the path that it has gives no secret.
    Secret {
        path: String,
        fault: SecretFault,
    },
    /// The system gave no random bytes for the nonce.
    Random(io::Error),
    /// The server didn't let the user in, or isn't to be trusted, or didn't answer.
    Login {
        reach: Reach<'w>,
        user: &'w str,
        fault: LoginFault,
    },
}

impl fmt::Display for Unlogged<'_> {
    fn fmt<W: fmt::Write>(&self, f: &mut fmt::Formatter<W>) -> fmt::Result {
        match self {
            Unlogged::Memory => f.write_str("no memory"),
            Unlogged::Name(user) => write!(f, "{user:?} {NO_NAME}"),
            Unlogged::Unset => f.write_str(
                "XARM_PASSWORD_FILE isn't set, and there is no terminal to ask at: --user needs the file whose first line is the secret",
            ),
            Unlogged::Typed(fault) => write!(f, "{TERMINAL}: {fault}"),
            Unlogged::NoText => f.write_str("XARM_PASSWORD_FILE isn't UTF-8"),
            Unlogged::Secret { path, fault } => write!(f, "{path}: {fault}"),
            Unlogged::Random(error) => write!(f, "cannot draw a nonce: {error}"),
            Unlogged::Login { reach, user, fault } => write!(f, "{reach}: {user}: {fault}"),
        }
    }
}

impl Error for Unlogged<'_> {}

/// What is wrong with a name that nobody can have.
pub(crate) const NO_NAME: &str =
    "is no name: a name has 1 to 64 letters, digits, '-', '_', '.' and '@'";

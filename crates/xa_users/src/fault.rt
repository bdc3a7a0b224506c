ghost use Rattle.std.specs.Prelude.{◌≡◌};
ghost use Rattle.xa_users.specs.declared.fault.UsersFault.TheVariants.{Memory};

use crate::misfit::Misfit;
use std::alloc::{AllocError, AllocFailed};
use thiserror::Error;

/// Why a text says no users. Its own text is for an operator, in one line.
#[derive(Debug, Drop, Error)]
pub enum UsersFault {
    /// There was no memory.
    #[error("no memory")]
    Memory,
    /// The text is no TOML: on this line, counted from 1, or after it.
    #[error("line {line}: not TOML")]
    NoToml { line: u64 },
    /// The key of a table is no name.
    #[error("{name:?} is no name: a name has 1 to 64 letters, digits, '-', '_', '.' and '@'")]
    Name { name: String },
    /// What stands at a name isn't a table of two strings, `role` and `verifier`, alone.
    #[error("user {name}: not a table of two strings, role and verifier, and no more")]
    Members { name: String },
    /// The role is none of the three.
    #[error("user {name}: role is not monitor, client or operator")]
    Role { name: String },
    /// The verifier has another spelling than `xa_scram`'s, or its salt or iterations are out of range.
    #[error("user {name}: verifier is not SCRAM-SHA-256$ITERATIONS:SALT$STOREDKEY:SERVERKEY")]
    Verifier { name: String },
    /// There are more than `MOST_USERS` users.
    #[error("more than 1,024 users")]
    TooMany,
    /// There is no user, so nobody could log in.
    #[error("no users: nobody could log in")]
    Nobody,
}

impl UsersFault {
    ghost use Rattle.xa_users.specs.Faults.{fault_at};

    // That the member of this name is no user.
    pub(crate) fn at(name: String, misfit: Misfit) -> UsersFault
        ensures { result ≡ fault_at name misfit }
    {
        match misfit {
            Misfit::Name => UsersFault::Name { name },
            Misfit::Members => UsersFault::Members { name },
            Misfit::Role => UsersFault::Role { name },
            Misfit::Verifier => UsersFault::Verifier { name },
        }
    }
}

impl From<AllocError> for UsersFault {
    ghost from_gives = { λ _ fault. fault ≡ Memory };

    fn from(_error: AllocError) -> UsersFault {
        UsersFault::Memory
    }
}

impl<T: Drop> From<AllocFailed<T>> for UsersFault {
    ghost from_gives = { λ _ fault. fault ≡ Memory };

    fn from(_error: AllocFailed<T>) -> UsersFault {
        UsersFault::Memory
    }
}

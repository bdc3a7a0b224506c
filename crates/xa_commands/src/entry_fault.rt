ghost use Rattle.std.specs.Prelude.{◌≡◌};
ghost use Rattle.xa_commands.specs.declared.entry_fault.EntryFault.TheVariants.{Memory};

use std::alloc::AllocError;
use std::error::Error;
use std::fmt;
use xa_users::UsersFault;

/// Why a user has no entry in a text of users.
#[derive(Debug, Drop)]
pub enum EntryFault {
    Memory,
    /// The text is none of users: why.
    Unread(UsersFault),
    /// Somebody has this name there.
    Taken,
    /// With the entry it would be none of users: why.
    Unfit(UsersFault),
}

impl fmt::Display for EntryFault {
    fn fmt<W: fmt::Write>(&self, f: &mut fmt::Formatter<W>) -> fmt::Result {
        match self {
            EntryFault::Memory => f.write_str("no memory"),
            EntryFault::Unread(fault) => write!(f, "{fault}"),
            EntryFault::Taken => f.write_str("the name is there already"),
            EntryFault::Unfit(fault) => write!(f, "with one more: {fault}"),
        }
    }
}

impl Error for EntryFault {}

impl From<AllocError> for EntryFault {
    ghost from_gives = { λ _ fault. fault ≡ Memory };

    fn from(_: AllocError) -> EntryFault {
        EntryFault::Memory
    }
}

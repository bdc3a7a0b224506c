ghost use Rattle.std.specs.Prelude.{◌≡◌};
ghost use Rattle.xa_commands.specs.Accepting.{open_fault};
ghost use Rattle.xa_commands.specs.declared.accepting_fault.AcceptingFault.TheVariants.{Memory};

use crate::unopened::write_unopened;
use std::alloc::AllocError;
use std::error::Error;
use std::{fmt, io};
use xa_disk::FileFault;
use xa_log::OpenFault;

/// Why what stands of a damaged log wasn't made ready to be opened. Its text is what `xarm` prints after its name.
#[derive(Clone, Copy, Debug, Drop)]
pub enum AcceptingFault<'a> {
    Memory,
    /// A server has the log, or a scan reads it.
    InUse,
    /// The first file, at this path, couldn't be opened.
    File { path: &'a str, fault: FileFault },
    /// The second one couldn't.
    SecondFile { path: &'a str, fault: FileFault },
    /// They couldn't be kept as they are. Nothing was written to them.
    Keeping(io::Error),
    /// A device call failed.
    Log(OpenFault),
}

impl fmt::Display for AcceptingFault<'_> {
    fn fmt<W: fmt::Write>(&self, f: &mut fmt::Formatter<W>) -> fmt::Result {
        match self {
            AcceptingFault::Memory => f.write_str("no memory"),
            AcceptingFault::InUse => f.write_str("log in use"),
            AcceptingFault::File { path, fault } => write_unopened(f, path, "", fault),
            AcceptingFault::SecondFile { path, fault } => write_unopened(f, path, ".2", fault),
            AcceptingFault::Keeping(error) => {
                write!(f, "cannot keep the damaged files: {error}")
            }
            AcceptingFault::Log(fault) => write!(f, "{fault}"),
        }
    }
}

impl Error for AcceptingFault<'_> {}

impl From<AllocError> for AcceptingFault<'_> {
    ghost from_gives = { λ _ fault. fault ≡ Memory };

    fn from(_: AllocError) -> Self {
        AcceptingFault::Memory
    }
}

impl From<OpenFault> for AcceptingFault<'_> {
    ghost from_gives = { λ fault told. told ≡ open_fault fault };

    fn from(fault: OpenFault) -> Self {
        match fault {
            OpenFault::Memory => AcceptingFault::Memory,
            fault => AcceptingFault::Log(fault),
        }
    }
}

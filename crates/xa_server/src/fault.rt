ghost use Rattle.std.specs.Prelude.{◌≡◌};
ghost use Rattle.xa_server.specs.declared.fault.ServerFault.TheVariants.{Memory};
ghost use Rattle.xa_server.specs.Faults.{loop_fault};

use std::alloc::AllocError;
use thiserror::Error;
use xa_reactor::LoopFault;
use xa_service::MOST_LOOPS;

/// Why nothing is told of what was served.
#[derive(Clone, Copy, Debug, PartialEq, Eq, Error)]
pub enum ServerFault {
    /// There was no memory for the loops, for the audit, or for a reply, of which nobody was told.
    #[error("no memory")]
    Memory,
    /// So many loops: not 1 to `MOST_LOOPS`. Nobody was served.
    #[error("{0} loops, not 1 to {most}", most = MOST_LOOPS)]
    Loops(u64),
    /// The system gives the loops nothing to wait for connections by. Nobody was served.
    #[error("cannot wait for connections")]
    Wait,
    /// It couldn't be told that the loops are ready. Nobody was served.
    #[error("cannot write")]
    Write,
    /// The system gives no random bytes, which logins need. Nobody was served.
    #[error("no random bytes")]
    Random,
}

impl From<AllocError> for ServerFault {
    ghost from_gives = { λ _ fault. fault ≡ Memory };

    fn from(_: AllocError) -> ServerFault {
        ServerFault::Memory
    }
}

impl From<LoopFault> for ServerFault {
    ghost from_gives = { λ fault told. told ≡ loop_fault fault };

    fn from(fault: LoopFault) -> ServerFault {
        match fault {
            LoopFault::Memory => ServerFault::Memory,
            LoopFault::Wait => ServerFault::Wait,
            LoopFault::Write => ServerFault::Write,
            LoopFault::Random => ServerFault::Random,
        }
    }
}

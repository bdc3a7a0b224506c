ghost use Rattle.std.specs.Prelude.{◌≡◌};

use mio::{Poll, Registry};
use std::alloc::Global;

/// One round of a loop: its memory, and where its sockets are registered.
#[derive(Clone, Copy)]
pub(crate) struct Round<'a> {
    pub(crate) alloc: Global,
    pub(crate) registry: &'a Registry,
}

impl<'a> Round<'a> {
    pub(crate) fn new(poll: &'a Poll, alloc: Global) -> Round<'a>
        ensures { result.alloc ≡ alloc }
    {
        Round {
            alloc,
            registry: poll.registry(),
        }
    }
}

ghost use Rattle.std.specs.Prelude.{◌≡◌};
ghost use Rattle.xa_desk.specs.declared.served.Served.TheVariants.{Memory};

use std::alloc::AllocError;

/// How a connection ended.
#[derive(Clone, Copy, Debug, PartialEq, Eq)]
pub enum Served {
    /// The input ended before the first byte of a frame.
    Ended,
    /// A read failed, the input ended inside a frame, or as many frames were read as the connection may have.
    ReadFault,
    /// A write failed or took nothing.
    WriteFault,
    /// A frame's length was above `MOST_CONTENT`.
    TooLong,
    /// There was no memory for a buffer or a reply's bytes.
    Memory,
}

impl From<AllocError> for Served {
    ghost from_gives = { λ _ end. end ≡ Memory };

    fn from(_: AllocError) -> Served {
        Served::Memory
    }
}

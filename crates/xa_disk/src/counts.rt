ghost use Rattle.std.specs.Prelude.{◌≡◌};
ghost use Rattle.xa_disk.specs.Counts.{no_calls, with_length, with_read, with_write, with_sync};

/// How many device calls a disk was asked for, failed or not, by kind. Each number stops at 2^64 - 1.
#[derive(Clone, Copy, Debug)]
pub struct Counts {
    pub lengths: u64,
    pub reads: u64,
    /// The bytes that all reads asked for.
    pub read_bytes: u64,
    pub writes: u64,
    pub syncs: u64,
}

impl Counts {
    pub(crate) fn none() -> Counts
        ensures { result ≡ no_calls }
    {
        Counts {
            lengths: 0,
            reads: 0,
            read_bytes: 0,
            writes: 0,
            syncs: 0,
        }
    }

    pub(crate) fn with_length(self) -> Counts
        ensures { result ≡ with_length self }
    {
        Counts {
            lengths: self.lengths.saturating_add(1),
            ..self
        }
    }

    pub(crate) fn with_read(self, bytes: usize) -> Counts
        ensures { result ≡ with_read bytes self }
    {
        Counts {
            reads: self.reads.saturating_add(1),
            read_bytes: self.read_bytes.saturating_add(bytes as u64),
            ..self
        }
    }

    pub(crate) fn with_write(self) -> Counts
        ensures { result ≡ with_write self }
    {
        Counts {
            writes: self.writes.saturating_add(1),
            ..self
        }
    }

    pub(crate) fn with_sync(self) -> Counts
        ensures { result ≡ with_sync self }
    {
        Counts {
            syncs: self.syncs.saturating_add(1),
            ..self
        }
    }
}

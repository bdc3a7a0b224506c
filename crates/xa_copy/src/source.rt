use std::io;
use thiserror::Error;

/// A read that failed.
#[derive(Clone, Copy, Debug, PartialEq, Eq, Error)]
#[error("read fault")]
pub struct SourceFault;

/// One of a log's two files, which another process may append to, or begin anew, between any two reads.
///
/// What a read gives is what the file has at one moment. If `honest` doesn't hold of a type, its clauses promise only how
/// many bytes a read gives.
pub trait Source {
    ghost use Rattle.std.specs.Prelude.{◌≤◌, length, IfOk};
    ghost use Rattle.xa_copy.specs.Moving.{Goes, ReadsUpto, State, Tells};

    /// The clauses on values hold of this type of file.
    ghost honest: { Type 0 };

    /// What the file is at this moment.
    ghost state: { Self → State };

    /// Fills the front of `into` with the bytes from an offset on, as many as there are, and returns how many these are.
    fn read_at(&mut self, at: u64, into: &mut [u8]) -> Result<usize, SourceFault>
        ensures count { IfOk result (λ n. n ≤ length into.old) }
        ensures read { honest → IfOk result (ReadsUpto (state self.new).file at into.new) }
        ensures tells { honest → Tells (state self.new) }
        ensures goes { honest → Goes (state self.old) (state self.new) };

    /// What the system said of the first read that failed, if one has.
    fn error(&self) -> Option<io::Error>;
}

/// What opens the files of a log for copies.
pub trait Sources {
    ghost use Rattle.std.specs.Prelude.{ℕ, List, IfOk};

    type Source: Source + Drop;

    /// A source is what the file at a path, by the path's bytes, was opened as.
    ghost found: { Self.Source → List ℕ → Type 0 };

    /// The file at a path, for reading alone, whoever has it.
    fn open_source(&self, path: &str) -> io::Result<Self::Source>
        ensures { IfOk result (λ source. found source path.now) };
}

ghost use Rattle.std.specs.Prelude.{◌≤◌, [], length, IfOk};

use crate::source::{Source, SourceFault, Sources};
use std::fs::{self, File};
use std::io::{self, ErrorKind};
use std::os::unix::fs::FileExt;

/// A file of the system, opened for reading alone. No lock is taken, so that its server may have it.
#[derive(Drop)]
pub struct FileSource {
    file: File,
    error: Option<io::Error>,
}

impl FileSource {
    /// The file at a path.
    pub fn open(rt: &HostRuntime, path: &str) -> io::Result<FileSource> {
        // Before it is opened, since that waits for the writer of a pipe.
        if !fs::metadata(rt, path)?.is_file() {
            return Err(io::Error::other("no regular file"));
        }
        Ok(FileSource {
            file: File::open(rt, path)?,
            error: None,
        })
    }

    // As many bytes as there are: of a file that ends before, up to its end.
    fn read_upto(&self, at: u64, into: &mut [u8]) -> io::Result<usize>
        ensures { IfOk result (λ n. n ≤ length into.old) }
    {
        match self.file.read_exact_at(into, at) {
            Ok(()) => Ok(into.len()),
            Err(error) if error.kind() == ErrorKind::UnexpectedEof => {
                let left = self.file.metadata()?.len().saturating_sub(at);
                let count = left.min(into.len() as u64) as usize;
                self.file.read_exact_at(&mut into[..count], at)?;
                Ok(count)
            }
            Err(error) => Err(error),
        }
    }
}

/// No contract can say what a file holds: `honest` is no fact of this type, and that a read gives what the file has at one
/// moment, and that its server alone writes to it, is a premise of whoever relies on it.
impl Source for FileSource {
    ghost use Rattle.xa_copy.specs.Still.{state_of};

    ghost honest = { ⊥ };

    ghost state = { λ _. state_of [] };

    fn read_at(&mut self, at: u64, into: &mut [u8]) -> Result<usize, SourceFault> {
        match self.read_upto(at, into) {
            Ok(count) => Ok(count),
            Err(error) => {
                if self.error.is_none() {
                    self.error = Some(error);
                }
                Err(SourceFault)
            }
        }
    }

    fn error(&self) -> Option<io::Error> {
        self.error
    }
}

/// A contract can say nothing of which file it is.
impl Sources for HostRuntime {
    type Source = FileSource;

    ghost found = { λ _ _. Unit {0} };

    fn open_source(&self, path: &str) -> io::Result<FileSource> {
        FileSource::open(self, path)
    }
}

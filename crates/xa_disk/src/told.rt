use crate::file_id::FileId;
use crate::shared_file::SharedFile;
use std::io;

/// What a sync by a handle of a file was answered, of which file, and after how many writes.
#[derive(Debug, Drop)]
pub struct Told {
    answer: io::Result<()>,
    file: FileId,
    writes: u64,
}

impl Told {
    ghost use Rattle.std.specs.Prelude.{◌≡◌, is_ok, true};
    ghost use Rattle.xa_disk.specs.Syncs.{IsDue};

    /// Makes the sync by a handle of a file to which there were this many writes.
    pub(crate) fn by<S: SharedFile>(handle: &S, writes: u64) -> Told
        ensures answer { S.answers handle.now (is_ok result.answer) }
        ensures file { result.file ≡ S.file handle.now }
        ensures writes { result.writes ≡ writes }
    {
        Told {
            answer: handle.sync(),
            file: handle.id(),
            writes,
        }
    }

    /// Whether it is of this file, after the last of this many writes.
    pub(crate) fn is_due(&self, file: FileId, writes: u64) -> bool
        ensures due { result ≡ true → IsDue self.now file writes }
        ensures other { IsDue self.now file writes → result ≡ true }
    {
        self.file == file && self.writes == writes && writes < u64::MAX
    }

    /// What the system said.
    pub fn into_answer(self) -> io::Result<()>
        ensures { result ≡ self.answer }
    {
        self.answer
    }
}

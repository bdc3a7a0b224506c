ghost use Rattle.std.specs.Prelude.{◌≡◌};

use crate::file_id::FileId;
use std::alloc::Global;
use std::fs::File;
use std::io;
use std::sync::Arc;

/// A handle of an open file for its syncs, which are made while others read and write it.
///
/// What a sync is answered comes from the system alone: a proof over any such handle knows of an answer that it was given
/// (`answers`) from the sync that was made, and from nothing else.
pub trait SharedFile {
    ghost use Rattle.std.specs.Prelude.{◌≡◌, Bool, is_ok};
    ghost use Rattle.xa_disk.specs.declared.file_id.FileId.{FileId};

    /// Which file it is of.
    ghost file: { Self → FileId };

    /// A sync by it had this result: whether it succeeded.
    ghost answers: { Self → Bool → Type 0 };

    /// Makes what was written to the file durable.
    fn sync(&self) -> io::Result<()>
        ensures { answers self.now (is_ok result) };

    fn id(&self) -> FileId
        ensures { result ≡ file self.now };
}

/// The system's file, shared.
#[derive(Drop)]
pub struct HostHandle {
    file: Arc<File, Global>,
    id: FileId,
}

impl HostHandle {
    pub(crate) fn new(file: Arc<File, Global>, id: FileId) -> HostHandle
        ensures { result.id ≡ id }
    {
        HostHandle { file, id }
    }
}

/// No contract can say what the system answers.
impl SharedFile for HostHandle {
    ghost file = { λ h. h.id };

    ghost answers = { λ _ _. Unit {0} };

    fn sync(&self) -> io::Result<()> {
        self.file.sync_data()
    }

    fn id(&self) -> FileId {
        self.id
    }
}

//! The calls of the system.
//!
//! No contract can say what a file holds, nor which calls a library makes of the system: `honest` and `recorded` are no
//! facts of this type, and that it keeps the clauses is a premise of whoever relies on them. Each call is a line here.
ghost use Rattle.std.specs.Prelude.{◌≡◌, [], refl, true};
ghost use Rattle.xa_disk.specs.Images.{torn_by_nothing};

use crate::file_id::FileId;
use crate::shared_file::HostHandle;
use crate::told::Told;
use crate::{FileCall, FileFault, RawFile};
use std::alloc::Global;
use std::fs::File;
use std::os::unix::fs::{FileExt, MetadataExt};
use std::sync::Arc;
use std::{fmt, io};

/// An open file of the system.
#[derive(Drop)]
pub struct HostFile {
    file: Arc<File, Global>,
    id: FileId,
    writes: u64,
}

impl HostFile {
    pub(crate) fn of(alloc: Global, file: File) -> Result<HostFile, FileFault> {
        let id = match file.metadata() {
            Ok(found) => FileId {
                device: found.dev(),
                inode: found.ino(),
            },
            Err(error) => {
                return Err(FileFault::Call {
                    call: FileCall::Length,
                    error,
                });
            }
        };
        match Arc::new(alloc, file) {
            Ok(file) => Ok(HostFile {
                file,
                id,
                writes: 0,
            }),
            Err(_) => Err(FileFault::Memory),
        }
    }
}

impl RawFile for HostFile {
    ghost honest = { ⊥ };

    ghost seen = { λ _. [] };

    ghost is_whole = { λ _. true };

    ghost may_leave = { λ _ c. c ≡ [] };

    ghost moment = { λ _. 0 };

    ghost left_since = { λ _ _ c. c ≡ [] };

    ghost tears = { λ old _ _ new. new ≡ old };

    ghost recorded = { ⊥ };

    ghost shortens = { ⊥ };

    ghost calls = { λ _. [] };

    ghost file = { λ f. f.id };

    ghost written = { λ f. f.writes };

    ghost counts_now = { λ _ _ _ _ now. now };

    ghost only_now = { λ _ _ left. left };

    ghost tears_torn = { torn_by_nothing };

    ghost seen_may_stay = { λ _. refl };

    fn id(&self) -> FileId {
        self.id
    }

    fn writes(&self) -> u64 {
        self.writes
    }

    fn length(&mut self) -> io::Result<u64> {
        Ok(self.file.metadata()?.len())
    }

    fn read_at(&mut self, at: u64, into: &mut [u8]) -> io::Result<()> {
        self.file.read_exact_at(into, at)
    }

    fn write_at(&mut self, at: u64, from: &[u8]) -> io::Result<()> {
        self.writes = self.writes.saturating_add(1);
        self.file.write_all_at(from, at)
    }

    // Only if it is longer: otherwise the system's call would extend it.
    fn shorten(&mut self, to: u64) -> bool {
        self.writes = self.writes.saturating_add(1);
        match self.file.metadata() {
            Ok(found) if to < found.len() => self.file.set_len(to).is_ok(),
            _ => false,
        }
    }

    // The bytes, and what of the file's description is needed to read them, its length included.
    fn sync(&mut self) -> io::Result<()> {
        self.file.sync_data()
    }

    fn handle(&self) -> Option<HostHandle> {
        match Arc::try_clone(&self.file) {
            Ok(file) => Some(HostHandle::new(file, self.id)),
            Err(_) => None,
        }
    }

    // The sync was made by the same description of the file, so an error of it is told to nobody else.
    fn take_sync(&mut self, told: Told) -> io::Result<()> {
        told.into_answer()
    }
}

/// Shows only the name.
impl fmt::Debug for HostFile {
    fn fmt<W: fmt::Write>(&self, f: &mut fmt::Formatter<W>) -> fmt::Result {
        f.debug_struct("HostFile").finish_non_exhaustive()
    }
}

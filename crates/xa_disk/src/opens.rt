use crate::disk::Disk;
use crate::file::FileDisk;
use crate::file_fault::FileFault;
use crate::opening::{is_absent, is_log};

/// What opens the files of a log as disks.
pub trait Opens {
    ghost use Rattle.std.specs.Prelude.{ℕ, List, IfErr, IfOk};
    ghost use Rattle.xa_disk.specs.declared.file_fault.FileFault.{FileFault};

    type Disk: Disk + Drop + Send;

    /// A disk is what the file at a path, by the path's bytes, was opened as.
    ghost opened: { Self.Disk → List ℕ → Type 0 };

    /// It was asked for the file at a path, by the path's bytes, and refused it for this reason.
    ghost refused: { List ℕ → FileFault → Type 0 };

    /// The file at a path, one of a log's two, of which the other one is at the path `beside`. It is created if it isn't there,
    /// unless the other one is a log: both are created before the first byte is written, so it was removed. No other disk may
    /// have it.
    fn open_disk(&self, path: &str, beside: &str) -> Result<Self::Disk, FileFault>
        ensures opened { IfOk result (λ disk. opened disk path.now) }
        ensures refused { IfErr result (refused path.now) };

    /// The file at a path, for reads. It isn't created, and no other disk that writes may have it.
    fn read_disk(&self, path: &str) -> Result<Self::Disk, FileFault>
        ensures opened { IfOk result (λ disk. opened disk path.now) }
        ensures refused { IfErr result (refused path.now) };
}

/// A contract can say of a file only that its disk had no failure yet, and nothing of one that wasn't opened.
impl Opens for HostRuntime {
    ghost use Rattle.std.specs.Prelude.{◌≡◌};

    type Disk = FileDisk;

    ghost opened = { λ disk _. disk.tally.failures ≡ 0 };

    ghost refused = { λ _ _. Unit {0} };

    fn open_disk(&self, path: &str, beside: &str) -> Result<FileDisk, FileFault> {
        if is_absent(self, path) && is_log(self, beside) {
            return Err(FileFault::Absent);
        }
        FileDisk::open(self, path)
    }

    fn read_disk(&self, path: &str) -> Result<FileDisk, FileFault> {
        FileDisk::for_reading(self, path)
    }
}

//! What can be said of every manager on disks in memory, and of every run of the sequential resource manager.
ghost use Rattle.xa_play.specs.{Disks.FilesStand, Runs.RunsAreLawful};

use xa_disk::MemDisk;
use xa_manager::{memory_is_trusted, read_stands};
use xa_model::{listed_until_asked, one_copy, recoverable};

/// What a read gives of the files of a manager's log stands for whichever state the manager stands for.
pub fn files_stand()
    ensures { FilesStand }
{
    memory_is_trusted();
    read_stands::<MemDisk>();
}

/// Every run is one copy, and lists what was prepared until somebody asks for its completion.
pub fn runs_are_lawful()
    ensures { RunsAreLawful }
{
    recoverable();
    one_copy();
    listed_until_asked();
}

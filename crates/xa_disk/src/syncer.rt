//! A sync that is made while others use the disk.
ghost use Rattle.std.specs.Prelude.{◌≡◌, None, MatchBool};
ghost use Rattle.xa_disk.specs.Syncs.{HasFailed, IsAnswerOf};

use crate::shared_file::HostHandle;
use crate::told::Told;
use std::fmt;

/// Makes the sync that is due of a disk's file. Who has it needn't have the disk: others may read it meanwhile, and a
/// write is none of this sync's. It can't be dropped: its sync is made.
pub struct Syncer {
    /// None if the disk makes its syncs itself.
    handle: Option<HostHandle>,
    /// How many writes there had been.
    writes: u64,
}

/// What a sync by a `Syncer` was answered. Its disk takes it (`Disk::take_sync`, `Disk::leave_sync`): the system may tell an
/// error once, so one that is lost would be taken for none. So it can't be dropped otherwise.
#[derive(Debug)]
pub struct SyncAnswer {
    /// None: the disk has to make the sync.
    told: Option<Told>,
}

impl Syncer {
    /// One that leaves the sync to the disk.
    pub fn none() -> Syncer
        ensures { result.handle ≡ None }
    {
        Syncer {
            handle: None,
            writes: 0,
        }
    }

    /// One of a file to which there were this many writes.
    pub(crate) fn of(handle: Option<HostHandle>, writes: u64) -> Syncer
        ensures { (result.handle ≡ handle) × (result.writes ≡ writes) }
    {
        Syncer { handle, writes }
    }

    /// Makes the sync. Its answer is one of that file, after as many writes as there had been.
    pub fn sync(self) -> SyncAnswer
        ensures { IsAnswerOf self result }
    {
        let Syncer { handle, writes } = self;
        match handle {
            Some(handle) => SyncAnswer {
                told: Some(Told::by(&handle, writes)),
            },
            None => SyncAnswer::none(),
        }
    }
}

impl SyncAnswer {
    /// None: the disk has to make the sync.
    pub fn none() -> SyncAnswer
        ensures { result.told ≡ None }
    {
        SyncAnswer { told: None }
    }

    /// What was told, if a sync was made.
    pub(crate) fn into_told(self) -> Option<Told>
        ensures { result ≡ self.told }
    {
        let SyncAnswer { told } = self;
        told
    }

    /// Whether a sync was made, and failed.
    pub(crate) fn has_failed(self) -> bool
        ensures { MatchBool result (HasFailed self) (HasFailed self → ⊥) }
    {
        match self.into_told() {
            Some(told) => told.into_answer().is_err(),
            None => false,
        }
    }
}

/// Shows how many writes there had been.
impl fmt::Debug for Syncer {
    fn fmt<W: fmt::Write>(&self, f: &mut fmt::Formatter<W>) -> fmt::Result {
        f.debug_struct("Syncer")
            .field("writes", &self.writes)
            .finish_non_exhaustive()
    }
}

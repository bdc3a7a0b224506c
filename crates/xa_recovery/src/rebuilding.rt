ghost use Rattle.std.specs.Prelude.{◌≡◌, [], ◌∷◌, ◌++◌, List, Ok, Err, IfOk, length, MatchResult};
ghost use Rattle.xa_record.specs.declared.record.Record.{Record};
ghost use Rattle.xa_model.specs.Fold.{fold};

use crate::durable::{Durable, InDoubt};
use crate::fault::AddFault;
use crate::last::last_writes;
use std::alloc::{AllocError, Global};
use std::collections::{BTreeMap, BTreeSet};
use xa_codes::Direction;
use xa_record::{Record, Writes};
use xa_xid::Xid;

/// What was read of a log, record by record.
///
/// A record takes time that grows with the logarithm of the number of branches, and with its own length.
#[derive(Debug, Drop)]
pub struct Rebuilding {
    pub(crate) alloc: Global,
    /// The last boot, or 0.
    pub(crate) boot: u32,
    /// Whether the first boot and its snapshot are all that was read.
    pub(crate) is_snapshot: bool,
    /// By timestamp, with the writes that were overwritten.
    pub(crate) committed: BTreeMap<u64, Writes>,
    pub(crate) prepared: BTreeMap<u64, InDoubt>,
    /// The timestamps of the branches in doubt.
    pub(crate) names: BTreeMap<Xid, u64>,
    pub(crate) decided: BTreeMap<Xid, Direction>,
    /// Those of all branches that were read.
    pub(crate) timestamps: BTreeSet<u64>,
}

impl Rebuilding {
    ghost use Rattle.xa_recovery.specs.Rebuilding.{HasRead, Taken};

    /// Nothing was read. Takes no memory.
    pub fn new(alloc: Global) -> Rebuilding
        ensures { HasRead result [] }
    {
        Rebuilding {
            alloc,
            boot: 0,
            is_snapshot: false,
            committed: BTreeMap::new(alloc),
            prepared: BTreeMap::new(alloc),
            names: BTreeMap::new(alloc),
            decided: BTreeMap::new(alloc),
            timestamps: BTreeSet::new(alloc),
        }
    }

    /// Reads one more record. After a fault nothing is left.
    pub fn add(mut self, record: Record) -> Result<Rebuilding, AddFault>
        ensures { (rs : List Record) → HasRead self rs → Taken rs «record» result }
    {
        if !self.fits(&record) {
            return Err(AddFault::Order);
        }
        self.apply(record)?;
        Ok(self)
    }

    /// What the records come to.
    ///
    /// # Errors
    /// Out of memory.
    pub fn done(self) -> Result<Durable, AllocError>
        ensures { (rs : List Record) → HasRead self rs → IfOk result (λ d. fold rs ≡ Ok d) }
    {
        let Rebuilding {
            alloc,
            boot,
            committed,
            prepared,
            decided,
            names,
            timestamps,
            ..
        } = self;
        drop(names);
        drop(timestamps);
        let committed = last_writes(alloc, committed)?;
        Ok(Durable {
            boot,
            committed,
            prepared,
            decided,
        })
    }
}

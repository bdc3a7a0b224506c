ghost use Rattle.std.specs.Prelude.{◌≡◌, IfOk, map};
ghost use Rattle.xa_model.specs.{State.State, Durable.durable, Trimming.trimmed};
ghost use Rattle.xa_branch.specs.{Branches.BranchesStandFor, Branches.boot_of, Checkpointed.decided_as, Checkpointed.TimesOf};
ghost use Rattle.xa_branch.specs.{Follows.InEach, Follows.InSound};

use crate::branches::Branches;
use crate::lasting::Lasting;
use std::alloc::{AllocError, Global};
use std::collections::BTreeMap;
use xa_codes::Direction;
use xa_xid::Xid;

/// What a checkpoint writes of branches, each of which visits what lasts once; and the boot that it begins.
impl Branches {
    /// The number of this boot.
    pub fn boot(&self) -> u32
        ensures value { result ≡ boot_of self.now }
        ensures state { InEach self.now (λ s. result ≡ s.boot) }
    {
        self.boot
    }

    /// Begins the boot of this number, which has given no timestamp. All branches stay as they are. Takes no memory.
    pub fn begin_boot(&mut self, boot: u32)
        ensures { (s : State) → BranchesStandFor self.old s → BranchesStandFor self.new (trimmed s boot) }
    {
        self.boot = boot;
        self.given = 0;
    }

    /// The timestamps of the branches in doubt, by XID.
    ///
    /// # Errors
    /// Out of memory, or a branch has its room.
    pub fn in_doubt(&self, alloc: Global) -> Result<BTreeMap<Xid, u64>, AllocError>
        ensures { InSound self.now (λ s. IfOk result (TimesOf (durable s).prepared)) }
    {
        if self.has_rooms() {
            return Err(AllocError);
        }
        let mut times = BTreeMap::new(alloc);
        for (xid, lasting) in &self.lasting {
            if let Lasting::Prepared(timestamp) = lasting {
                times.insert(xid.copied(), *timestamp)?;
            }
        }
        Ok(times)
    }

    /// What the operator completed and isn't forgotten, by XID.
    ///
    /// # Errors
    /// Out of memory, or a branch has its room.
    pub fn decided(&self, alloc: Global) -> Result<BTreeMap<Xid, Direction>, AllocError>
        ensures { InSound self.now (λ s. IfOk result (λ m. m.entries ≡ map decided_as (durable s).decided)) }
    {
        if self.has_rooms() {
            return Err(AllocError);
        }
        let mut decided = BTreeMap::new(alloc);
        for (xid, lasting) in &self.lasting {
            if let Lasting::Completed(direction) = lasting {
                decided.insert(xid.copied(), *direction)?;
            }
        }
        Ok(decided)
    }
}

ghost use Rattle.std.specs.Prelude.{◌≡◌, ◌+◌, ◌<◌, IfOk};
ghost use Rattle.mv_rules.specs.Committed.{branches_in};
ghost use Rattle.xa_model.specs.Durable.{durable};
ghost use Rattle.xa_recovery.specs.Durable.{committed_of, prepared_of};
ghost use Rattle.xa_limits.specs.declared.TheConstants.{MOST_BOOTS};
ghost use Rattle.xa_manager.specs.{Believed.LogStands.snapshot_bodies, Tables.TablesSay};

use crate::tables::Tables;
use std::alloc::{AllocError, Global};
use std::collections::BTreeMap;
use xa_codes::Write;
use xa_record::Writes;
use xa_recovery::{Durable, InDoubt, snapshot};
use xa_shared::SharedBytes;

/// Writes by timestamp, as what lasts has them. They are moved.
fn with_writes(
    alloc: Global,
    committed: BTreeMap<u64, Vec<Write>>,
) -> Result<BTreeMap<u64, Writes>, AllocError>
    ensures { IfOk result (λ m. committed_of m ≡ branches_in committed.entries) }
{
    let mut made = BTreeMap::new(alloc);
    for (timestamp, writes) in committed {
        made.insert(timestamp, Writes::new(writes))?;
    }
    Ok(made)
}

/// What a checkpoint of a manager that is up begins a file with, without reading the log.
impl Tables {
    /// The branches in doubt by timestamp, with copies of what they wrote.
    ///
    /// # Errors
    /// Out of memory.
    fn in_doubt(&self) -> Result<BTreeMap<u64, InDoubt>, AllocError>
        ensures { TablesSay self.now (λ s. IfOk result (λ m. prepared_of m ≡ (durable s).prepared)) }
    {
        let mut prepared = BTreeMap::new(self.alloc);
        for (xid, timestamp) in self.branches.in_doubt(self.alloc)? {
            let writes = Writes::new(self.records.writes_of(timestamp)?);
            prepared.insert(timestamp, InDoubt { xid, writes })?;
        }
        Ok(prepared)
    }

    /// What lasts, if `boot` is the greatest that was logged: the same as the log's records come to. Each key and
    /// each branch that lasts is visited once, and copied.
    ///
    /// # Errors
    /// Out of memory.
    pub(crate) fn durable(&self, boot: u32) -> Result<Durable, AllocError>
        ensures { TablesSay self.now (λ s. s.logged_boot ≡ boot → IfOk result (λ d. d ≡ durable s)) }
    {
        let committed = with_writes(self.alloc, self.records.committed()?)?;
        let prepared = self.in_doubt()?;
        let decided = self.branches.decided(self.alloc)?;
        Ok(Durable::new(boot, committed, prepared, decided))
    }

    /// The bodies of the records that the log of the boot after this one, the greatest that was logged, begins with.
    ///
    /// # Errors
    /// Out of memory.
    pub(crate) fn snapshot(&self, boot: u32) -> Result<Vec<SharedBytes>, AllocError>
        requires { boot < MOST_BOOTS }
        ensures { TablesSay self.now
            (λ s. s.logged_boot ≡ boot → IfOk result (λ v. v.items ≡ snapshot_bodies s (boot + 1))) }
    {
        let durable = self.durable(boot)?;
        snapshot(self.alloc, durable, boot + 1)
    }
}

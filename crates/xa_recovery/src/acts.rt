ghost use Rattle.std.specs.Prelude.{◌≡◌, false, true, OnOk};
ghost use Rattle.xa_model.specs.Durable.{is_prepared, is_decided};
ghost use Rattle.xa_model.specs.Fold.{is_used, prepare, commit_writes, complete, decide, fits, read};
ghost use Rattle.xa_recovery.specs.Rebuilding.{StandsFor, InEach, InRead, with_branch};

use crate::durable::InDoubt;
use crate::rebuilding::Rebuilding;
use std::alloc::AllocError;
use xa_codes::Direction;
use xa_record::{Record, Writes};
use xa_xid::Xid;

/// What records do.
impl Rebuilding {
    /// Does what the record does, which fits.
    pub(crate) fn apply(&mut self, record: Record) -> Result<(), AllocError>
        ensures { InRead self.old (λ x. fits «record» x ≡ true → OnOk result (StandsFor self.new (read «record» x))) }
    {
        match record {
            Record::Opened { boot } => {
                self.is_snapshot = self.boot == 0;
                self.boot = boot;
                Ok(())
            }
            Record::Prepared {
                xid,
                timestamp,
                writes,
            } => {
                self.is_snapshot = false;
                self.prepare(xid, timestamp, writes)
            }
            Record::Committed {
                timestamp,
                writes,
                ..
            } => {
                self.is_snapshot = false;
                self.commit(timestamp, writes)
            }
            Record::Completed { xid, direction } => {
                self.is_snapshot = false;
                self.complete(&xid, direction)
            }
            Record::Decided { xid, direction } => {
                self.is_snapshot = false;
                self.complete(&xid, direction)?;
                self.decide(xid, direction)
            }
            Record::Forgotten { xid } => {
                self.is_snapshot = false;
                self.decided.remove(&xid);
                Ok(())
            }
            Record::Base { timestamp, writes } => self.commit(timestamp, writes),
            Record::Held {
                xid,
                timestamp,
                writes,
            } => self.prepare(xid, timestamp, writes),
            Record::Known { xid, direction } => self.decide(xid, direction),
        }
    }

    /// A branch is prepared, with a timestamp and a name that none has.
    fn prepare(&mut self, xid: Xid, timestamp: u64, writes: Writes) -> Result<(), AllocError>
        ensures { InRead self.old (λ x. is_used timestamp x.timestamps ≡ false
            → is_prepared xid x.durable.prepared ≡ false
            → OnOk result (StandsFor self.new (with_branch timestamp (prepare xid timestamp writes) x))) }
    {
        self.timestamps.insert(timestamp)?;
        self.names.insert(xid.copied(), timestamp)?;
        self.prepared.insert(timestamp, InDoubt { xid, writes })?;
        Ok(())
    }

    /// A branch is committed, with a timestamp that none has.
    fn commit(&mut self, timestamp: u64, writes: Writes) -> Result<(), AllocError>
        ensures { InRead self.old (λ x. is_used timestamp x.timestamps ≡ false
            → OnOk result (StandsFor self.new (with_branch timestamp (commit_writes timestamp writes) x))) }
    {
        self.timestamps.insert(timestamp)?;
        self.committed.insert(timestamp, writes)?;
        Ok(())
    }

    /// A branch in doubt is committed or rolled back.
    fn complete(&mut self, xid: &Xid, direction: Direction) -> Result<(), AllocError>
        ensures { InRead self.old (λ x. is_prepared xid.now x.durable.prepared ≡ true
            → OnOk result (StandsFor self.new (record x { durable = complete xid.now direction x.durable }))) }
    {
        // A record that fits is of a branch in doubt, so both are always found.
        let Some(timestamp) = self.names.remove(xid) else {
            return Ok(());
        };
        let Some(branch) = self.prepared.remove(&timestamp) else {
            return Ok(());
        };
        match direction {
            Direction::Commit => {
                self.committed.insert(timestamp, branch.writes)?;
                Ok(())
            }
            Direction::Rollback => Ok(()),
        }
    }

    /// The operator's decision is kept, of an XID that isn't known.
    fn decide(&mut self, xid: Xid, direction: Direction) -> Result<(), AllocError>
        ensures { InEach self.old (λ x. is_decided xid x.durable.decided ≡ false
            → OnOk result (StandsFor self.new (record x { durable = decide xid direction x.durable }))) }
    {
        self.decided.insert(xid, direction)?;
        Ok(())
    }
}

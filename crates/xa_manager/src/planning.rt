//! Planned faults, stops and crashes of the disks in memory of a manager's log.
ghost use Rattle.std.specs.Prelude.{◌≡◌, IfOk};

use crate::Manager;
use std::alloc::AllocError;
use xa_disk::{Disk, Effect, MemDisk};

impl Manager<MemDisk> {
    ghost use Rattle.xa_log.specs.Planned.{CrashesBoth, Plans, PlansStop};
    ghost use Rattle.xa_manager.specs.{Believed.Answered.StaysFor, Believed.Parts.log_of, Believed.Parts.outcome_of};

    /// Plans that the k-th device call of the current file's disk from now fails, as `MemDisk::fail` does. Nothing else
    /// changes.
    pub fn fail(&mut self, k: u64, effect: Effect) -> Result<(), AllocError>
        ensures planned { Plans result k effect (log_of self.old).disk (log_of self.new).disk }
        ensures other { (log_of self.new).other ≡ (log_of self.old).other }
        ensures stays { StaysFor ⟦<MemDisk as Disk>⟧ self.old self.new }
        ensures outcome { outcome_of self.new ≡ outcome_of self.old }
    {
        self.log.fail(k, effect)
    }

    /// The same of the other file's disk.
    pub fn fail_other(&mut self, k: u64, effect: Effect) -> Result<(), AllocError>
        ensures planned { Plans result k effect (log_of self.old).other (log_of self.new).other }
        ensures current { (log_of self.new).disk ≡ (log_of self.old).disk }
        ensures stays { StaysFor ⟦<MemDisk as Disk>⟧ self.old self.new }
        ensures outcome { outcome_of self.new ≡ outcome_of self.old }
    {
        self.log.fail_other(k, effect)
    }

    /// Plans that from its k-th device call from now the current file's disk stops, as `MemDisk::stop` does. Nothing
    /// else changes.
    pub fn stop(&mut self, k: u64)
        ensures planned { PlansStop k (log_of self.old).disk (log_of self.new).disk }
        ensures other { (log_of self.new).other ≡ (log_of self.old).other }
        ensures stays { StaysFor ⟦<MemDisk as Disk>⟧ self.old self.new }
        ensures outcome { outcome_of self.new ≡ outcome_of self.old }
    {
        self.log.stop(k);
    }

    /// The same of the other file's disk.
    pub fn stop_other(&mut self, k: u64)
        ensures planned { PlansStop k (log_of self.old).other (log_of self.new).other }
        ensures current { (log_of self.new).disk ≡ (log_of self.old).disk }
        ensures stays { StaysFor ⟦<MemDisk as Disk>⟧ self.old self.new }
        ensures outcome { outcome_of self.new ≡ outcome_of self.old }
    {
        self.log.stop_other(k);
    }

    /// Gives the two disks back, the first one first, after a crash of both: the current file's and the other file's
    /// keep `current` and `other` of the bytes written since the last sync, as `MemDisk::crash_keeping` does.
    pub fn into_crashed_disks(
        self,
        current: u64,
        other: u64,
    ) -> Result<(MemDisk, MemDisk), AllocError>
        ensures { IfOk result (CrashesBoth current other (log_of self)) }
    {
        self.log.into_crashed_disks(current, other)
    }
}

//! Planned faults, stops and crashes of a log's disks in memory.
ghost use Rattle.std.specs.Prelude.{◌≡◌, IfOk, List, ℕ};

use crate::Log;
use std::alloc::AllocError;
use xa_disk::{Disk, Effect, MemDisk};

impl Log<MemDisk> {
    ghost use Rattle.xa_log.specs.Buffer.{KeepsRoom};
    ghost use Rattle.xa_log.specs.Planned.{CrashesBoth, Plans, PlansStop};
    ghost use Rattle.xa_log.specs.{Believed.Stands.Untouched, Believed.LogStates.KeepsAll};

    /// Plans that the k-th device call of the current file's disk from now fails, as `MemDisk::fail` does. Nothing else
    /// changes.
    pub fn fail(&mut self, k: u64, effect: Effect) -> Result<(), AllocError>
        ensures planned { Plans result k effect self.old.disk self.new.disk }
        ensures other { self.new.other ≡ self.old.other }
        ensures untouched { Untouched self.old self.new }
        ensures room { KeepsRoom self.old self.new }
        ensures state { KeepsAll ⟦<MemDisk as Disk>⟧ self.old self.new }
    {
        self.disk.fail(k, effect)
    }

    /// The same of the other file's disk.
    pub fn fail_other(&mut self, k: u64, effect: Effect) -> Result<(), AllocError>
        ensures planned { Plans result k effect self.old.other self.new.other }
        ensures current { self.new.disk ≡ self.old.disk }
        ensures untouched { Untouched self.old self.new }
        ensures room { KeepsRoom self.old self.new }
        ensures state { KeepsAll ⟦<MemDisk as Disk>⟧ self.old self.new }
    {
        self.other.fail(k, effect)
    }
    /// Plans that from its k-th device call from now the current file's disk stops, as `MemDisk::stop` does. Nothing
    /// else changes.
    pub fn stop(&mut self, k: u64)
        ensures planned { PlansStop k self.old.disk self.new.disk }
        ensures other { self.new.other ≡ self.old.other }
        ensures untouched { Untouched self.old self.new }
        ensures room { KeepsRoom self.old self.new }
        ensures state { KeepsAll ⟦<MemDisk as Disk>⟧ self.old self.new }
    {
        self.disk.stop(k);
    }

    /// The same of the other file's disk.
    pub fn stop_other(&mut self, k: u64)
        ensures planned { PlansStop k self.old.other self.new.other }
        ensures current { self.new.disk ≡ self.old.disk }
        ensures untouched { Untouched self.old self.new }
        ensures room { KeepsRoom self.old self.new }
        ensures state { KeepsAll ⟦<MemDisk as Disk>⟧ self.old self.new }
    {
        self.other.stop(k);
    }

    /// Gives the two disks back, the first one first, after a crash of both: the current file's and the other file's
    /// keep `current` and `other` of the bytes written since the last sync, as `MemDisk::crash_keeping` does.
    pub fn into_crashed_disks(
        self,
        current: u64,
        other: u64,
    ) -> Result<(MemDisk, MemDisk), AllocError>
        ensures { IfOk result (CrashesBoth current other self) }
    {
        let mut log = self;
        log.disk.crash_keeping(current)?;
        log.other.crash_keeping(other)?;
        Ok(log.into_disks())
    }
}

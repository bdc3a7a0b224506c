//! What can be said of a manager's two files, and of managers on disks in memory.
ghost use Rattle.xa_manager.specs.Believed.CrashLaws.{ReadLeaves, ReadStands, CrashLeaves, FilesLast, FilesLastAsFated};
ghost use Rattle.xa_manager.specs.{Believed.LogStands.Trusts, Believed.Pending.PendingLeaves};
ghost use Rattle.xa_manager.specs.Believed.Promises.{ReachedPromises, OnePromises, BegunIsReached};

use xa_disk::{Disk, MemDisk};

/// What a read gives of a log's two files is a log of the records of the state that it backs.
pub fn read_leaves<D: Disk>()
    ensures { ReadLeaves D.Disk }
{}

/// The same holds of a manager's log, for each state that the manager stands for.
pub fn read_stands<D: Disk>()
    ensures { ReadStands D.Disk }
{}

/// So is what a crash leaves of the two files, if nothing is left to chance.
pub fn crash_leaves<D: Disk>()
    ensures { CrashLeaves D.Disk }
{}

/// So is what a crash leaves at any moment while a group is pending, of the state in which its records are lost.
pub fn pending_leaves<D: Disk>()
    ensures { PendingLeaves D.Disk }
{}

/// The records of such files come to what lasts of the state: if the fate of a record is unknown, with it or without
/// it.
pub fn files_last()
    ensures settled { FilesLast }
    ensures fated { FilesLastAsFated }
{}

/// Disks in memory meet the premises on a type of disks.
pub fn memory_is_trusted()
    ensures { Trusts ⟦<MemDisk as Disk>⟧ }
{}

/// Whatever state a legal history of an opening state leads to: its committed branches are one copy, each branch that
/// was answered as prepared is listed, unless its completion was asked for since then, and none that was completed is,
/// unless a prepare of its XID was called since then.
pub fn reached_promises()
    ensures { ReachedPromises }
{}

/// The same holds after each connect, call and hang-up of a manager that stood for such a state.
pub fn one_promises<D: Disk>()
    ensures { OnePromises D.Disk }
{}

/// A manager that was opened begins with such a state.
pub fn begun_is_reached<D: Disk>()
    ensures { BegunIsReached D.Disk }
{}

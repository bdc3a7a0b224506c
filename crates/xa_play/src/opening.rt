//! A manager is opened on disks in memory, at first and again.
ghost use Rattle.std.specs.Prelude.{◌≡◌, ◌↔◌, ◌⊎◌, IfErr, IfOk, IsErrOf};
ghost use Rattle.xa_model.specs.History.{fresh};
ghost use Rattle.xa_manager.specs.{Believed.Opening.IsBadSetting, Believed.Parts.log_of};
ghost use Rattle.xa_play.specs.Disks.{StandsFor, CrashesTo, OpenedOn, first_seen, second_seen, seen};
ghost use Rattle.xa_play.specs.Played.{Crashed, IsOpeningFault};

use crate::fault::PlayFault;
use std::alloc::{AllocError, Global};
use xa_disk::MemDisk;
use xa_manager::{Manager, Settings, memory_is_trusted};
use xa_script::LogFile;

/// A copy of the settings.
fn copied(alloc: Global, settings: &Settings) -> Result<Settings, AllocError>
    ensures { IfOk result (λ copy. copy ≡ settings.now) }
{
    Ok(Settings {
        name: settings.name.copied(alloc)?,
        log_bytes: settings.log_bytes,
    })
}

/// A manager on two empty disks, and the settings with which it was opened: their copy is made before, and missed only
/// once they were taken.
pub fn open_first(
    alloc: Global,
    settings: Settings,
) -> Result<(Manager<MemDisk>, Settings), PlayFault>
    ensures stands { IfOk result (λ pair. StandsFor pair.0 (fresh settings.name settings.log_bytes)) }
    ensures kept { IfOk result (λ pair. pair.1 ≡ settings) }
    ensures setting { IsErrOf result PlayFault.Setting ↔ IsBadSetting settings.name settings.log_bytes }
    ensures faults { IfErr result (λ fault. (fault ≡ PlayFault.Setting) ⊎ IsOpeningFault fault) }
{
    let kept = copied(alloc, &settings);
    let manager = open_fresh(alloc, settings)?;
    let kept = kept?;
    Ok((manager, kept))
}

/// A manager on two empty disks.
fn open_fresh(alloc: Global, settings: Settings) -> Result<Manager<MemDisk>, PlayFault>
    ensures stands { IfOk result (λ m. StandsFor m (fresh settings.name settings.log_bytes)) }
    ensures setting { IsErrOf result PlayFault.Setting ↔ IsBadSetting settings.name settings.log_bytes }
    ensures faults { IfErr result (λ fault. (fault ≡ PlayFault.Setting) ⊎ IsOpeningFault fault) }
{
    memory_is_trusted();
    let opened = Manager::open(alloc, MemDisk::new(alloc), MemDisk::new(alloc), settings)?;
    Ok(opened)
}

/// The manager is opened again, on its disks as a read gives them. The memory of the settings is taken first.
pub fn reopen(
    alloc: Global,
    manager: Manager<MemDisk>,
    settings: &Settings,
) -> Result<Manager<MemDisk>, PlayFault>
    requires { ¬ IsBadSetting settings.now.name settings.now.log_bytes }
    ensures reopened { IfOk result (OpenedOn settings.now.name settings.now.log_bytes
        (first_seen manager) (second_seen manager)) }
    ensures faults { IfErr result IsOpeningFault }
{
    let settings = copied(alloc, settings)?;
    let (first, second) = manager.into_disks();
    open_on(alloc, first, second, settings)
}

/// The manager is opened again, on what a crash leaves of its disks that keeps this many bytes of the log's file that is
/// named.
pub fn crash(
    alloc: Global,
    manager: Manager<MemDisk>,
    settings: &Settings,
    file: LogFile,
    keeps: u64,
) -> Result<Manager<MemDisk>, PlayFault>
    requires { ¬ IsBadSetting settings.now.name settings.now.log_bytes }
    ensures crashed { IfOk result (Crashed settings.now.name settings.now.log_bytes file keeps manager) }
    ensures faults { IfErr result IsOpeningFault }
{
    let settings = copied(alloc, settings)?;
    let (first, second) = crashed_disks(manager, file, keeps)?;
    open_on(alloc, first, second, settings)
}

/// The disks after a crash.
fn crashed_disks(
    manager: Manager<MemDisk>,
    file: LogFile,
    keeps: u64,
) -> Result<(MemDisk, MemDisk), AllocError>
    ensures { IfOk result (CrashesTo file keeps (log_of manager)) }
{
    match file {
        LogFile::Current => manager.into_crashed_disks(keeps, 0),
        LogFile::Other => manager.into_crashed_disks(0, keeps),
    }
}

/// A manager on two disks.
fn open_on(
    alloc: Global,
    first: MemDisk,
    second: MemDisk,
    settings: Settings,
) -> Result<Manager<MemDisk>, PlayFault>
    requires { ¬ IsBadSetting settings.name settings.log_bytes }
    ensures opened { IfOk result (OpenedOn settings.name settings.log_bytes (seen first) (seen second)) }
    ensures faults { IfErr result IsOpeningFault }
{
    memory_is_trusted();
    let opened = Manager::open(alloc, first, second, settings)?;
    Ok(opened)
}

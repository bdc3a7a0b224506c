//! What a server needs before it serves: a manager over two files, and what listens.
ghost use Rattle.std.specs.Prelude.{◌≡◌, ℕ, List, IfErr, IfOk, OnOk, string_bytes};
ghost use Rattle.xa_log.specs.{Believed.Unfit.unfit_of, declared.unfit.Unfit.TheVariants.Neither};
ghost use Rattle.xa_server.specs.Faults.{file_fault};
ghost use Rattle.xa_server.specs.Believed.Served.{AreFiles, HasFailedBy, HasOpened, IsDamage, IsFileFault};
ghost use Rattle.xa_server.specs.Believed.Served.{IsReady, Refuses, never, second_path, where_of};

use crate::listening::{Listening, listen};
use crate::listens::Listens;
use crate::log_file::LogFile;
use crate::serve_fault::ServeFault;
use crate::socket_access::SocketAccess;
use std::alloc::{AllocError, Global};
use std::io::Eprint;
use xa_disk::{Disk, FileFault, Opens};
use xa_log::{OpenFault, PassedOver, Unfit, find_damage, unfit_file};
use xa_manager::{Manager, ManagerFault, RefusedOpening, Settings};
use xa_service::At;

/// What listens there, and the manager that the log's two files open to.
pub(crate) fn make_ready<'a, R: AllocGlobal + Opens + Listens>(
    rt: &R,
    path: &'a str,
    name: &str,
    at: At<'_>,
    access: SocketAccess,
    log_bytes: u64,
    passed_over: &mut Option<PassedOver>,
) -> Result<(Listening, Manager<R::Disk>), ServeFault<'a>>
    ensures ready { IfOk result (λ made. IsReady ⟦<R::Disk as Disk>⟧ R.opened R.Listens log_bytes
        (record { path = path.now; name = name.now; at = where_of at.entry }) made.0 made.1) }
    ensures failed { IfErr result (HasFailedBy ⟦<R::Disk as Disk>⟧ R.opened R.refused R.Listens log_bytes
        (record { path = path.now; name = name.now; at = where_of at.entry }) never) }
{
    let settings = Settings::new(rt.alloc(), name, log_bytes)?;
    let (mut first, mut second) = open_files(rt, path)?;
    none_unfit(rt.alloc(), &mut first, &mut second, path, log_bytes)?;
    let Ok(listening) = listen(rt, at, access) else {
        return Err(ServeFault::Listen);
    };
    let manager = open_manager(rt.alloc(), first, second, settings, path, passed_over)?;
    Ok((listening, manager))
}

/// Tells which records of the log at this path an opening left out, if any.
pub(crate) fn tell_passed_over<R: Eprint>(rt: &R, path: &str, passed_over: Option<PassedOver>) {
    let Some(
        PassedOver {
            on_first,
            at,
            records,
        },
    ) = passed_over
    else {
        return;
    };
    let file = LogFile {
        path,
        is_second: !on_first,
    };
    let many = if records == 1 {
        "record that chains"
    } else {
        "records that chain"
    };
    let are = if records == 1 { "is" } else { "are" };
    // Where it can't be told, the log is served all the same.
    let _ = eprintln!(rt;
        "xarm: {file}: {records} {many} after byte {at} {are} left out: a torn write, or damage"
    );
}

/// The manager that two files open to.
fn open_manager<'a, D: Disk + Drop>(
    alloc: Global,
    first: D,
    second: D,
    settings: Settings,
    path: &'a str,
    passed_over: &mut Option<PassedOver>,
) -> Result<Manager<D>, ServeFault<'a>>
    ensures opened { IfOk result (HasOpened D.Disk first second settings.name settings.log_bytes) }
    ensures failed { IfErr result (Refuses D.Disk path.now settings.name settings.log_bytes first second) }
{
    let log_bytes = settings.log_bytes;
    match Manager::open_returning(alloc, first, second, settings, passed_over) {
        Ok(manager) => Ok(manager),
        Err(
            RefusedOpening {
                fault: ManagerFault::Log(OpenFault::Damaged),
                mut first,
                mut second,
            },
        ) => Err(damaged(alloc, &mut first, &mut second, path, log_bytes)),
        Err(refused) => Err(ServeFault::from(refused.fault)),
    }
}

/// What is told of two files whose log is damaged: where, unless they can't be read again.
fn damaged<'a, D: Disk>(
    alloc: Global,
    first: &mut D,
    second: &mut D,
    path: &'a str,
    log_bytes: u64,
) -> ServeFault<'a>
    ensures { IsDamage D.Disk path.now first.old second.old result }
{
    match find_damage(alloc, first, second, log_bytes) {
        Ok(Some(damage)) => ServeFault::Damaged {
            file: LogFile {
                path,
                is_second: !damage.on_first,
            },
            number: damage.number,
            at: damage.at,
        },
        Ok(None) | Err(_) => ServeFault::Manager(ManagerFault::Log(OpenFault::Damaged)),
    }
}

/// Refuses two files of which one is missing, or has something in it that is no log. Only reads.
fn none_unfit<'a, D: Disk>(
    alloc: Global,
    first: &mut D,
    second: &mut D,
    path: &'a str,
    log_bytes: u64,
) -> Result<(), ServeFault<'a>>
    ensures fit { D.honest → OnOk result (unfit_of log_bytes (D.seen first.old) (D.seen second.old) ≡ Neither) }
    ensures same { D.honest → D.seen first.new ≡ D.seen first.old }
    ensures same_second { D.honest → D.seen second.new ≡ D.seen second.old }
    ensures failed { (name : List ℕ) → IfErr result (Refuses D.Disk path.now name log_bytes first.old second.old) }
{
    let first_file = LogFile {
        path,
        is_second: false,
    };
    let second_file = LogFile {
        path,
        is_second: true,
    };
    match unfit_file(alloc, first, second, log_bytes) {
        Ok(Unfit::Neither) => Ok(()),
        Ok(Unfit::MissingFirst) => Err(ServeFault::Missing(first_file)),
        Ok(Unfit::MissingSecond) => Err(ServeFault::Missing(second_file)),
        Ok(Unfit::StrayFirst) => Err(ServeFault::Stray(first_file)),
        Ok(Unfit::StraySecond) => Err(ServeFault::Stray(second_file)),
        Err(OpenFault::Memory) => Err(ServeFault::Memory),
        Err(fault) => Err(ServeFault::Manager(ManagerFault::Log(fault))),
    }
}

/// The log's two files, the first one at this path.
fn open_files<'a, R: AllocGlobal + Opens>(
    rt: &R,
    path: &'a str,
) -> Result<(R::Disk, R::Disk), ServeFault<'a>>
    ensures opened { IfOk result (λ disks. AreFiles R.opened path.now disks.0 disks.1) }
    ensures failed { IfErr result (IsFileFault R.opened R.refused path.now) }
{
    let second_path = second_path(rt.alloc(), path)?;
    let first = match rt.open_disk(path, second_path.as_str()) {
        Ok(disk) => disk,
        Err(fault) => {
            let is_second = false;
            return Err(refused(LogFile { path, is_second }, fault));
        }
    };
    match rt.open_disk(second_path.as_str(), path) {
        Ok(second) => Ok((first, second)),
        Err(fault) => {
            let is_second = true;
            Err(refused(LogFile { path, is_second }, fault))
        }
    }
}

/// Why a file of the log wasn't opened.
fn refused(file: LogFile<'_>, fault: FileFault) -> ServeFault<'_>
    ensures { result ≡ file_fault file.entry fault }
{
    match fault {
        FileFault::Memory => ServeFault::Memory,
        FileFault::InUse => ServeFault::InUse,
        FileFault::Absent => ServeFault::Absent(file),
        fault => ServeFault::File { file, fault },
    }
}

/// The path of the log's second file.
fn second_path(alloc: Global, path: &str) -> Result<String, AllocError>
    ensures { IfOk result (λ second. string_bytes second ≡ second_path path.now) }
{
    format!(in alloc; "{path}.2")
}

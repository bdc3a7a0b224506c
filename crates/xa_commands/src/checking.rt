ghost use Rattle.std.specs.Prelude.{◌≡◌, IfOk, string_bytes};
ghost use Rattle.xa_commands.specs.Done.{Checked, second_path};

use crate::checking_fault::CheckingFault;
use std::alloc::{AllocError, Global};
use std::io::{self, BufWriter};
use xa_check::{CheckFault, check_run};
use xa_disk::{FileFault, Opens};

/// Prints what a log's two files are, which are opened for reading alone: whether a server opens what they have. The first
/// file is at this path.
pub fn check<'a, R: AllocGlobal + Print + Opens>(
    rt: &R,
    path: &'a str,
    log_bytes: u64,
) -> Result<bool, CheckingFault<'a>>
    ensures { Checked R.Disk.honest R.Disk.seen R.opened R.refused path.now log_bytes result }
{
    let Ok(beside) = second_path(rt.alloc(), path) else {
        return Err(CheckingFault::Check(CheckFault::Memory));
    };
    let mut first = match rt.read_disk(path) {
        Ok(disk) => disk,
        Err(FileFault::InUse) => return Err(CheckingFault::InUse),
        Err(FileFault::Memory) => return Err(CheckingFault::Check(CheckFault::Memory)),
        Err(fault) => return Err(CheckingFault::File { path, fault }),
    };
    let mut second = match rt.read_disk(beside.as_str()) {
        Ok(disk) => disk,
        Err(FileFault::InUse) => return Err(CheckingFault::InUse),
        Err(FileFault::Memory) => return Err(CheckingFault::Check(CheckFault::Memory)),
        Err(fault) => return Err(CheckingFault::SecondFile { path, fault }),
    };
    let Ok(mut writer) = BufWriter::new(rt.alloc(), io::writer(rt)) else {
        return Err(CheckingFault::Check(CheckFault::Memory));
    };
    match check_run(
        rt.alloc(),
        &mut first,
        &mut second,
        path,
        log_bytes,
        &mut writer,
    ) {
        Ok(is_whole) => Ok(is_whole),
        Err(fault) => Err(CheckingFault::Check(fault)),
    }
}

/// The path of a log's second file.
pub(crate) fn second_path(alloc: Global, path: &str) -> Result<String, AllocError>
    ensures { IfOk result (λ second. string_bytes second ≡ second_path path.now) }
{
    format!(in alloc; "{path}.2")
}

ghost use Rattle.std.specs.Prelude.{◌≡◌};
ghost use Rattle.xa_commands.specs.Done.{Scanned, scan_format};

use crate::scanning_fault::ScanningFault;
use std::io::{self, BufWriter};
use xa_disk::{FileFault, Opens};
use xa_operate::Format;
use xa_scan::{ScanFault, scan_run};

/// Prints the records of a log, which is opened for reading alone, in a format.
pub fn scan<'a, R: AllocGlobal + Print + Opens>(
    rt: &R,
    path: &'a str,
    format: Format,
) -> Result<(), ScanningFault<'a>>
    ensures { Scanned (scan_format format) R.Disk.honest R.Disk.seen R.opened R.refused path.now result }
{
    let mut disk = match rt.read_disk(path) {
        Ok(disk) => disk,
        Err(FileFault::InUse) => return Err(ScanningFault::InUse),
        Err(FileFault::Memory) => return Err(ScanningFault::Scan(ScanFault::Memory)),
        Err(fault) => return Err(ScanningFault::File { path, fault }),
    };
    let Ok(mut writer) = BufWriter::new(rt.alloc(), io::writer(rt)) else {
        return Err(ScanningFault::Scan(ScanFault::Memory));
    };
    match scan_run(rt.alloc(), &mut disk, &mut writer, scan_format(format)) {
        Ok(()) => Ok(()),
        Err(fault) => Err(ScanningFault::Scan(fault)),
    }
}

fn scan_format(format: Format) -> xa_scan::Format
    ensures { result ≡ scan_format format }
{
    match format {
        Format::Text => xa_scan::Format::Text,
        Format::Json => xa_scan::Format::Json,
    }
}

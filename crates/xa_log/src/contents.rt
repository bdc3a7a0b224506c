//! What stands in one of a log's two files, read whole: a log, or what it is instead.
ghost use Rattle.std.specs.Prelude.{◌≡◌, ◌⊎◌, ◌&&◌, List, ℕ, IfErr, IfOk};
ghost use Rattle.xa_disk.specs.{Disk.Same, Time.TimePasses};
ghost use Rattle.xa_log.specs.Believed.Chain.{logged};
ghost use Rattle.xa_log.specs.Contents.{IsContents, IsNoLog};
ghost use Rattle.xa_log.specs.Reading.{Explains, IsScan, bodies_of, fault_of};
ghost use Rattle.xa_log.specs.{Believed.Damage.is_damaged, Believed.Damage.is_snapshot, Contents.IsLogContents};

use crate::OpenFault;
use crate::damage::are_snapshot;
use crate::format::Format;
use crate::opening::new_buffer;
use crate::reading::{Scan, read_whole};
use crate::standing::{Standing, standing_of};
use crate::window::WINDOW;
use std::alloc::Global;
use xa_disk::Disk;

/// What stands in one of a log's two files.
#[derive(Debug, Drop)]
pub enum Contents {
    Log(LogContents),
    /// No byte, or what an interrupted write of a log's first bytes leaves of an empty file.
    Nothing,
    /// What is no log.
    Stray,
    /// A log of a later format.
    Later,
    /// More bytes than the log may have.
    TooLong,
}

/// The log that a file is.
#[derive(Debug, Drop)]
pub struct LogContents {
    pub format: Format,
    pub bodies: Vec<Vec<u8>>,
    /// Where the next record would begin.
    pub end: u64,
    /// Whether it shows that it was damaged there (`is_damaged`).
    pub damaged: bool,
    /// Whether that is in its snapshot, or right after it: none of its records was appended.
    pub cut: bool,
    /// The bodies that chain after a record there that doesn't.
    pub left: Vec<Vec<u8>>,
}

/// What stands in a file, whichever of a log's two it is: syncs, asks the length, and reads in pieces. Writes nothing.
pub fn read_contents<D: Disk>(
    alloc: Global,
    disk: &mut D,
    log_bytes: u64,
) -> Result<Contents, OpenFault>
    ensures value { D.honest → IfOk result (IsContents log_bytes (D.seen disk.old)) }
    ensures kinds { IfErr result (λ e. (e ≡ OpenFault.Device) ⊎ (e ≡ OpenFault.Memory)) }
    ensures same { D.honest → D.seen disk.new ≡ D.seen disk.old }
    ensures time { D.honest → TimePasses D.Disk Same disk.old disk.new }
{
    let mut buffer = new_buffer(alloc, WINDOW)?;
    match read_whole(alloc, disk, &mut buffer, log_bytes) {
        Ok((scan, damaged)) => Ok(Contents::Log(contents_of(scan, damaged))),
        Err(OpenFault::NotALog) => no_log(disk),
        Err(OpenFault::TooNew) => Ok(Contents::Later),
        Err(OpenFault::TooLong) => Ok(Contents::TooLong),
        Err(OpenFault::Memory) => Err(OpenFault::Memory),
        Err(OpenFault::Device | OpenFault::Damaged) => Err(OpenFault::Device),
    }
}

// Whether a log of these bodies is damaged before a record that was appended.
fn is_cut_short(damaged: bool, bodies: &[Vec<u8>]) -> bool
    ensures { result ≡ (damaged && is_snapshot (bodies_of bodies.now)) }
{
    damaged && are_snapshot(bodies)
}

// A log as it was read.
fn contents_of(scan: Scan, damaged: bool) -> LogContents
    ensures { (file : List ℕ) → IsScan file scan → logged file ≡ bodies_of scan.bodies.items
        → damaged ≡ is_damaged file → IsLogContents file result }
{
    let cut = is_cut_short(damaged, &scan.bodies);
    LogContents {
        format: scan.format,
        bodies: scan.bodies,
        end: scan.end,
        damaged,
        cut,
        left: scan.left,
    }
}

// What stands in a file that is no log.
fn no_log<D: Disk>(disk: &mut D) -> Result<Contents, OpenFault>
    ensures value { D.honest → IfOk result (IsNoLog (D.seen disk.old)) }
    ensures kinds { IfErr result (λ e. (e ≡ OpenFault.Device) ⊎ (e ≡ OpenFault.Memory)) }
    ensures same { D.honest → D.seen disk.new ≡ D.seen disk.old }
    ensures time { D.honest → TimePasses D.Disk Same disk.old disk.new }
{
    let len = disk.length()?;
    match standing_of(disk, len)? {
        Standing::Nothing => Ok(Contents::Nothing),
        Standing::Stray | Standing::Log | Standing::Later => Ok(Contents::Stray),
    }
}

//! Both files of a log are read, and their lines are written.
ghost use Rattle.std.specs.Prelude.{◌≡◌, IfErr, IfOk, ◌⊎◌};
ghost use Rattle.xa_check.specs.Checks.{AddsText, Checks};
ghost use Rattle.xa_check.specs.Told.{told_in};
ghost use Rattle.xa_disk.specs.{Disk.Same, Time.TimePasses};

use crate::fault::CheckFault;
use crate::fit::is_whole;
use crate::lines::check_text;
use crate::told::{Told, told_of};
use std::alloc::Global;
use std::io::Write;
use xa_disk::Disk;
use xa_log::read_contents;
use xa_output::write_text;

/// Reads a log's two files, the first one at this path, and writes a line for each: its path and what stands in it. If
/// one of them isn't a log's, a line after them says so. Returns whether a server opens what they have: whether they
/// are one log's, and neither is damaged.
///
/// All is read before anything is printed. Nothing is written to the files.
pub fn check_run<D: Disk, W: Write>(
    alloc: Global,
    first: &mut D,
    second: &mut D,
    path: &str,
    log_bytes: u64,
    writer: &mut W,
) -> Result<bool, CheckFault>
    ensures checks { Checks D.honest result path.now log_bytes (D.seen first.old) (D.seen second.old)
        (W.contents writer.old) (W.contents writer.new) }
    ensures same { D.honest → D.seen first.new ≡ D.seen first.old }
    ensures same_second { D.honest → D.seen second.new ≡ D.seen second.old }
    ensures time { D.honest → TimePasses D.Disk Same first.old first.new }
    ensures time_second { D.honest → TimePasses D.Disk Same second.old second.new }
{
    let (told, other) = tell_both(alloc, first, second, log_bytes)?;
    let text = check_text(alloc, path, &told, &other)?;
    print(writer, text.as_slice())?;
    Ok(is_whole(&told, &other))
}

/// What is told of two files.
fn tell_both<D: Disk>(
    alloc: Global,
    first: &mut D,
    second: &mut D,
    log_bytes: u64,
) -> Result<(Told, Told), CheckFault>
    ensures value { D.honest → IfOk result (λ r. r ≡ (told_in log_bytes (D.seen first.old), told_in log_bytes (D.seen second.old))) }
    ensures kinds { IfErr result (λ e. (e ≡ CheckFault.Device) ⊎ (e ≡ CheckFault.Memory)) }
    ensures same { D.honest → D.seen first.new ≡ D.seen first.old }
    ensures same_second { D.honest → D.seen second.new ≡ D.seen second.old }
    ensures time { D.honest → TimePasses D.Disk Same first.old first.new }
    ensures time_second { D.honest → TimePasses D.Disk Same second.old second.new }
{
    let told = tell(alloc, first, log_bytes)?;
    let other = tell(alloc, second, log_bytes)?;
    Ok((told, other))
}

/// What is told of a file.
fn tell<D: Disk>(alloc: Global, disk: &mut D, log_bytes: u64) -> Result<Told, CheckFault>
    ensures value { D.honest → IfOk result (λ told. told ≡ told_in log_bytes (D.seen disk.old)) }
    ensures kinds { IfErr result (λ e. (e ≡ CheckFault.Device) ⊎ (e ≡ CheckFault.Memory)) }
    ensures same { D.honest → D.seen disk.new ≡ D.seen disk.old }
    ensures time { D.honest → TimePasses D.Disk Same disk.old disk.new }
{
    let contents = read_contents(alloc, disk, log_bytes)?;
    Ok(told_of(alloc, &contents)?)
}

/// Writes a text, and what its writer has buffered.
fn print<W: Write>(writer: &mut W, text: &[u8]) -> Result<(), CheckFault>
    ensures { AddsText result text.now (W.contents writer.old) (W.contents writer.new) }
{
    if !write_text(writer, text) {
        return Err(CheckFault::Write);
    }
    match writer.flush() {
        Ok(()) => Ok(()),
        Err(_) => Err(CheckFault::Write),
    }
}

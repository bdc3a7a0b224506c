//! A log is read, and its lines are written.
ghost use Rattle.std.specs.Prelude.{◌≡◌, ◌≤◌, ◌<◌, ◌+◌, ◌^◌, IfErr, IfOk, IfSome, List, None, length, ℕ};
ghost use Rattle.xa_log.specs.Reading.{bodies_of};
ghost use Rattle.xa_scan.specs.Faults.{damage_behind, ended};
ghost use Rattle.xa_scan.specs.Lines.{behind, end_line, line_at};
ghost use Rattle.xa_limits.specs.declared.TheConstants.{FIRST_OFFSET, MOST_LOG};
ghost use Rattle.xa_scan.specs.Scans.{AddsLine, AddsLines, OnlyLooks, Scans};

use crate::fault::ScanFault;
use crate::format::Format;
use crate::lines::{body_line, last_line};
use std::alloc::Global;
use std::io::{self, Write};
use xa_disk::Disk;
use xa_limits::{AROUND_BODY, FIRST_OFFSET, MOST_LOG};
use xa_log::{OpenFault, read_log_damage};
use xa_output::write_text;

/// Reads the log that a disk is, of `MOST_LOG` bytes at most, and writes a line for each of its records, in order and in a
/// format: its offset and its text, or an object. Behind them stands the line of the log's end. A log that is damaged there is told as
/// `ScanFault::Damaged`.
///
/// The log is read before anything is printed. The disk is only looked at, by the calls of `read_log_damage`.
pub fn scan_run<D: Disk, W: Write>(
    alloc: Global,
    disk: &mut D,
    writer: &mut W,
    format: Format,
) -> Result<(), ScanFault>
    ensures scans { Scans format D.honest result (D.seen disk.old) (W.contents writer.old) (W.contents writer.new) }
    ensures looks { OnlyLooks D.Disk disk.old disk.new }
{
    let (bodies, damaged) = read_log_damage(alloc, disk, MOST_LOG)?;
    let end = end_of(bodies.as_slice())?;
    let damage = damage_behind(damaged, bodies.as_slice(), end);
    let written = write_lines(alloc, writer, format, bodies.as_slice(), end);
    let flushed = writer.flush();
    ended(written, flushed, damage)
}

/// What is told of a log that has these bodies and this end, if it is damaged.
fn damage_behind(damaged: bool, bodies: &[Vec<u8>], end: u64) -> Option<ScanFault>
    ensures { result ≡ damage_behind damaged (length bodies.now) end }
{
    if damaged {
        return Some(ScanFault::Damaged {
            number: bodies.len() + 1,
            at: end,
        });
    }
    None
}

/// The end of a printing, by how its lines ended, by what the flush after them was answered, and by the log's damage.
fn ended(
    written: Result<(), ScanFault>,
    flushed: io::Result<()>,
    damage: Option<ScanFault>,
) -> Result<(), ScanFault>
    ensures { result ≡ ended written flushed damage }
{
    written?;
    flushed.map_err(|_| ScanFault::Write)?;
    match damage {
        Some(fault) => Err(fault),
        None => Ok(()),
    }
}

/// Where the next record of a log of these bodies would begin. No log of at most `MOST_LOG` bytes has bodies whose end
/// isn't a number of 64 bits.
fn end_of(bodies: &[Vec<u8>]) -> Result<u64, OpenFault>
    ensures value { IfOk result (λ end. end ≡ behind FIRST_OFFSET (bodies_of bodies.now)) }
    ensures fault { IfErr result
        (λ fault. (fault ≡ OpenFault.TooLong) × (MOST_LOG < behind FIRST_OFFSET (bodies_of bodies.now))) }
{
    let mut offset = FIRST_OFFSET;
    let mut rest = bodies;
    while let Some((body, others)) = rest.split_first() {
        let Some(next) = next_offset(offset, body.as_slice().len()) else {
            return Err(OpenFault::TooLong);
        };
        offset = next;
        rest = others;
    }
    Ok(offset)
}

/// Where a record ends that begins at this offset and whose body has this length.
fn next_offset(offset: u64, length: usize) -> Option<u64>
    ensures value { IfSome result (λ next. next ≡ offset + (AROUND_BODY + length)) }
    ensures none { result ≡ None → 2 ^ 64 ≤ offset + (AROUND_BODY + length) }
{
    offset
        .checked_add(AROUND_BODY as u64)?
        .checked_add(length as u64)
}

/// Writes the lines of the bodies, and the line of the end.
fn write_lines<W: Write>(
    alloc: Global,
    writer: &mut W,
    format: Format,
    bodies: &[Vec<u8>],
    end: u64,
) -> Result<(), ScanFault>
    requires { end ≡ behind FIRST_OFFSET (bodies_of bodies.now) }
    ensures { AddsLines format result (bodies_of bodies.now) (W.contents writer.old) (W.contents writer.new) }
{
    let mut offset = FIRST_OFFSET;
    let mut rest = bodies;
    while let Some((body, others)) = rest.split_first() {
        let body = body.as_slice();
        write_body(alloc, writer, format, offset, body)?;
        offset += AROUND_BODY as u64 + body.len() as u64;
        rest = others;
    }
    write_end(alloc, writer, format, end)
}

/// Writes the line of a body's record.
fn write_body<W: Write>(
    alloc: Global,
    writer: &mut W,
    format: Format,
    offset: u64,
    body: &[u8],
) -> Result<(), ScanFault>
    ensures { AddsLine result (line_at format offset body.now) (W.contents writer.old) (W.contents writer.new) }
{
    let line = body_line(alloc, format, offset, body)?;
    write_line(writer, line.as_slice())
}

/// Writes the line of the end.
fn write_end<W: Write>(
    alloc: Global,
    writer: &mut W,
    format: Format,
    offset: u64,
) -> Result<(), ScanFault>
    ensures { AddsLine result (end_line format offset) (W.contents writer.old) (W.contents writer.new) }
{
    let line = last_line(alloc, format, offset)?;
    write_line(writer, line.as_slice())
}

fn write_line<W: Write>(writer: &mut W, line: &[u8]) -> Result<(), ScanFault>
    ensures { AddsLine result line.now (W.contents writer.old) (W.contents writer.new) }
{
    if write_text(writer, line) {
        Ok(())
    } else {
        Err(ScanFault::Write)
    }
}

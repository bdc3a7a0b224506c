//! What is told of one of a log's two files.
ghost use Rattle.std.specs.Prelude.{◌≡◌, IfOk, length};
ghost use Rattle.xa_check.specs.Told.{break_of, log_told, told_of};
ghost use Rattle.xa_log.specs.Reading.{bodies_of};

use crate::prepared::prepared_in;
use std::alloc::{AllocError, Global};
use xa_log::{Contents, Format, LogContents, generation_of_bodies};

/// A file of a log, as it is told.
#[derive(Clone, Copy, Debug, PartialEq, Eq)]
pub enum Told {
    Log(LogTold),
    Nothing,
    Stray,
    Later,
    TooLong,
}

/// The log that a file is, as it is told.
#[derive(Clone, Copy, Debug, PartialEq, Eq)]
pub struct LogTold {
    pub format: Format,
    pub generation: usize,
    pub records: usize,
    pub end: u64,
    pub damage: Option<Break>,
}

/// Where a log breaks off: before a record, by its number from 1 and the byte at which it begins. `behind` records
/// chain after it, and `prepared` branches are prepared in them.
#[derive(Clone, Copy, Debug, PartialEq, Eq)]
pub struct Break {
    pub number: usize,
    pub at: u64,
    pub behind: usize,
    pub prepared: usize,
}

/// What is told of a file.
pub(crate) fn told_of(alloc: Global, contents: &Contents) -> Result<Told, AllocError>
    ensures { IfOk result (λ told. told ≡ told_of contents.now) }
{
    match contents {
        Contents::Log(log) => Ok(Told::Log(log_told(alloc, log)?)),
        Contents::Nothing => Ok(Told::Nothing),
        Contents::Stray => Ok(Told::Stray),
        Contents::Later => Ok(Told::Later),
        Contents::TooLong => Ok(Told::TooLong),
    }
}

fn log_told(alloc: Global, log: &LogContents) -> Result<LogTold, AllocError>
    ensures { IfOk result (λ told. told ≡ log_told log.now.format (bodies_of log.now.bodies.items) log.now.end
        log.now.damaged (bodies_of log.now.left.items)) }
{
    let bodies = log.bodies.as_slice();
    let number = bodies.len() + 1;
    let damage = break_of(alloc, log.damaged, number, log.end, log.left.as_slice())?;
    Ok(LogTold {
        format: log.format,
        generation: generation_of_bodies(bodies),
        records: bodies.len(),
        end: log.end,
        damage,
    })
}

/// Where a log that is damaged breaks off, with these bodies after it.
fn break_of(
    alloc: Global,
    damaged: bool,
    number: usize,
    at: u64,
    left: &[Vec<u8>],
) -> Result<Option<Break>, AllocError>
    ensures { IfOk result (λ damage. damage ≡ break_of damaged number at (bodies_of left.now)) }
{
    if !damaged {
        return Ok(None);
    }
    let prepared = prepared_in(alloc, left)?;
    Ok(Some(Break {
        number,
        at,
        behind: left.len(),
        prepared,
    }))
}

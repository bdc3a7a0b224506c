ghost use Rattle.std.specs.Prelude.{◌≡◌, List, ℕ, ◌∷◌, ◌++◌, [], length};
ghost use Rattle.xa_record.specs.{Limits.IsRecord, Spelling.spelled};
ghost use Rattle.xa_recovery.specs.Log.{HasComeTo, BodyTaken, LogRebuilt};
ghost use Rattle.xa_recovery.specs.Snapshots.{bytes_of};

use crate::durable::Durable;
use crate::fault::AddFault;
use crate::log_fault::LogFault;
use crate::rebuilding::Rebuilding;
use std::alloc::Global;
use xa_record::{Record, RecordFault, read};

/// What bodies that are records' have come to.
#[derive(Drop)]
pub enum Progress {
    /// Their records are in order.
    InOrder(Rebuilding),
    /// The record with this index is the first out of order. What else comes is still looked at: a body that is
    /// malformed goes before it.
    OutOfOrder(usize),
}

/// Reads one more record, the one with this index.
fn add_record(progress: Progress, index: usize, record: Record) -> Result<Progress, LogFault>
    requires { IsRecord «record» }
    ensures { (before : List (List ℕ)) → length before ≡ index → HasComeTo progress before
        → BodyTaken (before ++ spelled «record» ∷ []) result }
{
    match progress {
        Progress::InOrder(rebuilding) => match rebuilding.add(record) {
            Ok(more) => Ok(Progress::InOrder(more)),
            Err(AddFault::Order) => Ok(Progress::OutOfOrder(index)),
            Err(AddFault::Memory) => Err(LogFault::Memory),
        },
        Progress::OutOfOrder(first) => Ok(Progress::OutOfOrder(first)),
    }
}

/// Reads one more body, the one with this index.
fn add_body(
    alloc: Global,
    progress: Progress,
    index: usize,
    body: &[u8],
) -> Result<Progress, LogFault>
    ensures { (before : List (List ℕ)) → length before ≡ index → HasComeTo progress before
        → BodyTaken (before ++ body.now ∷ []) result }
{
    match read(alloc, body) {
        Ok(record) => add_record(progress, index, record),
        Err(RecordFault::Malformed) => Err(LogFault::Malformed(index)),
        Err(RecordFault::Memory) => Err(LogFault::Memory),
    }
}

/// What the bodies of a log come to. Each is read once and then freed, so that what they come to takes their place in
/// memory. All are read before an order is refused, so that a malformed body anywhere goes before a record out of order
/// anywhere.
///
/// # Errors
/// The index of the first body that is no record's; if each is one's, that of the first record out of order; or lack
/// of memory.
pub fn rebuild_log(alloc: Global, bodies: Vec<Vec<u8>>) -> Result<Durable, LogFault>
    ensures { LogRebuilt (bytes_of bodies.items) result }
{
    let mut progress = Progress::InOrder(Rebuilding::new(alloc));
    let mut index = 0;
    for body in bodies {
        match add_body(alloc, progress, index, &body) {
            Ok(more) => progress = more,
            Err(fault) => return Err(fault),
        }
        index += 1;
    }
    match progress {
        Progress::InOrder(rebuilding) => Ok(rebuilding.done()?),
        Progress::OutOfOrder(first) => Err(LogFault::Order(first)),
    }
}

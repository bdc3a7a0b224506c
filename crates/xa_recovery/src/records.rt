ghost use Rattle.std.specs.Prelude.{◌≡◌, List, ◌<◌, length, slice_index_or};
ghost use Rattle.xa_record.specs.declared.record.Record.{Record};
ghost use Rattle.xa_recovery.specs.Rebuilding.{HasRead, TakenAt, Rebuilt};

use crate::copies::record_copied;
use crate::durable::Durable;
use crate::fault::{AddFault, RebuildFault};
use crate::rebuilding::Rebuilding;
use std::alloc::Global;
use xa_record::Record;

/// Reads one more record, the one with this index.
fn add_at(
    alloc: Global,
    rebuilding: Rebuilding,
    index: usize,
    said: &Record,
) -> Result<Rebuilding, RebuildFault>
    ensures { (rs : List Record) → HasRead rebuilding rs → TakenAt index rs said.now result }
{
    match rebuilding.add(record_copied(alloc, said)?) {
        Ok(more) => Ok(more),
        Err(AddFault::Order) => Err(RebuildFault::Order(index)),
        Err(AddFault::Memory) => Err(RebuildFault::Memory),
    }
}

/// What the records of a log come to.
///
/// # Errors
/// The index of the first that is out of order, or lack of memory.
pub fn rebuild(alloc: Global, records: &[Record]) -> Result<Durable, RebuildFault>
    ensures { Rebuilt records.now result }
{
    let mut rebuilding = Rebuilding::new(alloc);
    for index in 0..records.len() {
        match add_at(alloc, rebuilding, index, &records[index]) {
            Ok(more) => rebuilding = more,
            Err(fault) => return Err(fault),
        }
    }
    Ok(rebuilding.done()?)
}

ghost use Rattle.std.specs.Prelude.{◌<◌, length, IfSome, IfNone};
ghost use Rattle.mv_ranges.specs.Notes.{IsDrained};

use std::alloc::{AllocError, Global};
use std::collections::BTreeMap;

/// Notes a boundary of a range that the reader has walked.
pub(crate) fn note(
    alloc: Global,
    notes: &mut BTreeMap<u64, Vec<Vec<u8>>>,
    reader: u64,
    boundary: Vec<u8>,
) -> Result<(), AllocError> {
    if let Some(noted) = notes.get_mut(&reader) {
        noted.push(boundary)?;
        return Ok(());
    }
    let mut noted = Vec::new(alloc);
    noted.push(boundary)?;
    notes.insert(reader, noted)?;
    Ok(())
}

/// Takes out what is noted of the least reader, if the low water has passed it.
pub(crate) fn next_due(notes: &mut BTreeMap<u64, Vec<Vec<u8>>>, low: u64) -> Option<Vec<Vec<u8>>>
    ensures fewer { IfSome result (λ _. length notes.new.entries < length notes.old.entries) }
    ensures drained { IfNone result (IsDrained low notes.new) }
{
    let is_due = match notes.first_key_value() {
        Some((reader, _)) => *reader <= low,
        None => false,
    };
    if !is_due {
        return None;
    }
    match notes.pop_first() {
        Some((_, noted)) => Some(noted),
        None => None,
    }
}

ghost use Rattle.std.specs.Prelude.{◌≡◌, filter, not, IfOk, OnOk};
ghost use Rattle.std.specs.BTreeMap.{insert_entry};
ghost use Rattle.std.specs.Ordering.{nat_cmp};
ghost use Rattle.xa_model.specs.Durable.{Pairwise, commits_before, last_writes};
ghost use Rattle.xa_recovery.specs.{Durable.committed_of, Last.Notes, Last.has_key};

use std::alloc::{AllocError, Global};
use std::collections::{BTreeMap, BTreeSet};
use xa_codes::{Bytes, Write};
use xa_record::Writes;

/// The writes of keys that aren't in the set. They stay where they are.
fn unwritten(written: &BTreeSet<Bytes>, writes: Writes) -> Writes
    ensures { result ≡ filter (λ w. not (has_key written.now w.key)) writes }
{
    let mut kept = writes.into_vec();
    kept.retain(|write| !written.contains(&write.key));
    kept.shrink_to_fit();
    Writes::new(kept)
}

/// Adds the keys of writes to the set.
fn note(alloc: Global, written: &mut BTreeSet<Bytes>, writes: &[Write]) -> Result<(), AllocError>
    ensures { OnOk result (Notes written.old writes.now written.new) }
{
    for write in writes {
        written.insert(write.key.copied(alloc)?)?;
    }
    Ok(())
}

fn keep(last: &mut BTreeMap<u64, Writes>, timestamp: u64, writes: Writes) -> Result<(), AllocError>
    ensures { OnOk result (last.new.entries ≡ insert_entry nat_cmp last.old.entries timestamp writes) }
{
    last.insert(timestamp, writes)?;
    Ok(())
}

/// How many keys at least are noted twice, if there are that many.
const FIRST: usize = 1_024;

/// Notes the first keys once more. An allocator keeps a few blocks of each size for itself, of those that are freed first:
/// if these are freed before the others, it is blocks that lie before them.
fn note_first(
    alloc: Global,
    first: &mut BTreeSet<Bytes>,
    writes: &[Write],
) -> Result<(), AllocError> {
    if first.len() < FIRST {
        note(alloc, first, writes)?;
    }
    Ok(())
}

/// How many bytes a block has at which an allocator looks for memory that it can give back to the system.
const BLOCK: usize = 98_304;

/// Frees a block, after many small ones: at those, an allocator gives nothing back.
fn give_back(alloc: Global) {
    let _block: Result<Vec<u8>, AllocError> = Vec::with_capacity(alloc, BLOCK);
}

/// Of branches by timestamp, the writes that are the last of their keys.
pub(crate) fn last_writes(
    alloc: Global,
    mut all: BTreeMap<u64, Writes>,
) -> Result<BTreeMap<u64, Writes>, AllocError>
    ensures { Pairwise commits_before (committed_of all)
        → IfOk result (λ m. committed_of m ≡ last_writes (committed_of all)) }
{
    let mut first = BTreeSet::new(alloc);
    let mut written = BTreeSet::new(alloc);
    let mut last = BTreeMap::new(alloc);
    while let Some((timestamp, writes)) = all.pop_last() {
        let kept = unwritten(&written, writes);
        if !kept.as_slice().is_empty() {
            note_first(alloc, &mut first, kept.as_slice())?;
            note(alloc, &mut written, kept.as_slice())?;
            keep(&mut last, timestamp, kept)?;
        }
    }
    drop(first);
    drop(written);
    give_back(alloc);
    Ok(last)
}

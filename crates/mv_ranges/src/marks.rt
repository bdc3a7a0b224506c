ghost use Rattle.std.specs.Prelude.{◌≡◌, map, not, option_map, IfOk, OnOk};
ghost use Rattle.mv_ranges.specs.Ranges.{holds_but, is_one};
ghost use Rattle.mv_ranges.specs.Marks.{mark_in, mark_below, SameMarks, SameAbove};
ghost use Rattle.mv_ranges.specs.Marks.{IsAscending, IsBoundary, IsForward, KeepsBoundaries};
ghost use Rattle.mv_ranges.specs.Marks.{after, lower_keys, raised_at, raised_each};

use std::alloc::{AllocError, Global};
use std::collections::BTreeMap;
use std::collections::btree_map::Range;

/// The mark of the last boundary that isn't above the key.
pub(crate) fn over(marks: &BTreeMap<Vec<u8>, u64>, key: &Vec<u8>) -> u64
    ensures mark { result ≡ mark_in key.now.items marks.now }
    ensures ascending { IsAscending marks.now }
{
    match marks.range(..=key).next_back() {
        Some((_, mark)) => *mark,
        None => 0,
    }
}

/// The mark of the last boundary below the key.
pub(crate) fn below(marks: &BTreeMap<Vec<u8>, u64>, key: &Vec<u8>) -> u64
    ensures mark { result ≡ mark_below key.now.items marks.now }
    ensures ascending { IsAscending marks.now }
{
    match marks.range(..key).next_back() {
        Some((_, mark)) => *mark,
        None => 0,
    }
}

/// A copy of a key.
pub(crate) fn copied(alloc: Global, key: &[u8]) -> Result<Vec<u8>, AllocError>
    ensures { IfOk result (λ v. v.items ≡ key.now) }
{
    let mut bytes = Vec::with_capacity(alloc, key.len())?;
    bytes.extend_from_slice(key)?;
    Ok(bytes)
}

/// The key that comes right after this one.
pub(crate) fn after(alloc: Global, key: &Vec<u8>) -> Result<Vec<u8>, AllocError>
    ensures { IfOk result (λ v. v.items ≡ after key.now.items) }
{
    let mut bytes = Vec::with_capacity(alloc, key.len().saturating_add(1))?;
    bytes.extend_from_slice(key)?;
    bytes.push(0)?;
    Ok(bytes)
}

/// Makes the key a boundary, with the mark that stands over it already.
pub(crate) fn split(
    alloc: Global,
    marks: &mut BTreeMap<Vec<u8>, u64>,
    key: &Vec<u8>,
) -> Result<(), AllocError>
    ensures same { SameMarks marks.old marks.new }
    ensures kept { KeepsBoundaries marks.old marks.new }
    ensures ascending { IsAscending marks.old → IsAscending marks.new }
    ensures there { OnOk result (IsBoundary key.now.items marks.new) }
{
    if marks.contains_key(key) {
        return Ok(());
    }
    let copy = copied(alloc, key)?;
    let mark = over(marks, key);
    marks.insert(copy, mark)?;
    Ok(())
}

/// Whether the key is one of these.
fn is_one(key: &Vec<u8>, keys: &[Vec<u8>]) -> bool
    ensures { result ≡ is_one key.now.items (map (λ k. k.items) keys.now) }
{
    for one in keys {
        if one == key {
            return true;
        }
    }
    false
}

/// Copies of the boundaries whose mark is below the reader, but for these keys.
fn copies(
    alloc: Global,
    boundaries: Range<'_, Vec<u8>, u64>,
    but: &[Vec<u8>],
    reader: u64,
) -> Result<Vec<Vec<u8>>, AllocError>
    ensures { IfOk result (λ v. map (λ k. k.items) v.items
        ≡ lower_keys (λ k. not (is_one k (map (λ x. x.items) but.now))) reader boundaries.entry) }
{
    let mut keys = Vec::new(alloc);
    for (key, mark) in boundaries {
        if !is_one(key, but) && *mark < reader {
            keys.push(copied(alloc, key)?)?;
        }
    }
    Ok(keys)
}

/// Copies of the boundaries of the range, but for these keys, whose mark is below the reader: a map can't be written while
/// it is walked.
pub(crate) fn lower(
    alloc: Global,
    marks: &BTreeMap<Vec<u8>, u64>,
    from: &Vec<u8>,
    to: Option<&Vec<u8>>,
    but: &[Vec<u8>],
    reader: u64,
) -> Result<Vec<Vec<u8>>, AllocError>
    requires { IsForward from.now.items (option_map (λ t. t.now.items) to) }
    ensures { IfOk result (λ v. map (λ k. k.items) v.items ≡ lower_keys
        (holds_but (record { from = from.now.items; to = option_map (λ t. t.now.items) to.entry })
        (map (λ k. k.items) but.now)) reader marks.now.entries) }
{
    match to {
        Some(to) => copies(alloc, marks.range(from..to), but, reader),
        None => copies(alloc, marks.range(from..), but, reader),
    }
}

/// Raises the mark of a boundary to at least the reader.
fn raise_one(marks: &mut BTreeMap<Vec<u8>, u64>, key: &Vec<u8>, reader: u64)
    ensures { marks.new.entries ≡ map (raised_at reader key.now.items) marks.old.entries }
{
    if let Some(mark) = marks.get_mut(key) {
        *mark = (*mark).max(reader);
    }
}

/// Raises the marks of these boundaries to at least the reader. Takes no memory.
pub(crate) fn raise(marks: &mut BTreeMap<Vec<u8>, u64>, keys: &[Vec<u8>], reader: u64)
    ensures { marks.new.entries ≡ raised_each reader keys.now marks.old.entries }
{
    for key in keys {
        raise_one(marks, key, reader);
    }
}

/// Drops the boundary, if above the low water the marks at its two sides are the same. Takes no memory.
pub(crate) fn join(marks: &mut BTreeMap<Vec<u8>, u64>, key: &Vec<u8>, low: u64)
    ensures { SameAbove low marks.old marks.new }
{
    let Some(mark) = marks.get(key) else {
        return;
    };
    let mark = *mark;
    let before = below(marks, key);
    if mark == before || (mark <= low && before <= low) {
        marks.remove(key);
    }
}

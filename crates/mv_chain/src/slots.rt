ghost use Rattle.std.specs.Prelude.{◌≡◌, ℕ, ◌≤◌, ◌<◌, false, Some, None, length, slice_index_or};
ghost use Rattle.std.specs.Prelude.{OnOk, OnErr, option_map};
ghost use Rattle.std.specs.List.{remove};
ghost use Rattle.slab.specs.Slab.{Updates, SameValues};
ghost use Rattle.mv_chain.specs.{declared.version.Version.Version, Chain.raised, Idle.is_unused};
ghost use Rattle.mv_chain.specs.Pool.{at, version_at, ChangesAt};
ghost use Rattle.mv_chain.specs.Slots.{IsPutIn};

use crate::pool::Pool;
use crate::version::{ValueBytes, Version};
use smallvec::SmallVec;
use std::alloc::AllocError;

/// The slots of a chain. Two are in the chain itself: most keys have one version, and another one while a branch that
/// writes them is undecided.
pub(crate) type Slots = SmallVec<usize, 2>;

/// The timestamp of the version at a slot.
pub(crate) fn timestamp_at(pool: &Pool, slot: usize) -> u64
    ensures { result ≡ (version_at pool.now slot).timestamp }
{
    match pool.slab.get(slot) {
        Some(version) => version.timestamp,
        None => 0,
    }
}

/// Whether the version at a slot is pending.
pub(crate) fn pending_at(pool: &Pool, slot: usize) -> bool
    ensures { result ≡ (version_at pool.now slot).pending }
{
    match pool.slab.get(slot) {
        Some(version) => version.pending,
        None => false,
    }
}

/// The mark of the version at a slot.
pub(crate) fn mark_at(pool: &Pool, slot: usize) -> u64
    ensures { result ≡ (version_at pool.now slot).mark }
{
    match pool.slab.get(slot) {
        Some(version) => version.mark,
        None => 0,
    }
}

/// Whether the version at a slot is the base, and was read at most at `low`.
pub(crate) fn is_idle_at(pool: &Pool, slot: usize, low: u64) -> bool
    ensures { result ≡ is_unused low (version_at pool.now slot) }
{
    match pool.slab.get(slot) {
        Some(version) => {
            version.timestamp == 0
                && version.value.is_absent()
                && !version.pending
                && version.mark <= low
        }
        None => true,
    }
}

/// The value of the version at a slot.
pub(crate) fn value_at(pool: &Pool, slot: usize) -> Option<&[u8]>
    ensures { option_map (λ v. v.now) result ≡ (version_at pool.now slot).value }
{
    match pool.slab.get(slot) {
        Some(version) => version.value.as_slice(),
        None => None,
    }
}

/// Raises the mark of a version, if it has the timestamp `from` and a read at `reader` may see it.
pub(crate) fn raise(pool: &mut Pool, slot: usize, from: u64, reader: u64)
    ensures { ChangesAt (raised from reader) slot pool.old pool.new }
{
    if let Some(version) = pool.slab.get_mut(slot) {
        if version.timestamp == from && (!version.pending || from == reader) {
            version.mark = version.mark.max(reader);
        }
    }
}

/// Replaces the value of a version.
pub(crate) fn replace(pool: &mut Pool, slot: usize, value: ValueBytes)
    ensures { ChangesAt (λ (v : Version). record v { value = value }) slot pool.old pool.new }
{
    if let Some(version) = pool.slab.get_mut(slot) {
        version.value = value;
    }
}

/// A version is no longer pending.
pub(crate) fn commit(pool: &mut Pool, slot: usize)
    ensures { ChangesAt (λ (v : Version). record v { pending = false }) slot pool.old pool.new }
{
    if let Some(version) = pool.slab.get_mut(slot) {
        version.pending = false;
    }
}

/// Puts a version in at an index of the chain.
pub(crate) fn put_in(
    pool: &mut Pool,
    slots: &mut Slots,
    i: usize,
    version: Version,
) -> Result<(), AllocError>
    requires { i ≤ length slots.old.items }
    ensures ok { OnOk result (IsPutIn i version pool.old slots.old.items pool.new slots.new.items) }
    ensures same { OnErr result (SameValues pool.old.slab pool.new.slab) }
    ensures err { OnErr result (slots.new.items ≡ slots.old.items) }
{
    slots.reserve(1)?;
    let slot = pool.slab.insert(version)?;
    slots.insert(i, slot)?;
    Ok(())
}

/// Takes the version at a place of the chain out, and gives its memory back to the pool.
pub(crate) fn take_out(pool: &mut Pool, slots: &mut Slots, i: usize)
    requires { i < length slots.old.items }
    ensures slots { slots.new.items ≡ remove slots.old.items i }
    ensures updates { (d : ℕ) → Updates pool.old.slab pool.new.slab (slice_index_or slots.old.items i d) None }
{
    let slot = slots.remove(i);
    pool.slab.try_remove(slot);
}

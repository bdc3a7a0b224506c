ghost use Rattle.std.specs.Prelude.{◌≡◌, ℕ, List, map, IfOk, option_map};
ghost use Rattle.std.specs.BTreeMap.{get, IsOrdered};
ghost use Rattle.std.specs.Cmp.Lexicographic.{slice_cmp};
ghost use Rattle.std.specs.Ordering.{nat_cmp};
ghost use Rattle.mv_chain.specs.{Chain.shows, Within.IsShort, Within.IsWithin};
ghost use Rattle.mv_rules.specs.{Collected.as_write, Collected.collected, Held.versions_at, Held.IsHeld};
ghost use Rattle.mv_rules.specs.Within.{AreShort, AreKeys, HaveKeys};
ghost use Rattle.xa_limits.specs.declared.TheConstants.{MOST_WRITES};

use crate::own::Own;
use mv_chain::{Chain, Pool};
use slab::Slab;
use std::alloc::{AllocError, Global};
use std::collections::BTreeMap;
use xa_codes::{Bytes, Write};

/// The bytes of a value.
pub(crate) fn taken(value: Option<Bytes>) -> Option<Vec<u8>>
    ensures { option_map (λ b. b.items) result ≡ value }
{
    match value {
        Some(bytes) => Some(bytes.into_vec()),
        None => None,
    }
}

/// What a read at `ts` sees in the chain at this index.
fn value_at(
    alloc: Global,
    pool: &Pool,
    chains: &Slab<Chain>,
    index: usize,
    ts: u64,
) -> Result<Option<Bytes>, AllocError>
    ensures value { IfOk result (λ v. IsHeld pool.now chains.now
        → v ≡ (shows ts (versions_at index pool.now chains.now)).value) }
    ensures short { IfOk result (λ v. (n : ℕ) → IsWithin n pool.now → IsShort n v) }
{
    let Some(chain) = chains.get(index) else {
        return Ok(None);
    };
    match chain.value(pool, ts) {
        Some(value) => Ok(Some(Bytes::from_slice(alloc, value)?)),
        None => Ok(None),
    }
}

/// The branch's keys, each with the value that the branch sees there.
pub(crate) fn collect(
    alloc: Global,
    pool: &Pool,
    chains: &Slab<Chain>,
    own: &[Own],
    ts: u64,
) -> Result<BTreeMap<Bytes, Option<Bytes>>, AllocError>
    ensures values { IfOk result (λ m. IsHeld pool.now chains.now → (key : List ℕ)
        → get (slice_cmp nat_cmp) m key ≡ collected ts pool.now chains.now key own.now) }
    ensures ordered { IfOk result (λ m. IsOrdered (slice_cmp nat_cmp) m) }
    ensures short { IfOk result (λ m. (n : ℕ) → IsWithin n pool.now → AreShort n (map as_write m.entries)) }
    ensures keys { IfOk result (λ m. AreKeys MOST_WRITES own.now → HaveKeys (map as_write m.entries)) }
{
    let mut values = BTreeMap::new(alloc);
    for written in own {
        let key = written.key.to_bytes(alloc)?;
        let value = value_at(alloc, pool, chains, written.index, ts)?;
        values.insert(key, value)?;
    }
    Ok(values)
}

/// The keys with their values as a list of writes.
pub(crate) fn listed(
    alloc: Global,
    values: BTreeMap<Bytes, Option<Bytes>>,
) -> Result<Vec<Write>, AllocError>
    ensures { IfOk result (λ v. v.items ≡ map as_write values.entries) }
{
    let mut writes = Vec::new(alloc);
    for (key, value) in values {
        writes.push(Write { key, value })?;
    }
    Ok(writes)
}

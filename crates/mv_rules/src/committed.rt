ghost use Rattle.std.specs.Prelude.{◌≡◌, IfOk, OnOk, option_map};
ghost use Rattle.mv_rules.specs.Committed.{AddsCommitted, AddsKey};

use crate::records::Records;
use mv_chain::{Chain, Pool};
use slab::Slab;
use std::alloc::{AllocError, Global};
use std::collections::BTreeMap;
use xa_codes::{Bytes, Write};

/// Adds a write after the others of its timestamp.
fn add_committed(
    alloc: Global,
    committed: &mut BTreeMap<u64, Vec<Write>>,
    timestamp: u64,
    write: Write,
) -> Result<(), AllocError>
    ensures { OnOk result (AddsCommitted timestamp write committed.old committed.new) }
{
    if let Some(writes) = committed.get_mut(&timestamp) {
        writes.push(write)?;
        return Ok(());
    }
    let mut writes = Vec::new(alloc);
    writes.push(write)?;
    committed.insert(timestamp, writes)?;
    Ok(())
}

/// A write of the key, with copies of both.
fn copied(alloc: Global, key: &[u8], value: Option<&[u8]>) -> Result<Write, AllocError>
    ensures key { IfOk result (λ w. w.key ≡ key.now) }
    ensures value { IfOk result (λ w. w.value ≡ option_map (λ v. v.now) value.entry) }
{
    let key = Bytes::from_slice(alloc, key)?;
    let value = match value {
        Some(bytes) => Some(Bytes::from_slice(alloc, bytes)?),
        None => None,
    };
    Ok(Write { key, value })
}

/// Adds what is last committed of the key whose chain stands at this index.
fn add_key(
    alloc: Global,
    pool: &Pool,
    chains: &Slab<Chain>,
    key: &[u8],
    index: usize,
    committed: &mut BTreeMap<u64, Vec<Write>>,
) -> Result<(), AllocError>
    ensures { OnOk result (AddsKey key.now index pool.now chains.now committed.old committed.new) }
{
    let Some(chain) = chains.get(index) else {
        return Ok(());
    };
    let Some((timestamp, value)) = chain.last_committed(pool) else {
        return Ok(());
    };
    let write = copied(alloc, key, value)?;
    add_committed(alloc, committed, timestamp, write)
}

/// What has committed.
impl Records {
    ghost use Rattle.mv_rules.specs.{Calls.IfStood, Committed.branches_in, Committed.AreCommitted};

    /// The last committed write of each key, by timestamp, those of one timestamp ascending by key: what a checkpoint
    /// writes of committed branches. It visits each key once.
    ///
    /// # Errors
    /// Out of memory.
    pub fn committed(&self) -> Result<BTreeMap<u64, Vec<Write>>, AllocError>
        ensures { IfOk result (λ m. IfStood self.now (λ h. AreCommitted h (branches_in m.entries))) }
    {
        let mut committed = BTreeMap::new(self.alloc);
        for (key, index) in &self.indices {
            let key = key.as_slice();
            add_key(
                self.alloc,
                &self.pool,
                &self.chains,
                key,
                *index,
                &mut committed,
            )?;
        }
        Ok(committed)
    }
}

ghost use Rattle.std.specs.Prelude.{◌≡◌, ◌≢◌, ℕ, [], ◌∷◌, ◌++◌, false, true, OnOk, OnErr};
ghost use Rattle.mv_chain.specs.Calls.{sees, IfLooked, Leaves, LeavesLooked};
ghost use Rattle.mv_chain.specs.Chain.{marked_at, installed};
ghost use Rattle.mv_chain.specs.Pool.{versions_of, IsKept, LeavesOthers};
ghost use Rattle.mv_chain.specs.Within.{IsShort, IsWithin, KeepsWithin};
ghost use Rattle.mv_rules.specs.{Accesses.answer_of, Held.IsHeld, Noted.AddsWritten, Noted.NotesRead};
ghost use Rattle.mv_rules.specs.Own.{own_in, OwnStays, OwnBecomes};
ghost use Rattle.mv_rules.specs.Steps.{IsRead, IsWritten, SettlesListed};
ghost use Rattle.mv_rules.specs.{Tidy.has_read, Within.IsShortAnswer};

use crate::answers::Got;
use crate::own::{Notes, Own, note, note_read, unnote};
use crate::own_key::OwnKey;
use mv_chain::{Chain, Fate, Look, Pool, ValueBytes};
use slab::Slab;
use std::alloc::{AllocError, Global};
use std::collections::BTreeMap;
use xa_codes::Bytes;

/// Notes a read of a key that nobody has written, so that its chain is forgotten once the low water has passed the
/// read. One that no later read follows is enough.
fn note_unwritten(
    alloc: Global,
    pool: &Pool,
    chain: &Chain,
    notes: &mut BTreeMap<u64, Notes>,
    ts: u64,
    key: &[u8],
) -> Result<(), AllocError>
    ensures same { OwnStays notes.old notes.new }
    ensures noted { OnOk result (NotesRead ts key.now (versions_of pool.now chain.now) notes.old notes.new) }
{
    if !chain.is_idle(pool, ts.saturating_sub(1)) {
        return Ok(());
    }
    let own = Own {
        key: OwnKey::from_slice(alloc, key)?,
        index: 0,
    };
    note_read(alloc, notes, ts, own)
}

/// Reads a chain, and notes the read there.
pub(crate) fn read(
    alloc: Global,
    pool: &mut Pool,
    chain: &mut Chain,
    notes: &mut BTreeMap<u64, Notes>,
    ts: u64,
    key: &[u8],
) -> Got
    ensures answer { IsKept pool.old chain.old → result ≢ Got.Memory
        → result ≡ answer_of ts (sees ts pool.old chain.old) }
    ensures stands { IsKept pool.old chain.old
        → IsRead result ts (versions_of pool.old chain.old) (versions_of pool.new chain.new) }
    ensures same { has_read result ≡ false → versions_of pool.new chain.new ≡ versions_of pool.old chain.old }
    ensures kept { IsKept pool.old chain.old → IsKept pool.new chain.new }
    ensures others { LeavesOthers pool.old chain.old pool.new chain.new }
    ensures versions { has_read result ≡ true → Leaves (marked_at ts) pool.old chain.old pool.new chain.new }
    ensures notes { OwnStays notes.old notes.new }
    ensures noted { has_read result ≡ true → NotesRead ts key.now (versions_of pool.old chain.old) notes.old notes.new }
    ensures short { (n : ℕ) → IsWithin n pool.old → IsShortAnswer n result }
    ensures within { KeepsWithin pool.old pool.new }
{
    let look = chain.look(pool, ts);
    if look.pending && look.from != ts {
        return Got::Busy(look.from);
    }
    let got = match chain.value_at(pool, &look) {
        None => Got::Absent,
        Some(value) => match Bytes::from_slice(alloc, value) {
            Ok(bytes) => Got::Value(bytes),
            Err(_) => return Got::Memory,
        },
    };
    if note_unwritten(alloc, pool, chain, notes, ts, key).is_err() {
        return Got::Memory;
    }
    chain.mark_at(pool, &look);
    got
}

/// Installs the branch's first write of a key, and notes the key.
pub(crate) fn add(
    alloc: Global,
    pool: &mut Pool,
    chain: &mut Chain,
    notes: &mut BTreeMap<u64, Notes>,
    look: &Look,
    own: Own,
    value: ValueBytes,
) -> Result<(), AllocError>
    ensures ok { OnOk result (IfLooked look.now pool.old chain.old
        (λ ts. IsWritten ts value (versions_of pool.old chain.old) (versions_of pool.new chain.new))) }
    ensures versions { OnOk result
        (LeavesLooked (λ ts. installed ts value) look.now pool.old chain.old pool.new chain.new) }
    ensures lists { OnOk result (AddsWritten look.now.at own notes.old notes.new) }
    ensures noted { OnOk result
        (OwnBecomes look.now.at (own_in look.now.at notes.old ++ own ∷ []) notes.old notes.new) }
    ensures err { OnErr result (Leaves (λ versions. versions) pool.old chain.old pool.new chain.new) }
    ensures unnoted { OnErr result (OwnStays notes.old notes.new) }
    ensures kept { IfLooked look.now pool.old chain.old (λ ts. IsKept pool.new chain.new) }
    ensures others { LeavesOthers pool.old chain.old pool.new chain.new }
    ensures within { (n : ℕ) → IsWithin n pool.old → IsShort n value → IsWithin n pool.new }
{
    note(alloc, notes, look.at, own)?;
    match chain.install_at(pool, look, value) {
        Ok(()) => Ok(()),
        Err(refused) => {
            unnote(notes, look.at);
            Err(refused)
        }
    }
}

/// Settles the branch's version in each of the chains that it has written.
pub(crate) fn settle_all(
    pool: &mut Pool,
    chains: &mut Slab<Chain>,
    own: &[Own],
    ts: u64,
    fate: Fate,
)
    ensures settled { IsHeld pool.old chains.old
        → SettlesListed ts fate own.now pool.old chains.old pool.new chains.new }
    ensures within { KeepsWithin pool.old pool.new }
{
    for written in own {
        if let Some(chain) = chains.get_mut(written.index) {
            chain.settle(pool, ts, fate);
        }
    }
}

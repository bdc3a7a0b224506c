ghost use Rattle.std.specs.Prelude.{◌≡◌, ◌≢◌, ℕ, ◌≤◌, max, List, [], Some, false, true, IsSome};
ghost use Rattle.std.specs.Prelude.{None, IfSome, IfNone, IfOk, OnOk, OnErr, option_map};
ghost use Rattle.slab.specs.Slab.{get as chain_in};
ghost use Rattle.mv_chain.specs.Accesses.{decided, AreWhole, IsUndecided, IsUnsettled};
ghost use Rattle.mv_chain.specs.{Calls.bytes_of, Chain.fresh, Chain.pruned, Within.IsShort};

use crate::answers::{Got, Put};
use crate::own::{Notes, Own, count, keep_decided, next_due};
use crate::own_key::OwnKey;
use crate::steps::{add, read, settle_all};
use crate::verdict::{Verdict, judge};
use crate::writes::{collect, listed};
use mv_chain::{Chain, Fate, Pool, ValueBytes};
use slab::Slab;
use std::alloc::{AllocError, Global};
use std::collections::BTreeMap;
use xa_codes::Write;

/// The versions of all keys, and by timestamp the keys that a branch has written or read, until the low water has
/// passed it.
///
/// Every call is total. What a call promises holds for every history that the records stood for. Timestamps
/// of branches are above 0, and none is used again once it is settled.
#[derive(Debug, Drop)]
pub struct Records {
    pub(crate) alloc: Global,
    /// Where each key's chain stands.
    pub(crate) indices: BTreeMap<Vec<u8>, usize>,
    pub(crate) chains: Slab<Chain>,
    /// The versions of all chains.
    pub(crate) pool: Pool,
    /// What is kept of each branch, by its timestamp.
    pub(crate) notes: BTreeMap<u64, Notes>,
}

impl Records {
    ghost use Rattle.mv_rules.specs.Accesses.{after_get, AnswersGet, after_put, AnswersPut};
    ghost use Rattle.mv_rules.specs.Accesses.{IsWritesOf, IsAscending, IsWholeAt};
    ghost use Rattle.mv_rules.specs.Calls.{IfStood, IfIndexed, IfUnindexed, IfUnsettled};
    ghost use Rattle.mv_rules.specs.Noted.{Reads, Puts, Settles};
    ghost use Rattle.mv_rules.specs.Records.{StandsFor, index_of, own_of, versions_in};
    ghost use Rattle.mv_rules.specs.Tidy.{kept_of, names, forgotten, tidied_if, has_read};
    ghost use Rattle.mv_rules.specs.Tidy.{Tidies, IsDrained, KeepsAll, KeepsBut};
    ghost use Rattle.mv_rules.specs.Own.{OwnStays};
    ghost use Rattle.mv_rules.specs.Within.{IsWithin, KeepsWithin, IsShortAnswer, AreShort};
    ghost use Rattle.mv_rules.specs.Within.{IsKey, HasKeys, KeepsKeys, KeepsOwnBut, HaveKeys};

    /// No key was written or read. Takes no memory.
    pub fn new(alloc: Global) -> Records
        ensures stands { (low : ℕ) → StandsFor (record { low = low; writes = []; reads = [] }) result }
        ensures within { (n : ℕ) → IsWithin n result }
        ensures own { (t : ℕ) → own_of t result ≡ [] }
    {
        Records {
            alloc,
            indices: BTreeMap::new(alloc),
            chains: Slab::new(alloc),
            pool: Pool::new(alloc),
            notes: BTreeMap::new(alloc),
        }
    }

    /// No key was written or read. There is room for the chains of `keys` keys, and for `versions` versions.
    ///
    /// # Errors
    /// Out of memory.
    pub fn with_capacity(alloc: Global, keys: usize, versions: usize) -> Result<Records, AllocError>
        ensures stands { IfOk result
            (λ r. (low : ℕ) → StandsFor (record { low = low; writes = []; reads = [] }) r) }
        ensures within { IfOk result (λ r. (n : ℕ) → IsWithin n r) }
        ensures own { IfOk result (λ r. (t : ℕ) → own_of t r ≡ []) }
    {
        Ok(Records {
            alloc,
            indices: BTreeMap::new(alloc),
            chains: Slab::with_capacity(alloc, keys)?,
            pool: Pool::with_capacity(alloc, versions)?,
            notes: BTreeMap::new(alloc),
        })
    }

    /// The index of the key's chain, if it has one.
    pub(crate) fn find(&self, key: &[u8]) -> Option<usize>
        ensures index { IfSome result (λ i. index_of key.now self.now ≡ Some i) }
        ensures there { IfSome result (λ i. IsSome (chain_in self.now.chains i)) }
        ensures none { IfNone result (IfStood self.now (λ h. index_of key.now self.now ≡ None)) }
    {
        let i = *self.indices.get(key)?;
        if self.chains.contains(i) {
            Some(i)
        } else {
            None
        }
    }

    /// Makes the chain of a key that has none. The copy of the key has room for `spare` more bytes.
    pub(crate) fn make(&mut self, key: &[u8], spare: usize) -> Result<usize, AllocError>
        ensures index { IfOk result (λ i. index_of key.now self.new ≡ Some i) }
        ensures there { IfOk result (λ i. IsSome (chain_in self.new.chains i)) }
        ensures stands { IfUnindexed key.now self.old (λ h. StandsFor h self.new) }
        ensures made { OnOk result
            (IfUnindexed key.now self.old (λ h. KeepsBut key.now (λ _. Some fresh) self.old self.new)) }
        ensures same { OnErr result (IfUnindexed key.now self.old (λ h. KeepsAll self.old self.new)) }
        ensures notes { self.new.notes ≡ self.old.notes }
        ensures within { KeepsWithin self.old self.new }
    {
        let copy = key_copied(self.alloc, key, spare)?;
        self.chains.reserve(1)?;
        let i = self.chains.vacant_key();
        self.indices.insert(copy, i)?;
        match Chain::new(&mut self.pool) {
            Ok(chain) => Ok(self.chains.insert_reserved(chain)),
            Err(refused) => {
                self.indices.remove(key);
                Err(refused)
            }
        }
    }

    /// Forgets a key that nobody has written, and that nobody has read above `low`. Takes no memory.
    fn forget(&mut self, key: &[u8], low: u64)
        ensures stands { IfStood self.old (λ h. IsWholeAt key.now h.writes → low ≤ h.low → StandsFor h self.new) }
        ensures kept { IfStood self.old (λ h. KeepsBut key.now (forgotten low) self.old self.new) }
        ensures notes { self.new.notes ≡ self.old.notes }
        ensures within { KeepsWithin self.old self.new }
    {
        let Some(i) = self.indices.get(key) else {
            return;
        };
        let i = *i;
        let Some(chain) = self.chains.get(i) else {
            return;
        };
        if !chain.is_idle(&self.pool, low) {
            return;
        }
        self.indices.remove(key);
        if let Some(mut chain) = self.chains.try_remove(i) {
            chain.clear(&mut self.pool);
        }
    }

    /// What a branch of timestamp `ts` reads at the key, whose chain stands at `i`.
    fn get_at(&mut self, i: usize, ts: u64, key: &[u8]) -> Got
        requires there { IsSome (chain_in self.old.chains i) }
        ensures answer { IfIndexed key.now i self.old (λ h. h.low ≤ ts → AnswersGet result ts key.now h) }
        ensures stands { IfIndexed key.now i self.old
            (λ h. h.low ≤ ts → StandsFor (after_get result ts key.now h) self.new) }
        ensures same { has_read result ≡ false → IfIndexed key.now i self.old (λ h. KeepsAll self.old self.new) }
        ensures reads { has_read result ≡ true
            → IfIndexed key.now i self.old (λ h. Reads ts key.now self.old self.new) }
        ensures short { (n : ℕ) → IsWithin n self.old → IsShortAnswer n result }
        ensures within { KeepsWithin self.old self.new }
        ensures own { OwnStays self.old.notes self.new.notes }
    {
        let chain = &mut self.chains[i];
        read(self.alloc, &mut self.pool, chain, &mut self.notes, ts, key)
    }

    /// What a branch of timestamp `ts` reads at the key. An answered read is noted; Busy and Memory
    /// change nothing.
    pub fn get(&mut self, ts: u64, key: &[u8]) -> Got
        ensures answer { IfStood self.old (λ h. h.low ≤ ts → AnswersGet result ts key.now h) }
        ensures stands { IfStood self.old (λ h. h.low ≤ ts → StandsFor (after_get result ts key.now h) self.new) }
        ensures same { has_read result ≡ false → IfStood self.old (λ h. h.low ≤ ts → KeepsAll self.old self.new) }
        ensures reads { has_read result ≡ true → IfStood self.old (λ h. Reads ts key.now self.old self.new) }
        ensures short { (n : ℕ) → IsWithin n self.old → IsShortAnswer n result }
        ensures within { KeepsWithin self.old self.new }
        ensures keys { KeepsKeys self.old self.new }
    {
        if let Some(i) = self.find(key) {
            return self.get_at(i, ts, key);
        }
        let Ok(i) = self.make(key, 0) else {
            return Got::Memory;
        };
        let got = self.get_at(i, ts, key);
        if let Got::Memory = got {
            self.forget(key, 0);
            return Got::Memory;
        }
        got
    }

    /// Adds a branch's write of the key, whose chain stands at `i`.
    fn put_at(&mut self, i: usize, ts: u64, key: &[u8], value: ValueBytes) -> Put
        requires there { IsSome (chain_in self.old.chains i) }
        ensures answer { IfIndexed key.now i self.old
            (λ h. IsUnsettled ts h.low h.writes → AnswersPut result ts key.now h) }
        ensures stands { IfIndexed key.now i self.old
            (λ h. IsUnsettled ts h.low h.writes → StandsFor (after_put result ts key.now value h) self.new) }
        ensures same { result ≢ Put.Done → IfIndexed key.now i self.old (λ h. KeepsAll self.old self.new) }
        ensures puts { result ≡ Put.Done → IfIndexed key.now i self.old
            (λ h. IsUnsettled ts h.low h.writes → Puts ts key.now value self.old self.new) }
        ensures within { (n : ℕ) → IsWithin n self.old → IsShort n value → IsWithin n self.new }
        ensures keys { HasKeys self.old → IsKey key.now → HasKeys self.new }
    {
        let count = count(&self.notes, ts);
        let chain = &mut self.chains[i];
        let look = chain.look(&self.pool, ts);
        match judge(&look, count) {
            Verdict::Refused(answer) => answer,
            Verdict::Again => match chain.install_at(&mut self.pool, &look, value) {
                Ok(()) => Put::Done,
                Err(_) => Put::Memory,
            },
            Verdict::First => {
                let Ok(copy) = OwnKey::from_slice(self.alloc, key) else {
                    return Put::Memory;
                };
                let own = Own {
                    key: copy,
                    index: i,
                };
                match add(
                    self.alloc,
                    &mut self.pool,
                    chain,
                    &mut self.notes,
                    &look,
                    own,
                    value,
                ) {
                    Ok(()) => Put::Done,
                    Err(_) => Put::Memory,
                }
            }
        }
    }

    /// Like `put`.
    fn put_value(&mut self, ts: u64, key: &[u8], value: ValueBytes) -> Put
        ensures answer { IfUnsettled ts self.old (AnswersPut result ts key.now) }
        ensures stands { IfUnsettled ts self.old
            (λ h. StandsFor (after_put result ts key.now value h) self.new) }
        ensures same { result ≢ Put.Done → IfUnsettled ts self.old (λ h. KeepsAll self.old self.new) }
        ensures puts { result ≡ Put.Done
            → IfUnsettled ts self.old (λ h. Puts ts key.now value self.old self.new) }
        ensures within { (n : ℕ) → IsWithin n self.old → IsShort n value → IsWithin n self.new }
        ensures keys { HasKeys self.old → IsKey key.now → HasKeys self.new }
    {
        if let Some(i) = self.find(key) {
            return self.put_at(i, ts, key, value);
        }
        let Ok(i) = self.make(key, 0) else {
            return Put::Memory;
        };
        let answer = self.put_at(i, ts, key, value);
        if let Put::Done = answer {
            return Put::Done;
        }
        self.forget(key, 0);
        answer
    }

    /// Adds a branch's write, or replaces its own: `None` deletes the key. A branch writes at most `MOST_WRITES` keys.
    /// Limit, Late and Memory change nothing.
    pub fn put(&mut self, ts: u64, key: &[u8], value: Option<Vec<u8>>) -> Put
        ensures answer { IfUnsettled ts self.old (AnswersPut result ts key.now) }
        ensures stands { IfUnsettled ts self.old
            (λ h. StandsFor (after_put result ts key.now (bytes_of value) h) self.new) }
        ensures same { result ≢ Put.Done → IfUnsettled ts self.old (λ h. KeepsAll self.old self.new) }
        ensures puts { result ≡ Put.Done
            → IfUnsettled ts self.old (λ h. Puts ts key.now (bytes_of value) self.old self.new) }
        ensures within { (n : ℕ) → IsWithin n self.old → IsShort n (bytes_of value) → IsWithin n self.new }
        ensures keys { HasKeys self.old → IsKey key.now → HasKeys self.new }
    {
        self.put_value(ts, key, ValueBytes::new(value))
    }

    /// Decides the fate of a branch, also of one below the low water: its writes stay, or go. Takes no memory.
    pub fn settle(&mut self, ts: u64, fate: Fate)
        ensures stands { IfStood self.old (λ h. IsUndecided ts h.writes
            → StandsFor (record h { writes = decided ts fate h.writes }) self.new) }
        ensures settles { IfStood self.old (λ h. Settles ts fate self.old self.new) }
        ensures within { KeepsWithin self.old self.new }
        ensures keys { KeepsKeys self.old self.new }
        ensures others { KeepsOwnBut ts self.old self.new }
        ensures decided { own_of ts self.new ≡ [] }
    {
        let Some(noted) = self.notes.get(&ts) else {
            return;
        };
        let own = &noted.written;
        if own.is_empty() {
            return;
        }
        settle_all(&mut self.pool, &mut self.chains, own, ts, fate);
        keep_decided(self.alloc, &mut self.notes, ts);
    }

    /// Prunes the chain of a key. Takes no memory.
    fn prune(&mut self, key: &[u8], low: u64)
        ensures stands { IfStood self.old (λ h. AreWhole h.writes → low ≤ h.low → StandsFor h self.new) }
        ensures kept { IfStood self.old (λ h. KeepsBut key.now (option_map (pruned low)) self.old self.new) }
        ensures notes { self.new.notes ≡ self.old.notes }
        ensures within { KeepsWithin self.old self.new }
    {
        let Some(i) = self.indices.get(key) else {
            return;
        };
        if let Some(chain) = self.chains.get_mut(*i) {
            chain.prune(&mut self.pool, low);
        }
    }

    /// Drops what is no longer read from `low` on of these keys. Takes no memory.
    fn drain(&mut self, due: &[Own], low: u64)
        ensures stands { IfStood self.old (λ h. AreWhole h.writes → low ≤ h.low → StandsFor h self.new) }
        ensures kept { IfStood self.old (λ h. AreWhole h.writes → low ≤ h.low → (q : List ℕ)
            → kept_of q self.new ≡ tidied_if low (names q due.now) (kept_of q self.old)) }
        ensures notes { self.new.notes ≡ self.old.notes }
        ensures within { KeepsWithin self.old self.new }
    {
        for own in due {
            self.prune(own.key.as_slice(), low);
            self.forget(own.key.as_slice(), low);
        }
    }

    /// No branch below `low` still reads or writes, except one that is undecided, which sees its own writes: drops
    /// what is no longer read. It costs what it drops, and takes no memory.
    pub fn low_water(&mut self, low: u64)
        ensures stands { IfStood self.old (λ h. AreWhole h.writes
            → StandsFor (record h { low = max h.low low }) self.new) }
        ensures tidies { IfStood self.old (λ h. AreWhole h.writes → Tidies low self.old self.new) }
        ensures drained { IsDrained low self.new }
        ensures within { KeepsWithin self.old self.new }
        ensures keys { KeepsKeys self.old self.new }
        ensures own { OwnStays self.old.notes self.new.notes }
    {
        while let Some(noted) = next_due(&mut self.notes, low) {
            self.drain(&noted.decided, low);
            self.drain(&noted.read, low);
        }
    }

    /// How many versions the chains of all keys have, the base of each included. Takes no memory.
    pub fn versions(&self) -> u64
        ensures { result ≡ versions_in self.now }
    {
        self.pool.versions() as u64
    }

    /// The branch's last write of each key, ascending by key, while the branch is undecided, also of one below
    /// the low water.
    ///
    /// # Errors
    /// Out of memory.
    pub fn writes_of(&self, ts: u64) -> Result<Vec<Write>, AllocError>
        ensures writes { IfOk result (λ v. IfStood self.now (λ h. IsUndecided ts h.writes
            → IsWritesOf ts h.writes v.items)) }
        ensures ascending { IfOk result (λ v. IsAscending v.items) }
        ensures short { IfOk result (λ v. (n : ℕ) → IsWithin n self.now → AreShort n v.items) }
        ensures keys { IfOk result (λ v. HasKeys self.now → HaveKeys v.items) }
    {
        match self.notes.get(&ts) {
            Some(noted) => {
                let own = &noted.written;
                let values = collect(self.alloc, &self.pool, &self.chains, own, ts)?;
                listed(self.alloc, values)
            }
            None => Ok(Vec::new(self.alloc)),
        }
    }
}

/// A copy of a key, with room for `spare` more bytes.
fn key_copied(alloc: Global, key: &[u8], spare: usize) -> Result<Vec<u8>, AllocError>
    ensures { IfOk result (λ v. v.items ≡ key.now) }
{
    let mut bytes = Vec::with_capacity(alloc, key.len().saturating_add(spare))?;
    bytes.extend_from_slice(key)?;
    Ok(bytes)
}

ghost use Rattle.std.specs.Prelude.{◌≡◌, ℕ, ◌+◌, [], ◌∷◌, Some, None, false, length, IsSome, IfOk, OnOk};
ghost use Rattle.slab.specs.Slab.{get as chain_in};
ghost use Rattle.mv_chain.specs.{Accesses.wrote, Accesses.is_late, Chain.fresh, Within.IsShort};

use crate::own::Own;
use crate::own_key::OwnKey;
use crate::place::Place;
use crate::records::Records;
use crate::steps::add;
use mv_chain::{Fate, ValueBytes};
use std::alloc::AllocError;
use xa_codes::Write;
use xa_shared::SharedBytes;

/// The spare room after the copy of a key. It makes the copy's block larger than those of the keys of the records
/// that are freed meanwhile: in their places it would be scattered among what their values leave, where no body of
/// a later record would fit.
const SPARE: usize = 16;

/// How records are rebuilt from what lasted.
impl Records {
    ghost use Rattle.mv_rules.specs.Calls.{IfStood, IfUnindexed, IfUnsettled};
    ghost use Rattle.mv_rules.specs.Noted.{Begins, Puts, PutsAll, Restores};
    ghost use Rattle.mv_rules.specs.Records.{StandsFor, index_of, own_of};
    ghost use Rattle.mv_rules.specs.{Restoring.with_branch, Restoring.IsRestorable, Tidy.KeepsBut};
    ghost use Rattle.mv_rules.specs.Within.{IsWithin, KeepsWithin, AreShort};
    ghost use Rattle.mv_rules.specs.Within.{IsKey, AreKeys, HasKeys, KeepsOwnBut, HaveKeys};

    /// The index of the key's chain, which is made if there is none.
    fn find_or_make(&mut self, key: &[u8]) -> Result<usize, AllocError>
        ensures index { IfOk result (λ i. index_of key.now self.new ≡ Some i) }
        ensures there { IfOk result (λ i. IsSome (chain_in self.new.chains i)) }
        ensures stands { IfStood self.old (λ h. StandsFor h self.new) }
        ensures known { IfStood self.old (λ h. IsSome (index_of key.now self.old) → self.new ≡ self.old) }
        ensures made { OnOk result
            (IfUnindexed key.now self.old (λ h. KeepsBut key.now (λ _. Some fresh) self.old self.new)) }
        ensures notes { self.new.notes ≡ self.old.notes }
        ensures within { KeepsWithin self.old self.new }
    {
        if let Some(i) = self.find(key) {
            return Ok(i);
        }
        self.make(key, SPARE)
    }

    /// Adds a branch's write, however many keys it has written.
    fn put_back(&mut self, ts: u64, key: &[u8], value: ValueBytes) -> Result<(), AllocError>
        ensures stands { OnOk result (IfUnsettled ts self.old (λ h. is_late key.now ts h.reads ≡ false
            → StandsFor (record h { writes = wrote ts key.now value ∷ h.writes }) self.new)) }
        ensures puts { OnOk result
            (IfUnsettled ts self.old (λ h. Puts ts key.now value self.old self.new)) }
        ensures within { (n : ℕ) → IsWithin n self.old → IsShort n value → IsWithin n self.new }
        ensures keys { (n : ℕ) → AreKeys n (own_of ts self.old) → IsKey key.now
            → AreKeys (n + 1) (own_of ts self.new) }
        ensures others { KeepsOwnBut ts self.old self.new }
    {
        let i = self.find_or_make(key)?;
        let chain = &mut self.chains[i];
        let look = chain.look(&self.pool, ts);
        if look.from == ts {
            return chain.install_at(&mut self.pool, &look, value);
        }
        let own = Own {
            key: OwnKey::from_slice(self.alloc, key)?,
            index: i,
        };
        add(
            self.alloc,
            &mut self.pool,
            chain,
            &mut self.notes,
            &look,
            own,
            value,
        )
    }

    /// Adds a branch's writes, undecided. The caller frees them, so that what is allocated here isn't scattered
    /// among what they leave.
    fn put_all(
        &mut self,
        ts: u64,
        writes: &[Write],
        body: Option<&SharedBytes>,
    ) -> Result<(), AllocError>
        ensures stands { OnOk result (IfStood self.old (λ h. IsRestorable ts h
            → StandsFor (record h { writes = with_branch ts None writes.now h.writes }) self.new)) }
        ensures puts { OnOk result (IfStood self.old (λ h. IsRestorable ts h → PutsAll ts writes.now self.old self.new)) }
        ensures within { (n : ℕ) → IsWithin n self.old → AreShort n writes.now → IsWithin n self.new }
        ensures keys { OnOk result (own_of ts self.old ≡ [] → HaveKeys writes.now
            → AreKeys (length writes.now) (own_of ts self.new)) }
        ensures others { KeepsOwnBut ts self.old self.new }
    {
        let mut place = Place::of_last(body, writes);
        for write in writes {
            self.put_back(ts, write.key.as_slice(), place.left(self.alloc, write)?)?;
        }
        Ok(())
    }

    /// Makes the chains of the keys that a branch has written, if there are none. It begins with the last one: if a
    /// branch wrote its keys in ascending order, and later branches greater ones, they fill the nodes of the index, which
    /// keys that only ascend leave half empty.
    fn make_all(&mut self, writes: &[Write]) -> Result<(), AllocError>
        ensures stands { OnOk result (IfStood self.old (λ h. StandsFor h self.new)) }
        ensures begins { OnOk result (IfStood self.old (λ h. Begins writes.now self.old self.new)) }
        ensures within { KeepsWithin self.old self.new }
        ensures notes { self.new.notes ≡ self.old.notes }
    {
        for i in (0..writes.len()).rev() {
            self.find_or_make(writes[i].key.as_slice())?;
        }
        Ok(())
    }

    /// Adds the writes of a branch that lasted, as the log was read, and decides its fate if that is known:
    /// `None` leaves it undecided. Values that stand in the record's body, of which
    /// the writes are the end, are left there, and others copied. Nobody may have read, and each branch is added once.
    ///
    /// # Errors
    /// Out of memory. Some of the writes are then missing, and the records stand for nothing: drop them.
    pub fn restore(
        &mut self,
        ts: u64,
        writes: &[Write],
        fate: Option<Fate>,
        body: Option<&SharedBytes>,
    ) -> Result<(), AllocError>
        ensures stands { OnOk result (IfStood self.old (λ h. IsRestorable ts h
            → StandsFor (record h { writes = with_branch ts fate writes.now h.writes }) self.new)) }
        ensures restores { OnOk result (IfStood self.old (λ h. IsRestorable ts h
            → Restores ts writes.now fate self.old self.new)) }
        ensures within { (n : ℕ) → IsWithin n self.old → AreShort n writes.now → IsWithin n self.new }
        ensures keys { OnOk result (HasKeys self.old → own_of ts self.old ≡ [] → HaveKeys writes.now
            → HasKeys self.new) }
        ensures others { KeepsOwnBut ts self.old self.new }
        ensures decided { OnOk result (IsSome fate → own_of ts self.new ≡ []) }
    {
        self.make_all(writes)?;
        self.put_all(ts, writes, body)?;
        let Some(decided) = fate else {
            return Ok(());
        };
        self.settle(ts, decided);
        Ok(())
    }
}

ghost use Rattle.std.specs.Prelude.{◌≡◌, ℕ, List, [], IfOk, IfSome, OnOk, OnErr, option_map};
ghost use Rattle.mv_chain.specs.Chain.{StandsFor, fresh, is_marked, marked, marked_at, installed, settled, pruned};
ghost use Rattle.mv_chain.specs.Look.{looked};

use crate::changes::{install_in, mark_in, settle_in};
use crate::fate::Fate;
use crate::finding::{last_decided, look_in};
use crate::found::Found;
use crate::look::Look;
use crate::pool::Pool;
use crate::pruning::{clear_in, prune_in};
use crate::slots::{Slots, is_idle_at, put_in, timestamp_at, value_at};
use crate::version::{ValueBytes, Version};
use std::alloc::AllocError;

/// The versions of one key, ascending by timestamp, each with one read mark. They stand in the pool that the chain was
/// made over; give it that pool again at each call.
///
/// Every call is total. A look-up by timestamp is a binary search. Timestamps of branches are above 0.
#[derive(Debug, Drop)]
pub struct Chain {
    slots: Slots,
}

impl Chain {
    ghost use Rattle.mv_chain.specs.Idle.{is_idle};
    ghost use Rattle.mv_chain.specs.Last.{lent, IsLastOf, IsLastWritten};
    ghost use Rattle.mv_chain.specs.Pool.{versions_of, IsKept, Counts, LeavesOthers, CountsAt, LeavesOthersAt};
    ghost use Rattle.mv_chain.specs.Calls.{sees, bytes_of, IfLooked, Leaves, LeavesLooked};
    ghost use Rattle.mv_chain.specs.Calls.{Notes, NotesLooked, Adds, AddsLooked, Decides, Raises};
    ghost use Rattle.mv_chain.specs.Within.{IsShort, IsWithin, KeepsWithin};

    /// A key that nobody wrote: one committed version at timestamp 0, absent.
    ///
    /// # Errors
    /// Out of memory; every chain of the pool is as it was.
    pub fn new(pool: &mut Pool) -> Result<Chain, AllocError>
        ensures base { IfOk result (λ c. versions_of pool.new c ≡ fresh) }
        ensures kept { IfOk result (λ c. IsKept pool.new c) }
        ensures stands { IfOk result (λ c. (key : List ℕ) (low : ℕ)
            → StandsFor key low [] [] (versions_of pool.new c)) }
        ensures others { IfOk result (λ c. LeavesOthersAt pool.old [] pool.new c.slots.items) }
        ensures count { IfOk result (λ c. CountsAt pool.old [] pool.new c.slots.items) }
        ensures err { OnErr result (LeavesOthersAt pool.old [] pool.new []) }
        ensures err_count { OnErr result (CountsAt pool.old [] pool.new []) }
        ensures within { KeepsWithin pool.old pool.new }
    {
        let mut slots = Slots::new(pool.alloc);
        let base = Version {
            timestamp: 0,
            value: ValueBytes::new(None),
            pending: false,
            mark: 0,
        };
        put_in(pool, &mut slots, 0, base)?;
        Ok(Chain { slots })
    }

    /// What a read at `ts` sees, and whether a write at `ts` is late, by one search. It holds until the chain changes.
    pub fn look(&self, pool: &Pool, ts: u64) -> Look
        ensures found { IsKept pool.now self.now → result ≡ looked ts (versions_of pool.now self.now) }
        ensures at { result.at ≡ ts }
    {
        look_in(pool, &self.slots, ts)
    }

    /// The source of a read at `ts`: the version with the greatest timestamp of at most `ts`. A read has to
    /// wait or give up if that is pending and not at `ts` itself.
    pub fn source(&self, pool: &Pool, ts: u64) -> Found
        ensures from { IsKept pool.now self.now → result.from ≡ (sees ts pool.now self.now).from }
        ensures pending { IsKept pool.now self.now → result.pending ≡ (sees ts pool.now self.now).pending }
    {
        let look = self.look(pool, ts);
        Found {
            from: look.from,
            pending: look.pending,
        }
    }

    /// The value that a read sees at the timestamp that was looked at. `None` if the key is absent.
    pub fn value_at<'a>(&self, pool: &'a Pool, look: &Look) -> Option<&'a [u8]>
        ensures value { IfLooked look.now pool.now self.now
            (λ ts. option_map (λ v. v.now) result ≡ (sees ts pool.now self.now).value) }
        ensures within { (n : ℕ) → IsWithin n pool.now → IsShort n (option_map (λ v. v.now) result) }
    {
        match look.last(self.slots.len()) {
            None => None,
            Some(i) => value_at(pool, self.slots[i]),
        }
    }

    /// The value of the version that a read at `from` sees, so of the version of timestamp `from` if
    /// there is one. `None` if the key is absent.
    pub fn value<'a>(&self, pool: &'a Pool, from: u64) -> Option<&'a [u8]>
        ensures value { IsKept pool.now self.now
            → option_map (λ v. v.now) result ≡ (sees from pool.now self.now).value }
        ensures within { (n : ℕ) → IsWithin n pool.now → IsShort n (option_map (λ v. v.now) result) }
    {
        self.value_at(pool, &self.look(pool, from))
    }

    /// The last version that isn't pending: its timestamp, and its value, `None` if the branch deleted the key. It
    /// is `None` if no branch that wrote the key has committed. It costs time for each pending one above it.
    pub fn last_committed<'a>(&self, pool: &'a Pool) -> Option<(u64, Option<&'a [u8]>)>
        ensures last { IsKept pool.now self.now → IsLastOf (versions_of pool.now self.now) (lent result) }
        ensures written { IsKept pool.now self.now → IsLastWritten (versions_of pool.now self.now) (lent result) }
        ensures within { (n : ℕ) → IsWithin n pool.now → IfSome (lent result) (λ p. IsShort n p.1) }
    {
        let slot = last_decided(pool, &self.slots)?;
        let timestamp = timestamp_at(pool, slot);
        if timestamp == 0 {
            return None;
        }
        Some((timestamp, value_at(pool, slot)))
    }

    /// Whether a write at `ts` is late: a version below `ts` was read above `ts`.
    pub fn late(&self, pool: &Pool, ts: u64) -> bool
        ensures { IsKept pool.now self.now → result ≡ is_marked ts (versions_of pool.now self.now) }
    {
        self.look(pool, ts).late
    }

    /// Notes an answered read at the timestamp that was looked at. If that read may not be answered, nothing
    /// changes.
    pub fn mark_at(&mut self, pool: &mut Pool, look: &Look)
        ensures versions { LeavesLooked marked_at look.now pool.old self.old pool.new self.new }
        ensures kept { IfLooked look.now pool.old self.old (λ ts. IsKept pool.new self.new) }
        ensures stands { NotesLooked look.now pool.old self.old pool.new self.new }
        ensures others { LeavesOthers pool.old self.old pool.new self.new }
        ensures count { IsKept pool.old self.old → Counts pool.old self.old pool.new self.new }
        ensures within { KeepsWithin pool.old pool.new }
    {
        mark_in(pool, &self.slots, look);
    }

    /// Notes an answered read: the version of timestamp `from` was read at `reader`. If `from` isn't the
    /// source of a read at `reader`, or that read may not be answered, nothing changes.
    pub fn mark(&mut self, pool: &mut Pool, from: u64, reader: u64)
        ensures versions { Leaves (marked from reader) pool.old self.old pool.new self.new }
        ensures kept { IsKept pool.old self.old → IsKept pool.new self.new }
        ensures stands { Notes from reader pool.old self.old pool.new self.new }
        ensures others { LeavesOthers pool.old self.old pool.new self.new }
        ensures count { IsKept pool.old self.old → Counts pool.old self.old pool.new self.new }
        ensures within { KeepsWithin pool.old pool.new }
    {
        let look = self.look(pool, reader);
        if look.from == from {
            self.mark_at(pool, &look);
        }
    }

    /// Adds a branch's write at the timestamp that was looked at, or replaces its own: `None` deletes the key.
    /// If the write is late, or its branch has committed, nothing changes. A write below other versions moves
    /// their indices.
    ///
    /// # Errors
    /// Out of memory; nothing changes.
    pub fn install_at(
        &mut self,
        pool: &mut Pool,
        look: &Look,
        value: ValueBytes,
    ) -> Result<(), AllocError>
        ensures versions { OnOk result
            (LeavesLooked (λ ts. installed ts value) look.now pool.old self.old pool.new self.new) }
        ensures kept { IfLooked look.now pool.old self.old (λ ts. IsKept pool.new self.new) }
        ensures stands { OnOk result (AddsLooked look.now value pool.old self.old pool.new self.new) }
        ensures err { OnErr result (Leaves (λ versions. versions) pool.old self.old pool.new self.new) }
        ensures others { LeavesOthers pool.old self.old pool.new self.new }
        ensures count { IsKept pool.old self.old → Counts pool.old self.old pool.new self.new }
        ensures within { (n : ℕ) → IsWithin n pool.old → IsShort n value → IsWithin n pool.new }
    {
        install_in(pool, &mut self.slots, look, value)
    }

    /// Adds a branch's write, or replaces its own: `None` deletes the key. If the write is late, or its
    /// branch has committed, nothing changes. A write below other versions moves their indices.
    ///
    /// # Errors
    /// Out of memory; nothing changes.
    pub fn install(
        &mut self,
        pool: &mut Pool,
        ts: u64,
        value: Option<Vec<u8>>,
    ) -> Result<(), AllocError>
        ensures versions { OnOk result
            (Leaves (installed ts (bytes_of value)) pool.old self.old pool.new self.new) }
        ensures kept { IsKept pool.old self.old → IsKept pool.new self.new }
        ensures stands { OnOk result (Adds ts (bytes_of value) pool.old self.old pool.new self.new) }
        ensures err { OnErr result (Leaves (λ versions. versions) pool.old self.old pool.new self.new) }
        ensures others { LeavesOthers pool.old self.old pool.new self.new }
        ensures count { IsKept pool.old self.old → Counts pool.old self.old pool.new self.new }
        ensures within { (n : ℕ) → IsWithin n pool.old → IsShort n (bytes_of value) → IsWithin n pool.new }
    {
        let look = self.look(pool, ts);
        self.install_at(pool, &look, ValueBytes::new(value))
    }

    /// Decides the fate of a branch's write, also of one below the low water: it stays, or it goes with its
    /// mark. If the branch has no pending version, nothing changes.
    pub fn settle(&mut self, pool: &mut Pool, ts: u64, fate: Fate)
        ensures versions { Leaves (settled ts fate) pool.old self.old pool.new self.new }
        ensures kept { IsKept pool.old self.old → IsKept pool.new self.new }
        ensures stands { Decides ts fate pool.old self.old pool.new self.new }
        ensures others { LeavesOthers pool.old self.old pool.new self.new }
        ensures count { IsKept pool.old self.old → Counts pool.old self.old pool.new self.new }
        ensures within { KeepsWithin pool.old pool.new }
    {
        settle_in(pool, &mut self.slots, ts, fate);
    }

    /// Drops each committed version below another committed one that is at most `low`: no read from `low` on sees it.
    pub fn prune(&mut self, pool: &mut Pool, low: u64)
        ensures versions { Leaves (pruned low) pool.old self.old pool.new self.new }
        ensures kept { IsKept pool.old self.old → IsKept pool.new self.new }
        ensures stands { Raises low pool.old self.old pool.new self.new }
        ensures others { LeavesOthers pool.old self.old pool.new self.new }
        ensures count { IsKept pool.old self.old → Counts pool.old self.old pool.new self.new }
        ensures within { KeepsWithin pool.old pool.new }
    {
        prune_in(pool, &mut self.slots, low);
    }

    /// Whether nothing of the chain has to be kept from `low` on: nobody has written the key, and no read of it was
    /// above `low`. By the law `idle_stands` a new chain then stands for the same.
    pub fn is_idle(&self, pool: &Pool, low: u64) -> bool
        ensures { result ≡ is_idle low (versions_of pool.now self.now) }
    {
        self.slots.len() == 1 && is_idle_at(pool, self.slots[0], low)
    }

    /// Takes all versions out, and gives their slots back to the pool. Takes no memory.
    pub fn clear(&mut self, pool: &mut Pool)
        ensures versions { versions_of pool.new self.new ≡ [] }
        ensures others { LeavesOthers pool.old self.old pool.new self.new }
        ensures count { IsKept pool.old self.old → Counts pool.old self.old pool.new self.new }
        ensures within { KeepsWithin pool.old pool.new }
    {
        clear_in(pool, &mut self.slots);
    }
}

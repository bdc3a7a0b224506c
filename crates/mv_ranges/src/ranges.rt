ghost use Rattle.std.specs.Prelude.{◌≡◌, ℕ, List, map, max, option_map, OnOk, OnErr};
ghost use Rattle.std.specs.List.{AllByRecursion as Each};
ghost use Rattle.std.specs.BTreeMap.{btree_map_len};
ghost use Rattle.mv_ranges.specs.Ranges.{mark_over, walked};
ghost use Rattle.mv_ranges.specs.Marks.{SameMarks, SameAbove, KeepsBoundaries, IsAscending, IsBoundary, IsForward};
ghost use Rattle.mv_ranges.specs.Marks.{IsApart, MayBegin, MayEnd};
ghost use Rattle.mv_ranges.specs.Notes.{IsDrained};

use crate::marks::{after, below, copied, join, lower, over, raise, split};
use crate::notes::{next_due, note};
use std::alloc::{AllocError, Global};
use std::collections::BTreeMap;

/// Over each key, the greatest timestamp of a scan that walked it, until the low water has passed it.
#[derive(Debug, Drop)]
pub struct Ranges {
    pub(crate) alloc: Global,
    /// A boundary, and the mark of all keys from it on up to the next one. Keys before the first have the mark 0.
    pub(crate) marks: BTreeMap<Vec<u8>, u64>,
    /// By reader, the boundaries that its ranges have.
    pub(crate) notes: BTreeMap<u64, Vec<Vec<u8>>>,
}

impl Ranges {
    /// No key was walked. Takes no memory.
    pub fn new(alloc: Global) -> Ranges
        ensures { (key : List ℕ) → mark_over key result ≡ 0 }
    {
        Ranges {
            alloc,
            marks: BTreeMap::new(alloc),
            notes: BTreeMap::new(alloc),
        }
    }

    /// How many boundaries are kept.
    pub fn len(&self) -> usize
        ensures { result ≡ btree_map_len self.now.marks }
    {
        self.marks.len()
    }

    /// The greatest timestamp of a scan that walked the key; 0 if there was none.
    pub fn over(&self, key: &Vec<u8>) -> u64
        ensures { result ≡ mark_over key.now.items self.now }
    {
        over(&self.marks, key)
    }

    /// Makes the key a boundary, and notes it for the reader.
    fn bound(&mut self, key: &Vec<u8>, reader: u64) -> Result<(), AllocError>
        ensures same { SameMarks self.old.marks self.new.marks }
        ensures kept { KeepsBoundaries self.old.marks self.new.marks }
        ensures ascending { IsAscending self.old.marks → IsAscending self.new.marks }
        ensures there { OnOk result (IsBoundary key.now.items self.new.marks) }
    {
        let copy = copied(self.alloc, key)?;
        note(self.alloc, &mut self.notes, reader, copy)?;
        split(self.alloc, &mut self.marks, key)
    }

    /// Makes the key the boundary at which a range of the reader begins, unless so high a mark stands over it already
    /// that raising the range changes nothing there.
    fn begin(&mut self, from: &Vec<u8>, reader: u64) -> Result<(), AllocError>
        ensures same { SameMarks self.old.marks self.new.marks }
        ensures kept { KeepsBoundaries self.old.marks self.new.marks }
        ensures ascending { OnOk result (IsAscending self.new.marks) }
        ensures begins { OnOk result (MayBegin reader from.now.items self.new.marks) }
    {
        if over(&self.marks, from) >= reader {
            return Ok(());
        }
        self.bound(from, reader)
    }

    /// The same of the boundary at which it ends: it isn't needed if the mark just below it is as high.
    fn end(&mut self, to: Option<&Vec<u8>>, reader: u64) -> Result<(), AllocError>
        ensures same { SameMarks self.old.marks self.new.marks }
        ensures kept { KeepsBoundaries self.old.marks self.new.marks }
        ensures ascending { IsAscending self.old.marks → IsAscending self.new.marks }
        ensures ends { OnOk result (MayEnd reader (option_map (λ t. t.now.items) to.entry) self.new.marks) }
    {
        let Some(to) = to else {
            return Ok(());
        };
        if below(&self.marks, to) >= reader {
            return Ok(());
        }
        self.bound(to, reader)
    }

    /// Makes a key a range of its own.
    fn part(&mut self, key: &Vec<u8>, reader: u64) -> Result<(), AllocError>
        ensures same { SameMarks self.old.marks self.new.marks }
        ensures kept { KeepsBoundaries self.old.marks self.new.marks }
        ensures ascending { IsAscending self.old.marks → IsAscending self.new.marks }
        ensures apart { OnOk result (IsApart self.new.marks key.now.items) }
    {
        self.bound(key, reader)?;
        let next = after(self.alloc, key)?;
        self.bound(&next, reader)
    }

    /// Makes each of these keys a range of its own.
    fn part_all(&mut self, keys: &[Vec<u8>], reader: u64) -> Result<(), AllocError>
        ensures same { SameMarks self.old.marks self.new.marks }
        ensures kept { KeepsBoundaries self.old.marks self.new.marks }
        ensures ascending { IsAscending self.old.marks → IsAscending self.new.marks }
        ensures apart { OnOk result (Each (λ k. IsApart self.new.marks k.items) keys.now) }
    {
        for key in keys {
            self.part(key, reader)?;
        }
        Ok(())
    }

    /// Like `mark`, of a range that doesn't run backwards.
    fn mark_between(
        &mut self,
        from: &Vec<u8>,
        to: Option<&Vec<u8>>,
        but: &[Vec<u8>],
        reader: u64,
    ) -> Result<(), AllocError>
        requires { IsForward from.now.items (option_map (λ t. t.now.items) to) }
        ensures marked { OnOk result ((key : List ℕ) → mark_over key self.new ≡ walked
            (record { from = from.now.items; to = option_map (λ t. t.now.items) to.entry }) (map (λ k. k.items) but.now)
            reader key (mark_over key self.old)) }
        ensures same { OnErr result ((key : List ℕ) → mark_over key self.new ≡ mark_over key self.old) }
    {
        self.part_all(but, reader)?;
        self.begin(from, reader)?;
        self.end(to, reader)?;
        let keys = lower(self.alloc, &self.marks, from, to, but, reader)?;
        raise(&mut self.marks, &keys, reader);
        Ok(())
    }

    /// A scan by the reader has walked the keys from `from` on, up to `to`, which isn't among them, or without end, but for
    /// these: its own branch's, of which nobody else has a version. It costs a look-up for each end and each of those keys,
    /// and for each boundary of the range whose mark it raises.
    ///
    /// # Errors
    /// Out of memory: no mark has changed.
    pub fn mark(
        &mut self,
        from: &[u8],
        to: Option<&[u8]>,
        but: &[Vec<u8>],
        reader: u64,
    ) -> Result<(), AllocError>
        ensures marked { OnOk result ((key : List ℕ) → mark_over key self.new ≡ walked
            (record { from = from.now; to = option_map (λ t. t.now) to.entry }) (map (λ k. k.items) but.now) reader key
            (mark_over key self.old)) }
        ensures same { OnErr result ((key : List ℕ) → mark_over key self.new ≡ mark_over key self.old) }
    {
        let from = copied(self.alloc, from)?;
        let Some(to) = to else {
            return self.mark_between(&from, None, but, reader);
        };
        let to = copied(self.alloc, to)?;
        if to <= from {
            return Ok(());
        }
        self.mark_between(&from, Some(&to), but, reader)
    }

    /// Drops of these boundaries those that part nothing above the low water.
    fn drain(&mut self, due: &[Vec<u8>], low: u64)
        ensures same { SameAbove low self.old.marks self.new.marks }
        ensures notes { self.new.notes ≡ self.old.notes }
    {
        for boundary in due {
            join(&mut self.marks, boundary, low);
        }
    }

    /// No scan at or below `low` matters any more: drops the boundaries that part nothing above it. It costs what it
    /// drops, and takes no memory.
    pub fn low_water(&mut self, low: u64)
        ensures same { (key : List ℕ) → max low (mark_over key self.new) ≡ max low (mark_over key self.old) }
        ensures drained { IsDrained low self.new.notes }
    {
        while let Some(noted) = next_due(&mut self.notes, low) {
            self.drain(&noted, low);
        }
    }
}

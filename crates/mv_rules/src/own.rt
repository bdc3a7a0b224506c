ghost use Rattle.std.specs.Prelude.{◌≡◌, [], ◌∷◌, ◌++◌, ◌-◌, ◌<◌, take, length, IfSome, IfNone, OnOk, OnErr};
ghost use Rattle.mv_rules.specs.Noted.{AddsWritten, AddsRead, MovesDecided};
ghost use Rattle.mv_rules.specs.Own.{own_in, OwnStays, OwnBecomes};
ghost use Rattle.mv_rules.specs.Tidy.{due, not_due};

use crate::own_key::OwnKey;
use std::alloc::{AllocError, Global};
use std::collections::BTreeMap;
use std::mem;

/// A key that a branch has written, and the index of its chain; or one that it has read, with 0.
#[derive(Debug, Drop)]
pub struct Own {
    pub key: OwnKey,
    pub index: usize,
}

/// What is kept of a branch until the low water has passed it.
#[derive(Debug, Drop)]
pub(crate) struct Notes {
    /// The keys that it has written, while it is undecided.
    pub(crate) written: Vec<Own>,
    /// The keys that it had written when it was decided.
    pub(crate) decided: Vec<Own>,
    /// The keys that nobody had written when it read them.
    pub(crate) read: Vec<Own>,
}

/// Notes a key that the branch has written.
pub(crate) fn note(
    alloc: Global,
    notes: &mut BTreeMap<u64, Notes>,
    ts: u64,
    own: Own,
) -> Result<(), AllocError>
    ensures ok { OnOk result (OwnBecomes ts (own_in ts notes.old ++ own ∷ []) notes.old notes.new) }
    ensures noted { OnOk result (AddsWritten ts own notes.old notes.new) }
    ensures err { OnErr result (OwnStays notes.old notes.new) }
{
    if let Some(noted) = notes.get_mut(&ts) {
        noted.written.push(own)?;
        return Ok(());
    }
    let mut written = Vec::new(alloc);
    written.push(own)?;
    let noted = Notes {
        written,
        decided: Vec::new(alloc),
        read: Vec::new(alloc),
    };
    notes.insert(ts, noted)?;
    Ok(())
}

/// Notes a key that nobody had written when the branch read it.
pub(crate) fn note_read(
    alloc: Global,
    notes: &mut BTreeMap<u64, Notes>,
    ts: u64,
    own: Own,
) -> Result<(), AllocError>
    ensures same { OwnStays notes.old notes.new }
    ensures noted { OnOk result (AddsRead ts own notes.old notes.new) }
{
    if let Some(noted) = notes.get_mut(&ts) {
        noted.read.push(own)?;
        return Ok(());
    }
    let mut read = Vec::new(alloc);
    read.push(own)?;
    let noted = Notes {
        written: Vec::new(alloc),
        decided: Vec::new(alloc),
        read,
    };
    notes.insert(ts, noted)?;
    Ok(())
}

/// Takes the branch's last note back.
pub(crate) fn unnote(notes: &mut BTreeMap<u64, Notes>, ts: u64)
    ensures { OwnBecomes ts (take (length (own_in ts notes.old) - 1) (own_in ts notes.old)) notes.old notes.new }
{
    if let Some(noted) = notes.get_mut(&ts) {
        noted.written.pop();
    }
}

/// How many keys the branch has written.
pub(crate) fn count(notes: &BTreeMap<u64, Notes>, ts: u64) -> usize
    ensures { result ≡ length (own_in ts notes.now) }
{
    match notes.get(&ts) {
        Some(noted) => noted.written.len(),
        None => 0,
    }
}

/// The branch is decided: the keys that it has written are kept until the low water has passed it.
pub(crate) fn keep_decided(alloc: Global, notes: &mut BTreeMap<u64, Notes>, ts: u64)
    ensures others { OwnBecomes ts [] notes.old notes.new }
    ensures noted { 0 < length (own_in ts notes.old) → MovesDecided ts notes.old notes.new }
{
    if let Some(noted) = notes.get_mut(&ts) {
        noted.decided = mem::replace(&mut noted.written, Vec::new(alloc));
    }
}

/// Takes out what is kept of the branch with the least timestamp, if the low water has passed it and it is decided.
pub(crate) fn next_due(notes: &mut BTreeMap<u64, Notes>, low: u64) -> Option<Notes>
    ensures same { OwnStays notes.old notes.new }
    ensures fewer { IfSome result (λ _. length notes.new.entries < length notes.old.entries) }
    ensures due { IfSome result (λ n. due low notes.old.entries
        ≡ n.decided.items ++ n.read.items ++ due low notes.new.entries) }
    ensures later { IfSome result (λ _. not_due low notes.old.entries ≡ not_due low notes.new.entries) }
    ensures none { IfNone result (due low notes.old.entries ≡ []) }
    ensures left { IfNone result (notes.new.entries ≡ not_due low notes.old.entries) }
{
    let is_due = match notes.first_key_value() {
        Some((ts, noted)) => *ts <= low && noted.written.is_empty(),
        None => false,
    };
    if !is_due {
        return None;
    }
    match notes.pop_first() {
        Some((_, noted)) => Some(noted),
        None => None,
    }
}

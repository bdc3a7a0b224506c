//! The record of a disk in memory: its writes and syncs.
ghost use Rattle.std.specs.Prelude.{◌≡◌, ◌-◌, ◌≤◌, ◌++◌, ◌∷◌, [], List, ℕ, length, take, drop, OnOk, OnErr, IfOk};
ghost use Rattle.xa_disk.specs.{declared.call.Call.TheVariants.Write, declared.call.Call.TheVariants.Sync, Replay.replay};
ghost use Rattle.xa_disk.specs.Keeping.{unsynced, put_front, put_fronts, kept};

use crate::bytes::put_bytes;
use std::alloc::{AllocError, Global};

/// A device call that had an effect.
#[derive(Debug, Drop)]
pub enum Call {
    /// These bytes were written at this offset.
    Write(u64, Vec<u8>),
    Sync,
}

pub(crate) fn note_write(
    calls: &mut Vec<Call>,
    alloc: Global,
    at: u64,
    from: &[u8],
) -> Result<(), AllocError>
    ensures ok { OnOk result ((v : _) × (v.items ≡ from.now) × (calls.new.items ≡ calls.old.items ++ Write at v ∷ [])) }
    ensures err { OnErr result (calls.new.items ≡ calls.old.items) }
{
    calls.push(Call::Write(at, Vec::from_slice(alloc, from)?))?;
    Ok(())
}

pub(crate) fn note_sync(calls: &mut Vec<Call>) -> Result<(), AllocError>
    ensures ok { OnOk result (calls.new.items ≡ calls.old.items ++ Sync ∷ []) }
    ensures err { OnErr result (calls.new.items ≡ calls.old.items) }
{
    calls.push(Call::Sync)?;
    Ok(())
}

// How many calls there are up to the last sync, with it.
fn stable_end(calls: &[Call]) -> usize
    ensures within { result ≤ length calls.now }
    ensures stable { (first : List ℕ) → (replay first calls.now).stable ≡ (replay first (take result calls.now)).seen }
    ensures behind { unsynced [] calls.now ≡ drop result calls.now }
{
    let mut end = 0;
    for (i, call) in calls.iter().enumerate() {
        match call {
            Call::Write(_, _) => {}
            Call::Sync => end = i + 1,
        }
    }
    end
}

// What the calls leave to a read.
fn replayed(alloc: Global, first: &[u8], calls: &[Call]) -> Result<Vec<u8>, AllocError>
    ensures { IfOk result (λ bytes. bytes.items ≡ (replay first.now calls.now).seen) }
{
    let mut bytes = Vec::from_slice(alloc, first)?;
    for call in calls {
        match call {
            Call::Write(at, from) => put_bytes(&mut bytes, *at, from)?,
            Call::Sync => {}
        }
    }
    Ok(bytes)
}

// Writes the first k bytes of a range, or all of it, and returns how many may be written after it.
fn write_front(bytes: &mut Vec<u8>, at: u64, from: &[u8], k: u64) -> Result<u64, AllocError>
    ensures left { IfOk result (λ left. left ≡ k - length from.now) }
    ensures front { OnOk result (bytes.new.items ≡ put_front k bytes.old.items at from.now) }
{
    if k == 0 {
        return Ok(0);
    }
    let count = (from.len() as u64).min(k) as usize;
    put_bytes(bytes, at, &from[..count])?;
    Ok(k.saturating_sub(from.len() as u64))
}

fn write_fronts(bytes: &mut Vec<u8>, calls: &[Call], k: u64) -> Result<(), AllocError>
    ensures { OnOk result (bytes.new.items ≡ put_fronts k bytes.old.items calls.now) }
{
    let mut left = k;
    for call in calls {
        match call {
            Call::Write(at, from) => left = write_front(bytes, *at, from, left)?,
            Call::Sync => {}
        }
    }
    Ok(())
}

// What a crash leaves that keeps the first k of the bytes written since the last sync.
pub(crate) fn kept(
    alloc: Global,
    first: &[u8],
    calls: &[Call],
    k: u64,
) -> Result<Vec<u8>, AllocError>
    ensures { IfOk result (λ bytes. bytes.items ≡ kept first.now calls.now k) }
{
    let end = stable_end(calls);
    let mut bytes = replayed(alloc, first, &calls[..end])?;
    write_fronts(&mut bytes, &calls[end..], k)?;
    Ok(bytes)
}

ghost use Rattle.std.specs.Prelude.{◌≡◌, [], Err, IfOk, option_map, is_some, IsSome};
ghost use Rattle.xa_record.specs.{declared.fault.RecordFault.TheVariants.Memory, declared.record.Record.Record};
ghost use Rattle.xa_record.specs.declared.record.Record.TheVariants.{Prepared, Committed, Base, Held};
ghost use Rattle.xa_record.specs.{Answers.Answers, Answers.Gives, Limits.IsRecord};
ghost use Rattle.xa_record.specs.Reading.{xid_front, last_direction, next_key, left_at, write_at, writes_at, head_at};
ghost use Rattle.xa_record.specs.Reading.{stamped_at, opened_at, branch_at, directed_at, forgotten_at, record_at};
ghost use Rattle.xa_record.specs.Spelling.{spelled};

use crate::fault::RecordFault;
use crate::record::{Record, Writes};
use std::alloc::{AllocError, Global};
use xa_bytes::{take_u16, take_u32, take_u64};
use xa_codes::{Bytes, Direction, Write};
use xa_fields::{take_direction, take_key, take_value, take_xid};
use xa_limits::MOST_WRITES;
use xa_xid::Xid;

#[tactic(auto, unfolding(crate::specs::Reading::xid_front))]
fn xid_of(bytes: &[u8]) -> Option<(Xid, &[u8])>
    ensures { option_map (λ x. (x.0, x.1.now)) result ≡ xid_front bytes.now }
{
    take_xid(bytes).ok()
}

#[tactic(auto, unfolding(crate::specs::Reading::last_direction))]
fn direction_of(bytes: &[u8]) -> Option<Direction>
    ensures { result ≡ last_direction bytes.now }
{
    let (direction, rest) = take_direction(bytes).ok()?;
    if rest.is_empty() {
        Some(direction)
    } else {
        None
    }
}

#[tactic(auto, unfolding(crate::specs::Reading::next_key))]
fn key_of<'a>(previous: &[u8], bytes: &'a [u8]) -> Option<(&'a [u8], &'a [u8])>
    ensures { option_map (λ x. (x.0.now, x.1.now)) result ≡ next_key previous.now bytes.now }
{
    let (key, rest) = take_key(bytes).ok()?;
    if previous.cmp(key).is_lt() {
        Some((key, rest))
    } else {
        None
    }
}

#[tactic(auto, unfolding(crate::specs::Reading::left_at))]
fn value_of(bytes: &[u8]) -> Option<(Option<&[u8]>, &[u8])>
    ensures { option_map (λ x. (option_map (λ v. v.now) x.0, x.1.now)) result ≡ left_at bytes.now }
{
    match bytes {
        [0, rest @ ..] => Some((None, rest)),
        [1, rest @ ..] => {
            let (value, rest) = take_value(rest).ok()?;
            Some((Some(value), rest))
        }
        _ => None,
    }
}

/// One write whose key is above the one before it, and the bytes after it.
#[tactic(auto, unfolding(crate::specs::Reading::write_at))]
fn write_of<'a>(previous: &[u8], bytes: &'a [u8]) -> Option<(&'a [u8], Option<&'a [u8]>, &'a [u8])>
    ensures { option_map (λ x. (record { key = x.0.now; value = option_map (λ v. v.now) x.1 }, x.2.now)) result
        ≡ write_at previous.now bytes.now }
{
    let (key, rest) = key_of(previous, bytes)?;
    let (value, rest) = value_of(rest)?;
    Some((key, value, rest))
}

/// Whether the bytes are `count` writes, ascending by key, and nothing else.
fn are_writes(count: u16, bytes: &[u8]) -> bool
    ensures { result ≡ is_some (writes_at count [] bytes.now) }
{
    let mut previous: &[u8] = &[];
    let mut rest = bytes;
    for _ in 0..count {
        let Some((key, _, after)) = write_of(previous, rest) else {
            return false;
        };
        previous = key;
        rest = after;
    }
    rest.is_empty()
}

fn writes_of(alloc: Global, count: u16, bytes: &[u8]) -> Result<Writes, RecordFault>
    requires { IsSome (writes_at count [] bytes.now) }
    ensures { Answers result (writes_at count [] bytes.now) }
{
    let mut writes = Vec::with_capacity(alloc, usize::from(count))?;
    let mut previous: &[u8] = &[];
    let mut rest = bytes;
    for _ in 0..count {
        let Some((key, value, after)) = write_of(previous, rest) else {
            return Err(RecordFault::Malformed);
        };
        writes.push(made(alloc, key, value)?)?;
        previous = key;
        rest = after;
    }
    Ok(Writes::new(writes))
}

fn made(alloc: Global, key: &[u8], value: Option<&[u8]>) -> Result<Write, AllocError>
    ensures { IfOk result (λ w. w ≡ record { key = key.now; value = option_map (λ v. v.now) value.entry }) }
{
    let key = Bytes::from_slice(alloc, key)?;
    let value = match value {
        None => None,
        Some(value) => Some(Bytes::from_slice(alloc, value)?),
    };
    Ok(Write { key, value })
}

/// The timestamp, the number of writes, and the bytes of the writes.
#[tactic(auto, unfolding(crate::specs::Reading::head_at))]
fn head_of(bytes: &[u8]) -> Option<(u64, u16, &[u8])>
    ensures { option_map (λ x. (x.0, x.1, x.2.now)) result ≡ head_at bytes.now }
{
    let (timestamp, rest) = take_u64(bytes)?;
    let (count, rest) = take_u16(rest)?;
    if (1..=MOST_WRITES).contains(&usize::from(count)) {
        Some((timestamp, count, rest))
    } else {
        None
    }
}

/// A timestamp and the writes at it.
#[tactic(auto, unfolding(crate::specs::Reading::stamped_at))]
fn stamped_of(alloc: Global, bytes: &[u8]) -> Result<(u64, Writes), RecordFault>
    ensures { Answers result (stamped_at bytes.now) }
{
    let Some((timestamp, count, rest)) = head_of(bytes) else {
        return Err(RecordFault::Malformed);
    };
    if !are_writes(count, rest) {
        return Err(RecordFault::Malformed);
    }
    let writes = writes_of(alloc, count, rest)?;
    Ok((timestamp, writes))
}

#[tactic(auto, unfolding(crate::specs::Reading::branch_at))]
fn branch_of(alloc: Global, bytes: &[u8]) -> Result<(Xid, u64, Writes), RecordFault>
    ensures { Answers result (branch_at bytes.now) }
{
    let (xid, rest) = xid_of(bytes).ok_or(RecordFault::Malformed)?;
    let (timestamp, writes) = stamped_of(alloc, rest)?;
    Ok((xid, timestamp, writes))
}

#[tactic(auto, unfolding(crate::specs::Reading::opened_at))]
fn opened(bytes: &[u8]) -> Option<Record>
    ensures { result ≡ opened_at bytes.now }
{
    let (boot, rest) = take_u32(bytes)?;
    if boot >= 1 && rest.is_empty() {
        Some(Record::Opened { boot })
    } else {
        None
    }
}

#[tactic(auto, unfolding(crate::specs::Reading::directed_at))]
fn directed(bytes: &[u8]) -> Option<(Xid, Direction)>
    ensures { result ≡ directed_at bytes.now }
{
    let (xid, rest) = xid_of(bytes)?;
    Some((xid, direction_of(rest)?))
}

#[tactic(auto, unfolding(crate::specs::Reading::forgotten_at))]
fn forgotten(bytes: &[u8]) -> Option<Xid>
    ensures { result ≡ forgotten_at bytes.now }
{
    let (xid, rest) = xid_of(bytes)?;
    if rest.is_empty() { Some(xid) } else { None }
}

fn prepared(alloc: Global, bytes: &[u8]) -> Result<Record, RecordFault>
    ensures { Answers result (option_map (λ b. Prepared b.0 b.1 b.2) (branch_at bytes.now)) }
{
    let (xid, timestamp, writes) = branch_of(alloc, bytes)?;
    Ok(Record::Prepared {
        xid,
        timestamp,
        writes,
    })
}

fn committed(alloc: Global, bytes: &[u8]) -> Result<Record, RecordFault>
    ensures { Answers result (option_map (λ b. Committed b.0 b.1 b.2) (branch_at bytes.now)) }
{
    let (xid, timestamp, writes) = branch_of(alloc, bytes)?;
    Ok(Record::Committed {
        xid,
        timestamp,
        writes,
    })
}

fn base(alloc: Global, bytes: &[u8]) -> Result<Record, RecordFault>
    ensures { Answers result (option_map (λ s. Base s.0 s.1) (stamped_at bytes.now)) }
{
    let (timestamp, writes) = stamped_of(alloc, bytes)?;
    Ok(Record::Base { timestamp, writes })
}

fn held(alloc: Global, bytes: &[u8]) -> Result<Record, RecordFault>
    ensures { Answers result (option_map (λ b. Held b.0 b.1 b.2) (branch_at bytes.now)) }
{
    let (xid, timestamp, writes) = branch_of(alloc, bytes)?;
    Ok(Record::Held {
        xid,
        timestamp,
        writes,
    })
}

/// By the kind. Only what has writes takes memory.
#[tactic(auto, unfolding(crate::specs::Reading::record_at))]
fn body(alloc: Global, bytes: &[u8]) -> Result<Record, RecordFault>
    ensures { Answers result (record_at bytes.now) }
{
    match bytes {
        [1, rest @ ..] => opened(rest).ok_or(RecordFault::Malformed),
        [2, rest @ ..] => prepared(alloc, rest),
        [3, rest @ ..] => committed(alloc, rest),
        [4, rest @ ..] => {
            let (xid, direction) = directed(rest).ok_or(RecordFault::Malformed)?;
            Ok(Record::Completed { xid, direction })
        }
        [5, rest @ ..] => {
            let (xid, direction) = directed(rest).ok_or(RecordFault::Malformed)?;
            Ok(Record::Decided { xid, direction })
        }
        [6, rest @ ..] => {
            let xid = forgotten(rest).ok_or(RecordFault::Malformed)?;
            Ok(Record::Forgotten { xid })
        }
        [7, rest @ ..] => base(alloc, rest),
        [8, rest @ ..] => held(alloc, rest),
        [9, rest @ ..] => {
            let (xid, direction) = directed(rest).ok_or(RecordFault::Malformed)?;
            Ok(Record::Known { xid, direction })
        }
        _ => Err(RecordFault::Malformed),
    }
}

/// The record that all of the bytes are the body of. Memory is needed only if they are one.
pub fn read(alloc: Global, bytes: &[u8]) -> Result<Record, RecordFault>
    // What is read has this spelling.
    ensures found { IfOk result (λ r. IsRecord r × (bytes.now ≡ spelled r)) }
    // What has this spelling is read, unless memory runs out.
    ensures only { (r : Record) → IsRecord r → bytes.now ≡ spelled r → Gives result r }
    // Memory is needed only for what spells a record.
    ensures memory { result ≡ Err Memory → (r : Record) × IsRecord r × (bytes.now ≡ spelled r) }
    ensures exact { Answers result (record_at bytes.now) }
{
    body(alloc, bytes)
}

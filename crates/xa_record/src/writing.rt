ghost use Rattle.arrayvec.specs.ArrayVec.{array_vec_len};
ghost use Rattle.std.specs.Prelude.{◌≡◌, ◌<◌, [], ◌∷◌, ◌++◌, flat_map, IfOk, OnOk};
ghost use Rattle.xa_record.specs.{Limits.IsRecord, declared.record.Record.TheVariants.Base, declared.record.Record.TheVariants.Held};
ghost use Rattle.xa_record.specs.Spelling.{spelled, branch_bytes, stamped_bytes, write_bytes, left_bytes};
ghost use Rattle.xa_record.specs.Small.{IsSmall};
ghost use Rattle.xa_limits.specs.declared.TheConstants.{MOST_SMALL};
ghost use Rattle.xa_xid.specs.Spelling.{bytes_of};

use crate::record::{Record, Writes};
use arrayvec::ArrayVec;
use std::alloc::{AllocError, Global};
use xa_bytes::put_u64;
use xa_codes::{Bytes, Write};
use xa_fields::{put_length, put_short, put_value, put_xid};
use xa_limits::{MOST_SMALL, XID_BYTES};
use xa_xid::Xid;

/// What stands in a body before its writes: the kind, a timestamp and their number.
const BEFORE_WRITES: usize = 11;

/// What an XID has besides its two parts.
const AROUND_PARTS: usize = 6;

const BESIDE_KEY: usize = 2;

const BEFORE_VALUE: usize = 2;

/// The body of a record within its limits, as every record that was read is. For another the lengths would be cut.
pub fn write(alloc: Global, record: &Record) -> Result<Vec<u8>, AllocError>
    requires { IsRecord «record».now }
    ensures { IfOk result (λ v. v.items ≡ spelled «record».now) }
{
    match record {
        Record::Prepared {
            xid,
            timestamp,
            writes,
        } => branch(alloc, 2, xid, *timestamp, writes),
        Record::Committed {
            xid,
            timestamp,
            writes,
        } => branch(alloc, 3, xid, *timestamp, writes),
        Record::Base { timestamp, writes } => base(alloc, *timestamp, writes),
        Record::Held {
            xid,
            timestamp,
            writes,
        } => branch(alloc, 8, xid, *timestamp, writes),
        _ => write_short(alloc, record),
    }
}

/// The body of a record without writes, as `write_small` has it.
pub fn write_short(alloc: Global, record: &Record) -> Result<Vec<u8>, AllocError>
    requires { IsSmall «record».now }
    ensures { IfOk result (λ v. v.items ≡ spelled «record».now) }
{
    let mut small: ArrayVec<u8, MOST_SMALL> = ArrayVec::new();
    write_small(record, &mut small);
    small.as_slice().to_vec(alloc)
}

/// Replaces what the vector holds by the body of a record without writes. Takes no memory.
pub fn write_small(record: &Record, out: &mut ArrayVec<u8, MOST_SMALL>)
    requires { IsSmall «record».now }
    ensures { out.new.items ≡ spelled «record».now }
{
    out.clear();
    match record {
        Record::Opened { boot } => {
            out.push(1);
            let _ = out.try_extend_from_slice(&boot.to_be_bytes());
        }
        Record::Completed { xid, direction } => {
            put_named(out, 4, xid);
            out.push(*direction as u8);
        }
        Record::Decided { xid, direction } => {
            put_named(out, 5, xid);
            out.push(*direction as u8);
        }
        Record::Forgotten { xid } => put_named(out, 6, xid),
        Record::Known { xid, direction } => {
            put_named(out, 9, xid);
            out.push(*direction as u8);
        }
        Record::Prepared { .. }
        | Record::Committed { .. }
        | Record::Base { .. }
        | Record::Held { .. } => unreachable!(),
    }
}

/// The body of a base, whose writes are borrowed: that of `Record::Base`.
pub fn write_base(alloc: Global, timestamp: u64, writes: &Writes) -> Result<Vec<u8>, AllocError>
    ensures { IfOk result (λ v. v.items ≡ spelled (Base timestamp writes.now)) }
{
    base(alloc, timestamp, writes)
}

/// The body of a held branch, whose name and writes are borrowed: that of `Record::Held`.
pub fn write_held(
    alloc: Global,
    xid: &Xid,
    timestamp: u64,
    writes: &Writes,
) -> Result<Vec<u8>, AllocError>
    ensures { IfOk result (λ v. v.items ≡ spelled (Held xid.now timestamp writes.now)) }
{
    branch(alloc, 8, xid, timestamp, writes)
}

fn put_named(out: &mut ArrayVec<u8, MOST_SMALL>, kind: u8, xid: &Xid)
    requires { out.old.items ≡ [] }
    ensures items { out.new.items ≡ kind ∷ bytes_of xid.now }
    ensures len { array_vec_len out.new < MOST_SMALL }
{
    let mut bytes: ArrayVec<u8, XID_BYTES> = ArrayVec::new();
    xid.put(&mut bytes);
    out.push(kind);
    let _ = out.try_extend_from_slice(bytes.as_slice());
}

fn branch(
    alloc: Global,
    kind: u8,
    xid: &Xid,
    timestamp: u64,
    writes: &Writes,
) -> Result<Vec<u8>, AllocError>
    ensures { IfOk result (λ v. v.items ≡ kind ∷ branch_bytes xid.now timestamp writes.now) }
{
    let len = branch_len(xid, writes.as_slice());
    let mut out = Vec::with_capacity(alloc, len)?;
    out.push(kind)?;
    put_xid(&mut out, xid)?;
    put_stamped(&mut out, timestamp, writes)?;
    Ok(out)
}

fn base(alloc: Global, timestamp: u64, writes: &Writes) -> Result<Vec<u8>, AllocError>
    ensures { IfOk result (λ v. v.items ≡ 7 ∷ stamped_bytes timestamp writes.now) }
{
    let mut out = Vec::with_capacity(alloc, stamped_len(writes.as_slice()))?;
    out.push(7)?;
    put_stamped(&mut out, timestamp, writes)?;
    Ok(out)
}

fn put_stamped(out: &mut Vec<u8>, timestamp: u64, writes: &Writes) -> Result<(), AllocError>
    ensures { OnOk result (out.new.items ≡ out.old.items ++ stamped_bytes timestamp writes.now) }
{
    let writes = writes.as_slice();
    put_u64(out, timestamp)?;
    put_length(out, writes.len())?;
    put_writes(out, writes)
}

fn put_writes(out: &mut Vec<u8>, writes: &[Write]) -> Result<(), AllocError>
    ensures { OnOk result (out.new.items ≡ out.old.items ++ flat_map write_bytes writes.now) }
{
    for write in writes {
        put_write(out, write)?;
    }
    Ok(())
}

fn put_write(out: &mut Vec<u8>, write: &Write) -> Result<(), AllocError>
    ensures { OnOk result (out.new.items ≡ out.old.items ++ write_bytes write.now) }
{
    put_short(out, write.key.as_slice())?;
    put_left(out, &write.value)
}

fn put_left(out: &mut Vec<u8>, value: &Option<Bytes>) -> Result<(), AllocError>
    ensures { OnOk result (out.new.items ≡ out.old.items ++ left_bytes value.now) }
{
    match value {
        None => Ok(out.push(0)?),
        Some(value) => {
            out.push(1)?;
            put_value(out, value.as_slice())
        }
    }
}

/// How many bytes the body of a base with these writes has. A wrong length only costs memory: the vector grows.
fn stamped_len(writes: &[Write]) -> usize {
    writes.iter().fold(
        BEFORE_WRITES,
        |len, write| len.saturating_add(write_len(write)),
    )
}

/// How many bytes the body of a branch of this name with these writes has.
fn branch_len(xid: &Xid, writes: &[Write]) -> usize {
    let parts = xid.gtrid().len().saturating_add(xid.bqual().len());
    stamped_len(writes)
        .saturating_add(AROUND_PARTS)
        .saturating_add(parts)
}

fn write_len(write: &Write) -> usize {
    let key = write.key.as_slice().len().saturating_add(BESIDE_KEY);
    match &write.value {
        Some(value) => key
            .saturating_add(BEFORE_VALUE)
            .saturating_add(value.as_slice().len()),
        None => key,
    }
}

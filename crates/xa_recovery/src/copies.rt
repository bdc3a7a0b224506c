ghost use Rattle.std.specs.Prelude.{◌≡◌, IfOk};

use std::alloc::{AllocError, Global};
use xa_codes::{Bytes, Write};
use xa_record::{Record, Writes};

fn value_copied(alloc: Global, value: &Option<Bytes>) -> Result<Option<Bytes>, AllocError>
    ensures { IfOk result (λ v. v ≡ value.now) }
{
    match value {
        Some(bytes) => Ok(Some(bytes.copied(alloc)?)),
        None => Ok(None),
    }
}

fn write_copied(alloc: Global, write: &Write) -> Result<Write, AllocError>
    ensures { IfOk result (λ w. w ≡ write.now) }
{
    let key = write.key.copied(alloc)?;
    let value = value_copied(alloc, &write.value)?;
    Ok(Write { key, value })
}

fn list_copied(alloc: Global, writes: &[Write]) -> Result<Vec<Write>, AllocError>
    ensures { IfOk result (λ v. v.items ≡ writes.now) }
{
    let mut copy = Vec::new(alloc);
    for write in writes {
        copy.push(write_copied(alloc, write)?)?;
    }
    Ok(copy)
}

/// A copy of writes.
pub(crate) fn writes_copied(alloc: Global, writes: &Writes) -> Result<Writes, AllocError>
    ensures { IfOk result (λ ws. ws ≡ writes.now) }
{
    Ok(Writes::new(list_copied(alloc, writes.as_slice())?))
}

/// A copy of a record.
pub(crate) fn record_copied(alloc: Global, said: &Record) -> Result<Record, AllocError>
    ensures { IfOk result (λ r. r ≡ said.now) }
{
    Ok(match said {
        Record::Opened { boot } => Record::Opened { boot: *boot },
        Record::Prepared {
            xid,
            timestamp,
            writes,
        } => Record::Prepared {
            xid: xid.copied(),
            timestamp: *timestamp,
            writes: writes_copied(alloc, writes)?,
        },
        Record::Committed {
            xid,
            timestamp,
            writes,
        } => Record::Committed {
            xid: xid.copied(),
            timestamp: *timestamp,
            writes: writes_copied(alloc, writes)?,
        },
        Record::Completed { xid, direction } => Record::Completed {
            xid: xid.copied(),
            direction: *direction,
        },
        Record::Decided { xid, direction } => Record::Decided {
            xid: xid.copied(),
            direction: *direction,
        },
        Record::Forgotten { xid } => Record::Forgotten { xid: xid.copied() },
        Record::Base { timestamp, writes } => Record::Base {
            timestamp: *timestamp,
            writes: writes_copied(alloc, writes)?,
        },
        Record::Held {
            xid,
            timestamp,
            writes,
        } => Record::Held {
            xid: xid.copied(),
            timestamp: *timestamp,
            writes: writes_copied(alloc, writes)?,
        },
        Record::Known { xid, direction } => Record::Known {
            xid: xid.copied(),
            direction: *direction,
        },
    })
}

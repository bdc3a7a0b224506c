ghost use Rattle.std.specs.Prelude.{◌≡◌, ◌∷◌, [], map, IfOk, OnOk};
ghost use Rattle.xa_record.specs.{Spelling.spelled, declared.record.Record.TheVariants.Opened};
ghost use Rattle.xa_model.specs.Fold.{snapshot};
ghost use Rattle.xa_recovery.specs.Snapshots.{Puts, base_body, held_body, known_body};

use crate::durable::{Durable, InDoubt};
use std::alloc::{AllocError, Global};
use std::collections::BTreeMap;
use xa_codes::Direction;
use xa_record::{Record, Writes, write_base, write_held, write_short};
use xa_shared::SharedBytes;
use xa_xid::Xid;

/// Puts a body after the others, in no more memory than it has bytes: all are kept until the last one is written.
fn put(alloc: Global, bodies: &mut Vec<SharedBytes>, mut body: Vec<u8>) -> Result<(), AllocError>
    ensures { OnOk result (Puts bodies.old (body.items ∷ []) bodies.new) }
{
    body.shrink_to_fit();
    bodies.push(SharedBytes::new(alloc, body)?)?;
    Ok(())
}

/// Puts the body of a committed branch after the others.
///
/// # Errors
/// Out of memory.
pub fn put_base(
    alloc: Global,
    bodies: &mut Vec<SharedBytes>,
    timestamp: u64,
    writes: &Writes,
) -> Result<(), AllocError>
    ensures { OnOk result (Puts bodies.old (base_body (timestamp, writes.now) ∷ []) bodies.new) }
{
    put(alloc, bodies, write_base(alloc, timestamp, writes)?)
}

fn put_committed(
    alloc: Global,
    bodies: &mut Vec<SharedBytes>,
    committed: BTreeMap<u64, Writes>,
) -> Result<(), AllocError>
    ensures { OnOk result (Puts bodies.old (map base_body committed.entries) bodies.new) }
{
    for (timestamp, writes) in committed {
        put_base(alloc, bodies, timestamp, &writes)?;
    }
    Ok(())
}

/// Puts the body of a branch in doubt after the others.
///
/// # Errors
/// Out of memory.
pub fn put_held(
    alloc: Global,
    bodies: &mut Vec<SharedBytes>,
    timestamp: u64,
    branch: &InDoubt,
) -> Result<(), AllocError>
    ensures { OnOk result (Puts bodies.old (held_body (timestamp, branch.now) ∷ []) bodies.new) }
{
    let body = write_held(alloc, &branch.xid, timestamp, &branch.writes)?;
    put(alloc, bodies, body)
}

fn put_prepared(
    alloc: Global,
    bodies: &mut Vec<SharedBytes>,
    prepared: BTreeMap<u64, InDoubt>,
) -> Result<(), AllocError>
    ensures { OnOk result (Puts bodies.old (map held_body prepared.entries) bodies.new) }
{
    for (timestamp, branch) in prepared {
        put_held(alloc, bodies, timestamp, &branch)?;
    }
    Ok(())
}

fn put_known(
    alloc: Global,
    bodies: &mut Vec<SharedBytes>,
    xid: &Xid,
    direction: Direction,
) -> Result<(), AllocError>
    ensures { OnOk result (Puts bodies.old (known_body (xid.now, direction) ∷ []) bodies.new) }
{
    let xid = xid.copied();
    let body = write_short(alloc, &Record::Known { xid, direction })?;
    put(alloc, bodies, body)
}

/// Puts the bodies of what the operator completed after the others.
///
/// # Errors
/// Out of memory.
pub fn put_decided(
    alloc: Global,
    bodies: &mut Vec<SharedBytes>,
    decided: &BTreeMap<Xid, Direction>,
) -> Result<(), AllocError>
    ensures { OnOk result (Puts bodies.old (map known_body decided.now.entries) bodies.new) }
{
    for (xid, direction) in decided {
        put_known(alloc, bodies, xid, *direction)?;
    }
    Ok(())
}

/// The body that a snapshot of the boot of this number begins with, and room for the others: those of the committed
/// branches (`put_base`), of the branches in doubt (`put_held`) and of what the operator completed (`put_decided`), each
/// ascending. By these what lasts can be freed branch by branch.
///
/// # Errors
/// Out of memory.
pub fn begin_snapshot(
    alloc: Global,
    durable: &Durable,
    boot: u32,
) -> Result<Vec<SharedBytes>, AllocError>
    ensures { IfOk result (λ v. v.items ≡ spelled (Opened boot) ∷ []) }
{
    let branches = durable
        .committed
        .len()
        .saturating_add(durable.prepared.len());
    let others = durable.decided.len().saturating_add(1);
    let mut bodies = Vec::with_capacity(alloc, branches.saturating_add(others))?;
    let opened = write_short(alloc, &Record::Opened { boot })?;
    put(alloc, &mut bodies, opened)?;
    Ok(bodies)
}

/// The bodies of the records that a new file begins with, in the boot of this number: the boot, the committed branches,
/// those in doubt, and what the operator completed. Writes are spelled where they are, and not copied; each branch is
/// freed once it is spelled. The boot stands first: its number is the file's generation, and the manager's step knows it
/// as the one record that a restart appends. Of a log with a record they take no more room than its own records, so a
/// restart has the room. They are within the limits of records if those were that the durable value comes from, as
/// all are that were read, and the boot is above 0 (`lasting` of `xa_model`); for others the lengths are cut.
///
/// # Errors
/// Out of memory.
pub fn snapshot(alloc: Global, durable: Durable, boot: u32) -> Result<Vec<SharedBytes>, AllocError>
    ensures { IfOk result (λ v. v.items ≡ map spelled (snapshot durable boot)) }
{
    let mut bodies = begin_snapshot(alloc, &durable, boot)?;
    let (committed, prepared, decided) = durable.into_parts();
    put_committed(alloc, &mut bodies, committed)?;
    put_prepared(alloc, &mut bodies, prepared)?;
    put_decided(alloc, &mut bodies, &decided)?;
    Ok(bodies)
}

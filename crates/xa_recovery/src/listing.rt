ghost use Rattle.std.specs.Prelude.{◌≡◌, IfOk, OnOk, map, take, option_copied};
ghost use Rattle.std.specs.BTreeMap.{keys, values};
ghost use Rattle.xa_model.specs.Listed.{list_after};
ghost use Rattle.xa_recovery.specs.Listing.{with_above, with_all_above};

use crate::durable::{Durable, InDoubt};
use std::alloc::{AllocError, Global};
use std::collections::{BTreeMap, BTreeSet};
use xa_codes::Direction;
use xa_xid::Xid;

/// Adds an XID to the set, if it is above the given one.
fn add_xid(above: &mut BTreeSet<Xid>, xid: &Xid, after: Option<&Xid>) -> Result<(), AllocError>
    ensures { OnOk result (above.new.keys ≡ with_above (option_copied after.entry) above.old.keys xid.now) }
{
    let passes = match after {
        Some(after) => *after < *xid,
        None => true,
    };
    if passes {
        above.insert(xid.copied())?;
    }
    Ok(())
}

fn add_prepared(
    above: &mut BTreeSet<Xid>,
    prepared: &BTreeMap<u64, InDoubt>,
    after: Option<&Xid>,
) -> Result<(), AllocError>
    ensures { OnOk result (above.new.keys
        ≡ with_all_above (option_copied after.entry) above.old.keys (map (λ b. b.xid) (values prepared.now))) }
{
    for branch in prepared.values() {
        add_xid(above, &branch.xid, after)?;
    }
    Ok(())
}

fn add_decided(
    above: &mut BTreeSet<Xid>,
    decided: &BTreeMap<Xid, Direction>,
    after: Option<&Xid>,
) -> Result<(), AllocError>
    ensures { OnOk result (above.new.keys
        ≡ with_all_above (option_copied after.entry) above.old.keys (keys decided.now)) }
{
    for xid in decided.keys() {
        add_xid(above, xid, after)?;
    }
    Ok(())
}

/// The first of a set, at most `count`.
fn first(alloc: Global, mut above: BTreeSet<Xid>, count: usize) -> Result<Vec<Xid>, AllocError>
    ensures { IfOk result (λ v. v.items ≡ take count above.keys) }
{
    let mut taken = Vec::new(alloc);
    for _number in 0..count {
        let Some(xid) = above.pop_first() else {
            return Ok(taken);
        };
        taken.push(xid)?;
    }
    Ok(taken)
}

/// The XIDs in doubt, and those that the operator completed, that are above the given one, or all of them: the first
/// `count`, ascending.
///
/// # Errors
/// Out of memory.
pub fn list_after(
    alloc: Global,
    durable: &Durable,
    after: Option<&Xid>,
    count: usize,
) -> Result<Vec<Xid>, AllocError>
    ensures { IfOk result (λ v. v.items ≡ list_after (option_copied after.entry) count durable.now) }
{
    let mut above = BTreeSet::new(alloc);
    add_prepared(&mut above, &durable.prepared, after)?;
    add_decided(&mut above, &durable.decided, after)?;
    first(alloc, above, count)
}

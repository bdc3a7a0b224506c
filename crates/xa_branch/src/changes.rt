ghost use Rattle.std.specs.Prelude.{◌≡◌, true, false, None, Some, OnOk, OnErr, option_map, option_copied};
ghost use Rattle.std.specs.BTreeMap.{get};
ghost use Rattle.xa_xid.specs.Triple.{xid_cmp};
ghost use Rattle.xa_branch.specs.Changes.{Sets, SetsTime, LeavesAll, left_behind, marked};

use crate::kind::Kind;
use crate::working::Working;
use std::alloc::AllocError;
use std::collections::{BTreeMap, BTreeSet};
use xa_codes::{Code, XA_RBCOMMFAIL};
use xa_xid::Xid;

/// Adds what is kept of a branch, or replaces what was kept at its XID.
pub fn add<V: Drop>(kept: &mut BTreeMap<Xid, V>, xid: Xid, new: V) -> Result<(), AllocError>
    ensures ok { OnOk result (Sets kept.old xid (Some new) kept.new) }
    ensures err { OnErr result (kept.new.entries ≡ kept.old.entries) }
{
    kept.insert(xid, new)?;
    Ok(())
}

/// Replaces what is kept of a branch.
pub fn set<V: Drop>(kept: &mut BTreeMap<Xid, V>, xid: &Xid, new: V)
    ensures { Sets kept.old xid.now (option_map (λ _. new) (get xid_cmp kept.old xid.now)) kept.new }
{
    if let Some(place) = kept.get_mut(xid) {
        *place = new;
    }
}

/// Takes what is kept of a branch away.
pub fn take<V: Drop>(kept: &mut BTreeMap<Xid, V>, xid: &Xid)
    ensures { Sets kept.old xid.now None kept.new }
{
    kept.remove(xid);
}

/// Adds the timestamp of a branch.
pub fn add_time(times: &mut BTreeSet<u64>, timestamp: u64) -> Result<(), AllocError>
    ensures ok { OnOk result (SetsTime times.old timestamp true times.new) }
    ensures err { OnErr result (times.new.keys ≡ times.old.keys) }
{
    times.insert(timestamp)?;
    Ok(())
}

/// Takes the timestamp of a branch away.
pub fn take_time(times: &mut BTreeSet<u64>, timestamp: u64)
    ensures { SetsTime times.old timestamp false times.new }
{
    times.remove(&timestamp);
}

/// Marks a branch at work, unless it is marked.
pub fn mark_working(working: &mut BTreeMap<Xid, Working>, xid: &Xid, code: Code)
    ensures { Sets working.old xid.now (option_map (marked code) (get xid_cmp working.old xid.now)) working.new }
{
    if let Some(was) = working.get(xid).copied() {
        set(working, xid, was.marked(code));
    }
}

/// A session leaves a branch behind: its association of this kind ends, and the branch is marked.
fn leave_behind(working: &mut BTreeMap<Xid, Working>, xid: &Xid, kind: Kind)
    ensures { Sets working.old xid.now (option_map (left_behind kind) (get xid_cmp working.old xid.now)) working.new }
{
    if let Some(was) = working.get(xid).copied() {
        set(working, xid, was.less_one(kind).marked(XA_RBCOMMFAIL));
    }
}

/// A session leaves each of its own branches behind, once. It is at work for `active`, or for none.
pub fn leave_all(working: &mut BTreeMap<Xid, Working>, own: &BTreeSet<Xid>, active: Option<&Xid>)
    ensures { LeavesAll working.old own.now (option_copied active.entry) working.new }
{
    for xid in own {
        leave_behind(working, xid, Kind::of_own(xid, active));
    }
}

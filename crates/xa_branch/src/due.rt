ghost use Rattle.std.specs.Prelude.{◌≡◌, ◌<◌, OnOk, OnErr, IfSome, IfNone, length};
ghost use Rattle.xa_branch.specs.Due.{due_of, work_of, GainsDue, LosesDue, LosesAllDue, PopsDue, NoneDue};

use crate::working::Working;
use std::alloc::AllocError;
use std::collections::{BTreeMap, BTreeSet};
use xa_xid::Xid;

/// Adds when a branch at work runs out of time, if it does, with a copy of its XID.
pub fn add_due(
    due: &mut BTreeSet<(u64, Xid)>,
    xid: &Xid,
    working: &Working,
) -> Result<(), AllocError>
    ensures ok { OnOk result (GainsDue due.old xid.now (due_of (work_of working.now)) due.new) }
    ensures err { OnErr result (due.new.keys ≡ due.old.keys) }
{
    if let Some(moment) = working.due() {
        due.insert((moment, xid.copied()))?;
    }
    Ok(())
}

/// Takes it away.
pub fn take_due(due: &mut BTreeSet<(u64, Xid)>, xid: &Xid, working: &Working)
    ensures { LosesDue due.old xid.now (due_of (work_of working.now)) due.new }
{
    if let Some(moment) = working.due() {
        due.remove(&(moment, xid.copied()));
    }
}

/// Takes it away for each of these branches that is at work.
pub fn take_all_due(
    working: &BTreeMap<Xid, Working>,
    due: &mut BTreeSet<(u64, Xid)>,
    own: &BTreeSet<Xid>,
)
    ensures { LosesAllDue working.now due.old own.now due.new }
{
    for xid in own {
        if let Some(kept) = working.get(xid) {
            take_due(due, xid, kept);
        }
    }
}

/// Takes out the first branch, if it has run out of time at this moment.
pub fn next_due(due: &mut BTreeSet<(u64, Xid)>, moment: u64) -> Option<Xid>
    ensures due { IfSome result (λ xid. PopsDue moment due.old xid due.new) }
    ensures fewer { IfSome result (λ _. length due.new.keys < length due.old.keys) }
    ensures none { IfNone result (NoneDue moment due.old) }
    ensures same { IfNone result (due.new ≡ due.old) }
{
    let Some((first, _)) = due.first() else {
        return None;
    };
    if *first > moment {
        return None;
    }
    match due.pop_first() {
        Some((_, xid)) => Some(xid),
        None => None,
    }
}

ghost use Rattle.std.specs.Prelude.{◌≡◌, ◌++◌, ◌≤◌, [], None, IfOk, length, map, option_copied};
ghost use Rattle.std.specs.Option.{option_to_list};
ghost use Rattle.xa_frame.specs.declared.known_branch.KnownBranch.{KnownBranch as Told};
ghost use Rattle.xa_model.specs.KnownBranches.{branches_after};
ghost use Rattle.xa_branch.specs.Follows.{InSound};
ghost use Rattle.xa_branch.specs.Told.{short, told_working, told_lasting, first_of_two};

use crate::branches::Branches;
use crate::lasting::Lasting;
use crate::recovery::above;
use crate::working::Working;
use std::alloc::{AllocError, Global};
use std::collections::btree_map::Range;
use std::ops::Bound;
use xa_codes::{Direction, XA_OK};
use xa_frame::{AssociationCounts, BranchState, KnownBranch};
use xa_xid::Xid;

/// A count in 16 bits: a branch has at most `MOST_SESSIONS` associations of sessions, and `MOST_LOOSE` of nobody's.
fn short(count: u64) -> u16
    ensures { result ≡ short count }
{
    count.min(65535) as u16
}

/// What is told of a branch at work.
fn working_branch(xid: &Xid, working: &Working) -> KnownBranch
    ensures { result ≡ told_working (xid.now, working.now) }
{
    KnownBranch {
        xid: xid.copied(),
        state: BranchState::Working,
        mark: working.mark.unwrap_or(XA_OK),
        timestamp: working.timestamp,
        associations: AssociationCounts {
            active: short(working.active),
            suspended: short(working.suspended),
            loose: short(working.loose),
        },
    }
}

/// What is told of a branch that is prepared, or that the operator completed.
fn lasting_branch(xid: &Xid, lasting: &Lasting) -> KnownBranch
    ensures { result ≡ told_lasting (xid.now, lasting.now) }
{
    let (state, timestamp) = match lasting {
        Lasting::Prepared(timestamp) => (BranchState::Prepared, *timestamp),
        Lasting::Completed(Direction::Commit) => (BranchState::Committed, 0),
        Lasting::Completed(Direction::Rollback) => (BranchState::RolledBack, 0),
    };
    KnownBranch {
        xid: xid.copied(),
        state,
        mark: XA_OK,
        timestamp,
        associations: AssociationCounts {
            active: 0,
            suspended: 0,
            loose: 0,
        },
    }
}

/// The next branch at work, unless one is there already.
fn next_working(next: &mut Option<KnownBranch>, others: &mut Range<'_, Xid, Working>)
    ensures same { option_to_list next.new ++ map told_working others.new
        ≡ option_to_list next.old ++ map told_working others.old }
    ensures end { next.new ≡ None → others.new ≡ [] }
{
    if next.is_none() {
        if let Some((xid, working)) = others.next() {
            *next = Some(working_branch(xid, working));
        }
    }
}

/// The next branch that is prepared or completed, unless one is there already.
fn next_lasting(next: &mut Option<KnownBranch>, others: &mut Range<'_, Xid, Lasting>)
    ensures same { option_to_list next.new ++ map told_lasting others.new
        ≡ option_to_list next.old ++ map told_lasting others.old }
    ensures end { next.new ≡ None → others.new ≡ [] }
{
    if next.is_none() {
        if let Some((xid, lasting)) = others.next() {
            *next = Some(lasting_branch(xid, lasting));
        }
    }
}

/// Takes the first of two branches, by XID.
fn take_first(one: &mut Option<KnownBranch>, other: &mut Option<KnownBranch>) -> Option<KnownBranch>
    ensures { first_of_two one.old other.old ≡ (result, (one.new, other.new)) }
{
    let is_first = match (&*one, &*other) {
        (Some(x), Some(y)) => x.xid < y.xid,
        (None, _) => false,
        (Some(_), None) => true,
    };
    if is_first { one.take() } else { other.take() }
}

/// What the list of known branches has.
impl Branches {
    /// The first `count` of the known branches above the given XID, or of all, ascending. No others are visited.
    /// Memory is taken once, for no more than `count`.
    ///
    /// # Errors
    /// Out of memory, or a branch has its room.
    pub fn known_after(
        &self,
        alloc: Global,
        after: Option<&Xid>,
        count: usize,
    ) -> Result<Vec<KnownBranch>, AllocError>
        ensures few { IfOk result (λ v. length v.items ≤ count) }
        ensures known { InSound self.now (λ s.
            IfOk result (λ v. v.items ≡ branches_after (option_copied after.entry) count s)) }
    {
        if self.has_rooms() {
            return Err(AllocError);
        }
        let mut known = Vec::with_capacity(alloc, count.min(self.len()))?;
        let mut working = self.working.range((above(after), Bound::Unbounded));
        let mut lasting = self.lasting.range((above(after), Bound::Unbounded));
        let mut one = None;
        let mut other = None;
        for _ in 0..count {
            next_working(&mut one, &mut working);
            next_lasting(&mut other, &mut lasting);
            let Some(first) = take_first(&mut one, &mut other) else {
                break;
            };
            known.push(first)?;
        }
        Ok(known)
    }
}

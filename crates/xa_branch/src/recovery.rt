ghost use Rattle.std.specs.Prelude.{◌≡◌, ◌≤◌, IfOk, length, option_copied};
ghost use Rattle.std.specs.BTreeMap.Range.{is_from_start};
ghost use Rattle.std.specs.Range.Bound.{bound_map};
ghost use Rattle.xa_xid.specs.Triple.{Triple, xid_cmp};
ghost use Rattle.xa_model.specs.{Durable.durable, Listed.is_above, Listed.list_after};
ghost use Rattle.xa_branch.specs.Follows.{InSound};

use crate::branches::Branches;
use std::alloc::{AllocError, Global};
use std::ops::Bound;
use xa_xid::Xid;

/// Where the XIDs above the given one begin, or all of them.
pub(crate) fn above(after: Option<&Xid>) -> Bound<&Xid>
    ensures { (q : Triple) → is_from_start xid_cmp (bound_map (λ x. x.now) result) q
        ≡ is_above (option_copied after.entry) q }
{
    match after {
        Some(after) => Bound::Excluded(after),
        None => Bound::Unbounded,
    }
}

/// What recovery lists.
impl Branches {
    /// The first `count` of the XIDs above the given one, or of all, whose branches are prepared or were completed by
    /// the operator, ascending. No others are visited. Memory is taken once, for no more XIDs than `count`.
    ///
    /// # Errors
    /// Out of memory, or a branch has its room.
    pub fn list_after(
        &self,
        alloc: Global,
        after: Option<&Xid>,
        count: usize,
    ) -> Result<Vec<Xid>, AllocError>
        ensures few { IfOk result (λ v. length v.items ≤ count) }
        ensures listed { InSound self.now (λ s.
            IfOk result (λ v. v.items ≡ list_after (option_copied after.entry) count (durable s))) }
    {
        if self.has_rooms() {
            return Err(AllocError);
        }
        let mut listed = Vec::with_capacity(alloc, count.min(self.lasting.len()))?;
        for (xid, _) in self
            .lasting
            .range((above(after), Bound::Unbounded))
            .take(count)
        {
            listed.push(xid.copied())?;
        }
        Ok(listed)
    }
}

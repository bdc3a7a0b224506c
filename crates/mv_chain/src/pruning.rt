ghost use Rattle.std.specs.Prelude.{◌≡◌, [], ◌<◌, ◌≤◌, ◌||◌, length};
ghost use Rattle.mv_chain.specs.{Calls.LeavesAt, Chain.pruned};
ghost use Rattle.mv_chain.specs.Pool.{shown_at, IsHeld, IsKeptAt, CountsAt, LeavesOthersAt};
ghost use Rattle.mv_chain.specs.{Slots.is_committed_at, Slots.pruned_at, Within.KeepsWithin};

use crate::finding::find;
use crate::pool::Pool;
use crate::slots::{Slots, pending_at, take_out};

/// Takes version k out if it is committed and another committed one stands above it, and says whether there is one from
/// k on.
fn prune_at(pool: &mut Pool, slots: &mut Slots, k: usize, based: bool) -> bool
    requires { k < length slots.old.items }
    ensures versions { IsHeld pool.old slots.old.items
        → shown_at pool.new slots.new.items ≡ pruned_at k based (shown_at pool.old slots.old.items) }
    ensures based { result ≡ (is_committed_at k (shown_at pool.old slots.old.items) || based) }
    ensures held { IsHeld pool.old slots.old.items → IsHeld pool.new slots.new.items }
    ensures within { k ≤ length slots.new.items }
    ensures others { LeavesOthersAt pool.old slots.old.items pool.new slots.new.items }
    ensures count { IsHeld pool.old slots.old.items → CountsAt pool.old slots.old.items pool.new slots.new.items }
    ensures values { KeepsWithin pool.old pool.new }
{
    if pending_at(pool, slots[k]) {
        return based;
    }
    if based {
        take_out(pool, slots, k);
    }
    true
}

/// Takes out each committed version below another committed one that is at most `low`. It goes down from the last
/// version that is at most `low`: what is above that costs nothing.
pub(crate) fn prune_in(pool: &mut Pool, slots: &mut Slots, low: u64)
    ensures versions { LeavesAt (pruned low) pool.old slots.old.items pool.new slots.new.items }
    ensures kept { IsKeptAt pool.old slots.old.items → IsKeptAt pool.new slots.new.items }
    ensures others { LeavesOthersAt pool.old slots.old.items pool.new slots.new.items }
    ensures count { IsHeld pool.old slots.old.items → CountsAt pool.old slots.old.items pool.new slots.new.items }
    ensures within { KeepsWithin pool.old pool.new }
{
    let mut left = find(pool, slots, low);
    let mut based = false;
    while left > 0 {
        left -= 1;
        based = prune_at(pool, slots, left, based);
    }
}

/// Takes all versions out, the last one first.
pub(crate) fn clear_in(pool: &mut Pool, slots: &mut Slots)
    ensures none { slots.new.items ≡ [] }
    ensures others { LeavesOthersAt pool.old slots.old.items pool.new slots.new.items }
    ensures count { IsHeld pool.old slots.old.items → CountsAt pool.old slots.old.items pool.new slots.new.items }
    ensures within { KeepsWithin pool.old pool.new }
{
    let mut left = slots.len();
    while left > 0 {
        left -= 1;
        take_out(pool, slots, left);
    }
}

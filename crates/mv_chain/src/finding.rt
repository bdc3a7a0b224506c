ghost use Rattle.std.specs.Prelude.{◌≡◌, ◌≤◌, length, reverse, find};
ghost use Rattle.mv_chain.specs.Chain.{IsChain, IsIndex, is_marked};
ghost use Rattle.mv_chain.specs.{Look.looked, Look.IsBelow, Pool.shown_at, Slots.is_decided_at};

use crate::look::Look;
use crate::pool::Pool;
use crate::slots::{mark_at, pending_at, timestamp_at};

/// How many versions have a timestamp of at most `ts`.
pub(crate) fn find(pool: &Pool, slots: &[usize], ts: u64) -> usize
    ensures within { result ≤ length slots.now }
    ensures index { IsChain (shown_at pool.now slots.now) → IsIndex ts result (shown_at pool.now slots.now) }
{
    slots.partition_point(|slot| timestamp_at(pool, *slot) <= ts)
}

/// Whether one of the first `below` versions, those below `ts`, was read above `ts`. The last of them decides.
fn read_above(pool: &Pool, slots: &[usize], below: usize, ts: u64) -> bool
    requires { below ≤ length slots.now }
    ensures { IsChain (shown_at pool.now slots.now) → IsBelow ts below (shown_at pool.now slots.now)
        → result ≡ is_marked ts (shown_at pool.now slots.now) }
{
    if below == 0 {
        return false;
    }
    ts < mark_at(pool, slots[below - 1])
}

/// Whether a version below `ts` was read above `ts`, if `count` versions are at most `ts`.
fn late_at(pool: &Pool, slots: &[usize], count: usize, ts: u64) -> bool
    requires { count ≤ length slots.now }
    ensures { IsChain (shown_at pool.now slots.now) → IsIndex ts count (shown_at pool.now slots.now)
        → result ≡ is_marked ts (shown_at pool.now slots.now) }
{
    if count > 0 && timestamp_at(pool, slots[count - 1]) == ts {
        return read_above(pool, slots, count - 1, ts);
    }
    read_above(pool, slots, count, ts)
}

/// What stands at `ts`, by one binary search.
pub(crate) fn look_in(pool: &Pool, slots: &[usize], ts: u64) -> Look
    ensures found { IsChain (shown_at pool.now slots.now) → result ≡ looked ts (shown_at pool.now slots.now) }
    ensures at { result.at ≡ ts }
{
    let count = find(pool, slots, ts);
    let late = late_at(pool, slots, count, ts);
    if count == 0 {
        return Look {
            at: ts,
            from: 0,
            pending: false,
            late,
            count,
        };
    }
    let slot = slots[count - 1];
    Look {
        at: ts,
        from: timestamp_at(pool, slot),
        pending: pending_at(pool, slot),
        late,
        count,
    }
}

/// The slot of the last version that isn't pending.
pub(crate) fn last_decided(pool: &Pool, slots: &[usize]) -> Option<usize>
    ensures { result ≡ find (is_decided_at pool.now) (reverse slots.now) }
{
    slots
        .iter()
        .rev()
        .find(|slot| !pending_at(pool, **slot))
        .copied()
}

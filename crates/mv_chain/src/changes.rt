ghost use Rattle.std.specs.Prelude.{◌≡◌, ℕ, ◌<◌, ◌≤◌, List, length, IfSome, OnOk, OnErr};
ghost use Rattle.mv_chain.specs.{declared.version.Version.Version, declared.changes.Target.Target};
ghost use Rattle.mv_chain.specs.Calls.{IfLookedAt, LeavesAt, LeavesLookedAt};
ghost use Rattle.mv_chain.specs.Chain.{IsChain, marked_at, installed, settled};
ghost use Rattle.mv_chain.specs.Look.{looked};
ghost use Rattle.mv_chain.specs.Pool.{shown_at, IsKeptAt, CountsAt, LeavesOthersAt};
ghost use Rattle.mv_chain.specs.Target.{IsOwnIndex, IsTarget};
ghost use Rattle.mv_chain.specs.Within.{IsShort, IsWithin, KeepsWithin};

use crate::fate::Fate;
use crate::finding::look_in;
use crate::look::Look;
use crate::pool::Pool;
use crate::slots::{Slots, commit, put_in, raise, replace, take_out};
use crate::version::{ValueBytes, Version};
use std::alloc::AllocError;

/// Notes an answered read, once its source was looked up.
pub(crate) fn mark_in(pool: &mut Pool, slots: &[usize], look: &Look)
    ensures versions { LeavesLookedAt marked_at look.now pool.old slots.now pool.new slots.now }
    ensures kept { IfLookedAt look.now pool.old slots.now (λ ts. IsKeptAt pool.new slots.now) }
    ensures others { LeavesOthersAt pool.old slots.now pool.new slots.now }
    ensures count { CountsAt pool.old slots.now pool.new slots.now }
    ensures within { KeepsWithin pool.old pool.new }
{
    if let Some(i) = look.last(slots.len()) {
        raise(pool, slots[i], look.from, look.at);
    }
}

/// Where a write at a timestamp goes.
#[derive(Clone, Copy)]
enum Target {
    /// Nowhere: it is late, or its branch has committed.
    Refused,
    /// To the branch's own version, which stands there.
    Own(usize),
    /// To a new version, before the one that stands there.
    New(usize),
}

/// Where a write goes, among `versions` versions.
fn target_of(look: &Look, versions: usize) -> Target
    ensures slot { (ts : ℕ) (shown : List Version) → IsChain shown → versions ≡ length shown
        → look.now ≡ looked ts shown → IsTarget ts shown result }
    ensures own { (i : ℕ) → result ≡ Target.Own i → i < versions }
    ensures new { (i : ℕ) → result ≡ Target.New i → i ≤ versions }
{
    let Look {
        at,
        from,
        pending,
        late,
        count,
    } = *look;
    if late || count > versions {
        return Target::Refused;
    }
    if count == 0 || from != at {
        return Target::New(count);
    }
    if pending {
        Target::Own(count - 1)
    } else {
        Target::Refused
    }
}

/// Adds a write, or replaces the branch's own, once its index was looked up.
pub(crate) fn install_in(
    pool: &mut Pool,
    slots: &mut Slots,
    look: &Look,
    value: ValueBytes,
) -> Result<(), AllocError>
    ensures versions { OnOk result
        (LeavesLookedAt (λ ts. installed ts value) look.now pool.old slots.old.items pool.new slots.new.items) }
    ensures err { OnErr result (LeavesAt (λ versions. versions) pool.old slots.old.items pool.new slots.new.items) }
    ensures kept { IfLookedAt look.now pool.old slots.old.items (λ ts. IsKeptAt pool.new slots.new.items) }
    ensures others { LeavesOthersAt pool.old slots.old.items pool.new slots.new.items }
    ensures count { CountsAt pool.old slots.old.items pool.new slots.new.items }
    ensures within { (n : ℕ) → IsWithin n pool.old → IsShort n value → IsWithin n pool.new }
{
    match target_of(look, slots.len()) {
        Target::Refused => Ok(()),
        Target::Own(i) => {
            replace(pool, slots[i], value);
            Ok(())
        }
        Target::New(i) => {
            let version = Version {
                timestamp: look.at,
                value,
                pending: true,
                mark: 0,
            };
            put_in(pool, slots, i, version)
        }
    }
}

/// The pending version of this timestamp.
fn own_index(pool: &Pool, slots: &[usize], ts: u64) -> Option<usize>
    ensures found { IsChain (shown_at pool.now slots.now) → IsOwnIndex ts (shown_at pool.now slots.now) result }
    ensures within { IfSome result (λ i. i < length slots.now) }
{
    let look = look_in(pool, slots, ts);
    if !look.pending || look.from != ts {
        return None;
    }
    look.last(slots.len())
}

/// Decides the fate of the branch's write.
pub(crate) fn settle_in(pool: &mut Pool, slots: &mut Slots, ts: u64, fate: Fate)
    ensures versions { LeavesAt (settled ts fate) pool.old slots.old.items pool.new slots.new.items }
    ensures kept { IsKeptAt pool.old slots.old.items → IsKeptAt pool.new slots.new.items }
    ensures others { LeavesOthersAt pool.old slots.old.items pool.new slots.new.items }
    ensures count { IsKeptAt pool.old slots.old.items → CountsAt pool.old slots.old.items pool.new slots.new.items }
    ensures within { KeepsWithin pool.old pool.new }
{
    let Some(i) = own_index(pool, slots, ts) else {
        return;
    };
    match fate {
        Fate::Committed => commit(pool, slots[i]),
        Fate::RolledBack => take_out(pool, slots, i),
    }
}

ghost use Rattle.std.specs.Prelude.{◌≡◌, ◌≤◌, ℕ, List, [], false, map, fold, OnOk, IfOk};
ghost use Rattle.std.specs.List.{AllByRecursion};
ghost use Rattle.mv_chain.specs.Accesses.{Written};
ghost use Rattle.mv_rules.specs.{Records.StandsFor as RecordsStandFor, Restoring.with_committed, Restoring.with_prepared, Ties.history_of};
ghost use Rattle.xa_branch.specs.{Branches.BranchesStandFor, Restored.HasRestored};
ghost use Rattle.xa_model.specs.Durable.{PreparedBranch, Pairwise, named_apart, named_before, prepares_before, commits_before, is_prepared};
ghost use Rattle.xa_model.specs.{Invariants.Restored.IsRestored, State.State, State.timestamp_of};
ghost use Rattle.xa_recovery.specs.Durable.{as_committed, as_prepared, as_decided};
ghost use Rattle.xa_recovery.specs.Snapshots.{Puts, base_body, held_body};
ghost use Rattle.xa_record.specs.{Spelling.spelled, Limits.IsRecord};
ghost use Rattle.mv_rules.specs.Within.{IsWithin, HasKeys};
ghost use Rattle.xa_limits.specs.declared.TheConstants.{MOST_VALUE};
ghost use Rattle.xa_model.specs.Fold.{snapshot};
ghost use Rattle.xa_manager.specs.Rebuilding.{AreNew, HaveWrites, HaveLow, CommittedAreShort, PreparedAreShort};
ghost use Rattle.xa_manager.specs.Rebuilding.{PreparedHaveKeys, NoneHasWritten};

use crate::spent::Spent;
use mv_chain::Fate;
use mv_rules::Records;
use std::alloc::{AllocError, Global};
use std::collections::BTreeMap;
use xa_branch::Branches;
use xa_codes::Direction;
use xa_limits::{BOOT_TIMESTAMPS, MOST_WRITES};
use xa_record::Writes;
use xa_recovery::{Durable, InDoubt, begin_snapshot, put_base, put_decided, put_held};
use xa_shared::SharedBytes;
use xa_xid::Xid;

/// Puts the branches in doubt into branches of which none is known.
fn put_prepared(
    branches: &mut Branches,
    prepared: &BTreeMap<u64, InDoubt>,
) -> Result<(), AllocError>
    ensures { (boot moment : ℕ) → Pairwise named_apart (map as_prepared prepared.now.entries)
        → HasRestored branches.old boot moment [] []
        → OnOk result (HasRestored branches.new boot moment (map as_prepared prepared.now.entries) []) }
{
    for (timestamp, branch) in prepared {
        branches.restore_prepared(branch.xid.copied(), *timestamp)?;
    }
    Ok(())
}

/// Puts what the operator completed along with them.
fn put_completed(
    branches: &mut Branches,
    decided: &BTreeMap<Xid, Direction>,
) -> Result<(), AllocError>
    ensures { (boot moment : ℕ) (ps : List PreparedBranch) → Pairwise named_before (map as_decided decided.now.entries)
        → AllByRecursion (λ e. is_prepared e.xid ps ≡ false) (map as_decided decided.now.entries)
        → HasRestored branches.old boot moment ps []
        → OnOk result (HasRestored branches.new boot moment ps (map as_decided decided.now.entries)) }
{
    for (xid, direction) in decided {
        branches.restore_completed(xid.copied(), *direction)?;
    }
    Ok(())
}

/// The branches that lasted, in the boot of this number at this moment: those in doubt, and what the operator completed.
pub(crate) fn branches_of(
    alloc: Global,
    durable: &Durable,
    boot: u32,
    moment: u64,
) -> Result<Branches, AllocError>
    ensures { IfOk result (λ m. (s : State) → IsRestored durable.now boot s → s.moment ≡ moment → BranchesStandFor m s) }
{
    let mut branches = Branches::new(alloc, boot, 1, moment);
    put_prepared(&mut branches, durable.prepared())?;
    put_completed(&mut branches, durable.decided())?;
    Ok(branches)
}

/// A timestamp below which none of these branches in doubt stands, of the boots before this one.
fn least_of(prepared: &BTreeMap<u64, InDoubt>, boot: u32) -> u64
    ensures below { Pairwise prepares_before (map as_prepared prepared.now.entries)
        → AllByRecursion (λ p. result ≤ p.timestamp) (map as_prepared prepared.now.entries) }
    ensures past { result ≤ timestamp_of boot 0 }
{
    let past = u64::from(boot) * BOOT_TIMESTAMPS;
    match prepared.first_key_value() {
        Some((first, _)) => past.min(*first),
        None => past,
    }
}

/// Records without any versions, with room for those of what lasted: one of each key, besides those that the keys of a
/// branch have until the older ones are freed. Records that grow bit by bit leave the places that they had.
fn records_for(
    alloc: Global,
    committed: &BTreeMap<u64, Writes>,
    prepared: &BTreeMap<u64, InDoubt>,
) -> Result<Records, AllocError>
    ensures stands { IfOk result (λ m. (low : ℕ) → HaveWrites low [] m) }
    ensures within { IfOk result (λ m. (n : ℕ) → IsWithin n m) }
    ensures own { IfOk result NoneHasWritten }
{
    let mut keys: usize = 0;
    for writes in committed.values() {
        keys = keys.saturating_add(writes.as_slice().len());
    }
    for branch in prepared.values() {
        keys = keys.saturating_add(branch.writes.as_slice().len());
    }
    Records::with_capacity(alloc, keys, keys.saturating_add(MOST_WRITES))
}

/// Puts the writes of committed branches into records without any, up to a low water of at most `least`: what is noted
/// of a branch below it is freed again at once. Before that the body of each is put after the others.
fn put_committed(
    alloc: Global,
    records: &mut Records,
    bodies: &mut Vec<SharedBytes>,
    committed: BTreeMap<u64, Writes>,
    least: u64,
) -> Result<(), AllocError>
    ensures stands { AreNew (map (λ c. c.timestamp) (map as_committed committed.entries)) []
        → Pairwise commits_before (map as_committed committed.entries)
        → HaveWrites 0 [] records.old
        → OnOk result (HaveLow least (fold with_committed [] (map as_committed committed.entries)) records.new) }
    ensures short { CommittedAreShort (map as_committed committed.entries) → IsWithin MOST_VALUE records.old
        → OnOk result (IsWithin MOST_VALUE records.new) }
    ensures unwritten { NoneHasWritten records.old → OnOk result (NoneHasWritten records.new) }
    ensures bodies { OnOk result (Puts bodies.old (map base_body committed.entries) bodies.new) }
{
    let mut spent = Spent::new(alloc);
    for (timestamp, writes) in committed {
        put_base(alloc, bodies, timestamp, &writes)?;
        records.restore(
            timestamp,
            writes.as_slice(),
            Some(Fate::Committed),
            bodies.last(),
        )?;
        records.low_water(timestamp.min(least));
        spent.add(writes, bodies.last())?;
    }
    Ok(())
}

/// Puts those of the branches in doubt there, and puts their bodies after the others.
fn put_undecided(
    alloc: Global,
    records: &mut Records,
    bodies: &mut Vec<SharedBytes>,
    prepared: BTreeMap<u64, InDoubt>,
) -> Result<(), AllocError>
    ensures stands { (low : ℕ) (older : List Written)
        → AreNew (map (λ p. p.timestamp) (map as_prepared prepared.entries)) older
        → AllByRecursion (λ p. low ≤ p.timestamp) (map as_prepared prepared.entries)
        → HaveWrites low older records.old
        → OnOk result (HaveWrites low (fold with_prepared older (map as_prepared prepared.entries)) records.new) }
    ensures short { PreparedAreShort (map as_prepared prepared.entries) → IsWithin MOST_VALUE records.old
        → OnOk result (IsWithin MOST_VALUE records.new) }
    ensures keys { PreparedHaveKeys (map as_prepared prepared.entries)
        → Pairwise prepares_before (map as_prepared prepared.entries) → NoneHasWritten records.old
        → OnOk result (HasKeys records.new) }
    ensures bodies { OnOk result (Puts bodies.old (map held_body prepared.entries) bodies.new) }
{
    let mut spent = Spent::new(alloc);
    for (timestamp, branch) in prepared {
        put_held(alloc, bodies, timestamp, &branch)?;
        let InDoubt { writes, .. } = branch;
        records.restore(timestamp, writes.as_slice(), None, bodies.last())?;
        spent.add(writes, bodies.last())?;
    }
    Ok(())
}

/// The versions that lasted, in the boot of this number, and the bodies of the records that its log begins with. Each
/// branch is spelled, and its values are left in that body; what it lasted in is freed soon after.
pub(crate) fn records_of(
    alloc: Global,
    durable: Durable,
    boot: u32,
) -> Result<(Records, Vec<SharedBytes>), AllocError>
    ensures stands { IfOk result
        (λ made. (s : State) → IsRestored durable boot s → RecordsStandFor (history_of s) made.0) }
    ensures short { (boot : ℕ) → AllByRecursion IsRecord (snapshot durable boot)
        → IfOk result (λ made. IsWithin MOST_VALUE made.0) }
    ensures keys { (boot : ℕ) → AllByRecursion IsRecord (snapshot durable boot)
        → Pairwise prepares_before durable.prepared → IfOk result (λ made. HasKeys made.0) }
    ensures bodies { IfOk result (λ made. made.1.items ≡ map spelled (snapshot durable boot)) }
{
    let mut bodies = begin_snapshot(alloc, &durable, boot)?;
    let (committed, prepared, decided) = durable.into_parts();
    let mut records = records_for(alloc, &committed, &prepared)?;
    let least = least_of(&prepared, boot);
    put_committed(alloc, &mut records, &mut bodies, committed, least)?;
    put_undecided(alloc, &mut records, &mut bodies, prepared)?;
    put_decided(alloc, &mut bodies, &decided)?;
    Ok((records, bodies))
}

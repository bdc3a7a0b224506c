ghost use Rattle.std.specs.Prelude.{◌≡◌, ◌+◌, ◌<◌, ◌≤◌, map, IfOk};
ghost use Rattle.std.specs.List.{AllByRecursion};
ghost use Rattle.mv_rules.specs.Within.{IsWithin, HasKeys};
ghost use Rattle.xa_limits.specs.declared.TheConstants.{MOST_VALUE};
ghost use Rattle.xa_record.specs.Limits.{IsRecord};
ghost use Rattle.xa_model.specs.{Durable.IsDurable, Fold.snapshot};
ghost use Rattle.xa_manager.specs.{Drained.GivesBack, Rereading.IsReady, Rereading.Plans};

use crate::rebuilding::{branches_of, records_of};
use mv_rules::Records;
use std::alloc::{AllocError, Global};
use std::snapshot::Snapshot;
use xa_branch::Branches;
use xa_recovery::{Durable, LogFault, next_boot, rebuild_log};
use xa_shared::SharedBytes;

/// A boot that is ready to begin: its number, its tables, and the bodies that its log begins with.
#[derive(Drop)]
pub struct NextBoot {
    pub boot: u32,
    pub branches: Branches,
    pub records: Records,
    pub bodies: Vec<SharedBytes>,
}

/// What a log came to, and the boot after those that it has, unless their numbers are used up. Its values are with the
/// next boot's tables, so what it came to is here for clauses alone, with its boot, and how many branches are in doubt
/// and how many XIDs were completed by the operator.
#[derive(Drop)]
pub struct Planned {
    pub durable: Snapshot<Durable>,
    pub boot: u32,
    pub prepared: u64,
    pub completed: u64,
    pub next: Option<NextBoot>,
}

/// Makes ready what the boot of this number begins with, at this moment: branch by branch the snapshot is spelled, and
/// the tables' values stand in its bodies.
fn ready(alloc: Global, durable: Durable, boot: u32, moment: u64) -> Result<NextBoot, AllocError>
    requires limits { AllByRecursion IsRecord (snapshot durable boot) }
    requires form { IsDurable durable }
    ensures ready { IfOk result (IsReady durable boot moment) }
    ensures boot { IfOk result (λ next. next.boot ≡ boot) }
    ensures drained { IfOk result (λ next. GivesBack next.branches next.records) }
    ensures short { IfOk result (λ next. IsWithin MOST_VALUE next.records) }
    ensures keys { IfOk result (λ next. HasKeys next.records) }
{
    let branches = branches_of(alloc, &durable, boot, moment)?;
    let (mut records, bodies) = records_of(alloc, durable, boot)?;
    records.low_water(branches.low_water());
    Ok(NextBoot {
        boot,
        branches,
        records,
        bodies,
    })
}

/// What the bodies of a log come to, with the next boot made ready for this moment. The bodies are freed one by one.
/// All memory of a restart and of an opening is taken here, once the log was read, but for the log's buffer.
pub(crate) fn plan(alloc: Global, moment: u64, bodies: Vec<Vec<u8>>) -> Result<Planned, LogFault>
    ensures { Plans moment (map (λ b. b.items) bodies.items) result }
{
    let durable = rebuild_log(alloc, bodies)?;
    let came_to = Snapshot::of(&durable);
    let boot = durable.boot();
    let prepared = durable.prepared().len() as u64;
    let completed = durable.decided().len() as u64;
    let next = match next_boot(&durable) {
        Some(next) => Some(ready(alloc, durable, next, moment)?),
        None => None,
    };
    Ok(Planned {
        durable: came_to,
        boot,
        prepared,
        completed,
        next,
    })
}

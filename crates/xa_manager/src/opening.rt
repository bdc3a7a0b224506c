ghost use Rattle.std.specs.Prelude.{ℕ, List, ◌≡◌, ◌≢◌, ◌≤◌, ◌<◌, ◌⊎◌, ◌↔◌, Bool, true, false, [], IfOk, IfErr};
ghost use Rattle.std.specs.Prelude.{IfSome, IfNone, OnOk, IsErrOf, IsErrAnd, IsSomeAnd, Some, None, length};
ghost use Rattle.xa_limits.specs.declared.TheConstants.{MOST_LOG};
ghost use Rattle.xa_log.specs.{Believed.Chain.newest, Believed.LogView.LogView};
ghost use Rattle.xa_log.specs.{Believed.Unfit.missing_of, declared.unfit.Unfit.TheVariants.Neither};
ghost use Rattle.xa_log.specs.Opened.{IsOpened, WasFound, found_in, found_in_first, passed_in, passed_of, limit_of};
ghost use Rattle.xa_log.specs.Believed.Pair.{generation, pair_fault, logged_pair};
ghost use Rattle.xa_log.specs.{Reading.Ends, Reading.bodies_of};
ghost use Rattle.xa_log.specs.{Believed.Stands.EndsBehind, Believed.TwoFiles.first_of, Believed.TwoFiles.second_of};
ghost use Rattle.xa_model.specs.{declared.outcome.Outcome.TheVariants.Reread, declared.outcome.Appending.TheVariants.Kept, State.State};
ghost use Rattle.xa_model.specs.{Invariants.Loggable.IsRecoverable, Turn.Reopened, Step.step, History.fresh};
ghost use Rattle.xa_manager.specs.{Believed.CrashOpening.CrashesOpening, Believed.Files.FilesStandFor};
ghost use Rattle.xa_manager.specs.{Believed.LogStands.Trusts, Managed.ManagerStandsFor};
ghost use Rattle.xa_manager.specs.Believed.Opening.{IsBadSetting, IsFound, Misses, HasBegun, HasBegunOn};
ghost use Rattle.xa_manager.specs.Believed.Opening.{LogRefused, BootRefused, OpenRefused, begun_manager};
ghost use Rattle.xa_manager.specs.Believed.Parts.{log_of};
ghost use Rattle.xa_manager.specs.Believed.Refused.{LeavesFinding, LogsBoot, LeavesBegin, LeavesLogging, LeavesRefused};

use crate::boots::{NextBoot, Planned, plan};
use crate::fault::ManagerFault;
use crate::first_records::{log_first, reserve_for};
use crate::log_space::begins_with_room;
use crate::manager::Manager;
use crate::refused::RefusedOpening;
use crate::settings::Settings;
use crate::tables::Tables;
use std::alloc::Global;
use xa_assoc::Sessions;
use xa_codes::Bytes;
use xa_disk::Disk;
use xa_limits::{LEAST_LOG, MOST_INFO, MOST_LOG};
use xa_log::{Appended, Log, OpenFault, Opened, PassedOver, Unfit, create_on, open_on};
use xa_model::Outcome;

impl<D: Disk + Drop> Manager<D> {
    /// Opens a manager on two disks, as `open_returning` does. A fault gives no disk back.
    pub fn open(
        alloc: Global,
        first: D,
        second: D,
        settings: Settings,
    ) -> Result<Manager<D>, ManagerFault>
        ensures setting { IsErrOf result ManagerFault.Setting ↔ IsBadSetting settings.name settings.log_bytes }
        ensures begun { IfOk result
            (HasBegunOn D.Disk (D.seen first) (D.seen second) settings.name settings.log_bytes) }
        ensures there { D.honest → OnOk result (missing_of (D.seen first) (D.seen second) ≡ Neither) }
        // On empty disks it is a new manager; on files that stand for a state it stands for that state's opening.
        ensures fresh { Trusts D.Disk → D.seen first ≡ [] → D.seen second ≡ []
            → IfOk result (λ m. ManagerStandsFor D.Disk m (fresh settings.name settings.log_bytes)) }
        ensures reopens { Trusts D.Disk → (s : State) → IsRecoverable s
            → FilesStandFor settings.log_bytes (D.seen first) (D.seen second) s
            → IfOk result (λ m. (survived : ℕ)
            × IsSomeAnd (step s (Reopened settings.name settings.log_bytes) (Reread survived (Some Kept)))
            (λ a. ManagerStandsFor D.Disk m a.after)) }
        ensures refused { D.honest
            → IfErr result (λ e. OpenRefused e settings.name settings.log_bytes (D.seen first) (D.seen second)) }
    {
        match Manager::open_returning(alloc, first, second, settings, &mut None) {
            Ok(manager) => Ok(manager),
            Err(refused) => Err(refused.fault),
        }
    }

    /// Opens a manager on two disks: if both are empty it makes a log, and otherwise it reads the log that they have. A
    /// new boot begins with what lasts of it; `passed_over` tells which records the log leaves out, if any. A fault gives the
    /// disks back. Faults are looked for in this order: `Setting`, the log's own, `MissingFirst` or `MissingSecond`, `Memory`,
    /// `Malformed`, `Order`, `Boots`, `LogFull`, `Device`. If there is a log, none of them but the last has written anything.
    pub fn open_returning(
        alloc: Global,
        mut first: D,
        mut second: D,
        settings: Settings,
        passed_over: &mut Option<PassedOver>,
    ) -> Result<Manager<D>, RefusedOpening<D>>
        ensures setting { IsErrAnd result (λ r. r.fault ≡ ManagerFault.Setting)
            ↔ IsBadSetting settings.name settings.log_bytes }
        ensures begun { IfOk result
            (HasBegunOn D.Disk (D.seen first) (D.seen second) settings.name settings.log_bytes) }
        ensures there { D.honest → OnOk result (missing_of (D.seen first) (D.seen second) ≡ Neither) }
        ensures fresh { Trusts D.Disk → D.seen first ≡ [] → D.seen second ≡ []
            → IfOk result (λ m. ManagerStandsFor D.Disk m (fresh settings.name settings.log_bytes)) }
        ensures reopens { Trusts D.Disk → (s : State) → IsRecoverable s
            → FilesStandFor settings.log_bytes (D.seen first) (D.seen second) s
            → IfOk result (λ m. (survived : ℕ)
            × IsSomeAnd (step s (Reopened settings.name settings.log_bytes) (Reread survived (Some Kept)))
            (λ a. ManagerStandsFor D.Disk m a.after)) }
        ensures refused { D.honest
            → IfErr result
            (λ r. OpenRefused r.fault settings.name settings.log_bytes (D.seen first) (D.seen second)) }
        ensures left { D.honest → OnOk result (passed_over.new ≡ passed_of (D.seen first) (D.seen second)) }
        // What it did to the disks: to those that it gives back, and to those of a manager's log.
        ensures logs { IfOk result
            (λ m. LeavesLogging D.Disk settings.log_bytes first second Appended.Kept (log_of m)) }
        ensures leaves { IfErr result
            (λ r. LeavesRefused D.Disk r.fault settings.log_bytes first r.first second r.second) }
        // What a crash at any moment of it leaves of files that stand for a state.
        ensures crash { CrashesOpening D.Disk first second settings.name settings.log_bytes result }
    {
        let Settings { name, log_bytes } = settings;
        if name.as_slice().len() > MOST_INFO || log_bytes < LEAST_LOG || log_bytes > MOST_LOG {
            return Err(RefusedOpening {
                fault: ManagerFault::Setting,
                first,
                second,
            });
        }
        match find_log(alloc, &mut first, &mut second, log_bytes) {
            Ok((opened, is_new)) => {
                if let Some(fault) = missing_fault(&opened, is_new) {
                    return Err(RefusedOpening {
                        fault,
                        first,
                        second,
                    });
                }
                *passed_over = opened.passed_over();
                let (log, bodies) = Log::on(first, second, opened);
                begin(alloc, log, bodies, is_new, name, log_bytes)
            }
            Err(fault) => Err(RefusedOpening {
                fault: ManagerFault::Log(fault),
                first,
                second,
            }),
        }
    }
}

/// Which file is missing of two that were found to have a log: none if it was made.
fn missing_fault(opened: &Opened, is_new: bool) -> Option<ManagerFault>
    ensures some { IfSome result
        (λ e. (is_new ≡ false) × ((e ≡ ManagerFault.MissingFirst) ⊎ (e ≡ ManagerFault.MissingSecond))
        × ((first second : List ℕ) → WasFound first second opened.now → Misses e first second)) }
    ensures other { IfSome result (λ e. e ≢ ManagerFault.Setting) }
    ensures none { IfNone result
        (is_new ≡ false → (first second : List ℕ) → WasFound first second opened.now → missing_of first second ≡ Neither) }
{
    if is_new {
        return None;
    }
    match opened.missing() {
        Unfit::MissingFirst => Some(ManagerFault::MissingFirst),
        Unfit::MissingSecond => Some(ManagerFault::MissingSecond),
        Unfit::Neither | Unfit::StrayFirst | Unfit::StraySecond => None,
    }
}

/// Begins a boot with what the bodies of a log come to.
fn begin<D: Disk + Drop>(
    alloc: Global,
    mut log: Log<D>,
    bodies: Vec<Vec<u8>>,
    is_new: bool,
    name: Bytes,
    log_bytes: u64,
) -> Result<Manager<D>, RefusedOpening<D>>
    requires limit { log_bytes ≤ MOST_LOG }
    requires number { log.generation ≡ generation (bodies_of bodies.items) }
    requires made { is_new ≡ true → bodies_of bodies.items ≡ [] }
    requires modern { is_new ≡ true → log.format ≡ newest }
    requires ends { EndsBehind (bodies_of bodies.items) log }
    ensures begun { (D.honest → IsFound D.Disk is_new (bodies_of bodies.items) log) → log.log_bytes ≡ log_bytes
        → IfOk result (HasBegun D.Disk (bodies_of bodies.items) name log_bytes) }
    ensures refused { IfErr result (λ r. BootRefused r.fault (bodies_of bodies.items) log_bytes) }
    ensures logs { IfOk result (λ m. LogsBoot D.Disk is_new (bodies_of bodies.items) log_bytes Appended.Kept log m.log) }
    ensures leaves { IfErr result
        (λ r. (after : LogView D) × LeavesBegin D.Disk r.fault is_new (bodies_of bodies.items) log_bytes log after
        × (r.first ≡ first_of after) × (r.second ≡ second_of after)) }
{
    match begin_on(alloc, &mut log, bodies, is_new, name, log_bytes) {
        Ok(tables) => Ok(Manager {
            tables,
            log,
            up: true,
            doubt: None,
            outcome: Outcome::Quiet,
        }),
        Err(fault) => {
            let (first, second) = log.into_disks();
            Err(RefusedOpening {
                fault,
                first,
                second,
            })
        }
    }
}

/// The tables of a boot that begins with what the bodies of a log come to, with its first records logged.
fn begin_on<D: Disk>(
    alloc: Global,
    log: &mut Log<D>,
    bodies: Vec<Vec<u8>>,
    is_new: bool,
    name: Bytes,
    log_bytes: u64,
) -> Result<Tables, ManagerFault>
    requires limit { log_bytes ≤ MOST_LOG }
    requires number { log.old.generation ≡ generation (bodies_of bodies.items) }
    requires made { is_new ≡ true → bodies_of bodies.items ≡ [] }
    requires modern { is_new ≡ true → log.old.format ≡ newest }
    requires ends { EndsBehind (bodies_of bodies.items) log.old }
    ensures begun { (D.honest → IsFound D.Disk is_new (bodies_of bodies.items) log.old) → log.old.log_bytes ≡ log_bytes
        → IfOk result (λ t. HasBegun D.Disk (bodies_of bodies.items) name log_bytes (begun_manager t log.new)) }
    ensures refused { IfErr result (λ e. BootRefused e (bodies_of bodies.items) log_bytes) }
    ensures logs { OnOk result
        (LogsBoot D.Disk is_new (bodies_of bodies.items) log_bytes Appended.Kept log.old log.new) }
    ensures leaves { IfErr result
        (λ e. LeavesBegin D.Disk e is_new (bodies_of bodies.items) log_bytes log.old log.new) }
{
    let Planned {
        prepared,
        completed,
        next,
        ..
    } = plan(alloc, 0, bodies)?;
    let Some(next) = next else {
        return Err(ManagerFault::Boots);
    };
    let NextBoot {
        branches,
        records,
        bodies: first,
        ..
    } = next;
    if !begins_with_room(&first, prepared, completed, log_bytes) {
        return Err(ManagerFault::LogFull);
    }
    let Ok(()) = reserve_for(log, &first) else {
        return Err(ManagerFault::Memory);
    };
    match log_first(log, is_new, &first) {
        Appended::Kept => {}
        Appended::Refused | Appended::Lost | Appended::Full => return Err(ManagerFault::Device),
    }
    Ok(Tables {
        alloc,
        name,
        log_bytes,
        sessions: Sessions::new(alloc),
        branches,
        records,
    })
}

/// The log that two disks have, and whether it was made: one is made if both are empty, and otherwise the one that is
/// there is read. Both lengths are asked first.
fn find_log<D: Disk>(
    alloc: Global,
    first: &mut D,
    second: &mut D,
    log_bytes: u64,
) -> Result<(Opened, bool), OpenFault>
    ensures logged { D.honest
        → IfOk result (λ r. logged_pair (D.seen first.old) (D.seen second.old) ≡ bodies_of (found_in r.0).bodies.items) }
    ensures stands { D.honest → IfOk result (λ r. IsOpened D.Disk first.new second.new r.0) }
    ensures made { IfOk result (λ r. r.1 ≡ true → ((found_in r.0).bodies.items ≡ []) × (found_in_first r.0 ≡ true)) }
    ensures modern { IfOk result (λ r. r.1 ≡ true → (found_in r.0).format ≡ newest) }
    ensures left { D.honest → IfOk result (λ r. passed_in r.0 ≡ passed_of (D.seen first.old) (D.seen second.old)) }
    ensures found { D.honest → IfOk result (λ r. r.1 ≡ false → WasFound (D.seen first.old) (D.seen second.old) r.0) }
    ensures made_beside { D.honest → IfOk result (λ r. r.1 ≡ true → D.seen second.new ≡ []) }
    ensures made_of { D.honest
        → IfOk result (λ r. r.1 ≡ true → (D.seen first.old ≡ []) × (D.seen second.old ≡ [])) }
    ensures ends { IfOk result (λ r. Ends (found_in r.0)) }
    ensures whole { D.honest
        → OnOk result (((D.seen first.old ≡ []) × (D.seen second.old ≡ []))
        ⊎ (pair_fault log_bytes (D.seen first.old) (D.seen second.old) ≡ None)) }
    ensures settings { IfOk result (λ r. limit_of r.0 ≡ log_bytes) }
    ensures refused { D.honest → IfErr result (λ e. LogRefused e log_bytes (D.seen first.old) (D.seen second.old)) }
    ensures leaves { D.honest → LeavesFinding D.Disk first.old first.new second.old second.new }
{
    let len = first.length()?;
    let other_len = second.length()?;
    if len == 0 && other_len == 0 {
        let opened = create_on(alloc, first, second, log_bytes)?;
        return Ok((opened, true));
    }
    let opened = open_on(alloc, first, second, log_bytes)?;
    Ok((opened, false))
}

ghost use Rattle.std.specs.Prelude.{◌≡◌, ◌⊎◌, ◌≤◌, ◌<◌, ◌+◌, ◌++◌, ℕ, List, length, nat_lt, true};
ghost use Rattle.std.specs.Prelude.{false, None, Some, Ok, IfOk, IfErr, IfSome, OnOk, OnErr, MatchBool};
ghost use Rattle.std.specs.List.{AllByRecursion};
ghost use Rattle.xa_assoc.specs.Refusals.{is_memory, IsBare};
ghost use Rattle.xa_codes.specs.declared.codes.TheConstants.{XAER_RMFAIL};
ghost use Rattle.xa_record.specs.declared.record.Record.{Record};
ghost use Rattle.xa_log.specs.{Answers.CountsDeviceOf, Buffer.HoldsEach, Believed.Chain.IsBody};
ghost use Rattle.xa_log.specs.{Believed.Chain.newest, Believed.Group.group_bytes, Believed.Pair.generation};
ghost use Rattle.xa_log.specs.{Reading.bodies_of, Believed.LogView.LogView};
ghost use Rattle.xa_log.specs.{Believed.TwoFiles.first_of, Believed.TwoFiles.second_of};
ghost use Rattle.xa_branch.specs.Branches.{moment_of};
ghost use Rattle.mv_rules.specs.Within.{IsWithin, HasKeys};
ghost use Rattle.xa_limits.specs.declared.TheConstants.{MOST_BOOTS, MOST_VALUE};
ghost use Rattle.xa_model.specs.{Answer.detailed, Invariants.Backing.Backs, Durable.durable, Invariants.Loggable.IsRecoverable};
ghost use Rattle.xa_model.specs.{Restarting.restart_turn, State.State, Turn.taken};
ghost use Rattle.xa_recovery.specs.Log.{LogRebuilt};
ghost use Rattle.xa_manager.specs.Believed.Answered.{StaysFor, HasCalled, NoneRises};
ghost use Rattle.xa_manager.specs.Believed.Crash.{LeavesLook, LeavesBoot, LeavesBy};
ghost use Rattle.xa_manager.specs.Believed.LogStands.{Trusts, HasRecords};
ghost use Rattle.xa_manager.specs.Managed.{ManagerStandsFor, AnswersAs, Doubts};
ghost use Rattle.xa_manager.specs.{Believed.Parts.log_of, Believed.Parts.outcome_of, Believed.Promises.RestartPromises};
ghost use Rattle.xa_manager.specs.Rereading.{IsFate, Found, IsCounted, GoesOn, HoldsNext, IsNext, IsReady, Plans};
ghost use Rattle.xa_manager.specs.{Reserving.HasReserved, Turns.HasRestarted, Turns.HasWanted, Connected.connected_to};
ghost use Rattle.xa_frame.specs.{Limits.IsReply, declared.request.Request.Request};

use crate::boots::{NextBoot, Planned, plan};
use crate::done::Done;
use crate::doubt::Doubt;
use crate::first_records::reserve_for;
use crate::manager::Manager;
use std::alloc::AllocError;
use xa_codes::{Detail, XA_OK, XAER_RMFAIL};
use xa_disk::Disk;
use xa_frame::Reply;
use xa_limits::AROUND_BODY;
use xa_log::{Appended, Format, Log, OpenFault};
use xa_model::{Appending, Outcome};
use xa_recovery::LogFault;

impl<D: Disk> Manager<D> {
    /// Reads the log again. Whatever the manager stood for it still stands for, unless it was up and the log isn't what
    /// it was.
    fn look(&mut self) -> Result<Vec<Vec<u8>>, OpenFault>
        ensures err { OnErr result (StaysFor D.Disk self.old self.new) }
        ensures stays { OnOk result ((self.old.up ≡ true → GoesOn self.old.log self.new.log)
            → StaysFor D.Disk self.old self.new) }
        ensures goes_on { Trusts D.Disk
            → OnOk result ((s : State) → ManagerStandsFor D.Disk self.old s → self.old.up ≡ true
            → GoesOn self.old.log self.new.log) }
        ensures found { Trusts D.Disk
            → IfOk result (λ v. (s : State) → ManagerStandsFor D.Disk self.old s
            → Found D.Disk (bodies_of v.items) self.new.log s) }
        ensures readable { Trusts D.Disk
            → IfErr result (λ e. (s : State) → ManagerStandsFor D.Disk self.old s
            → (e ≡ OpenFault.Device) ⊎ (e ≡ OpenFault.Memory)) }
        ensures count { CountsDeviceOf D.failures result (first_of self.old.log) (first_of self.new.log)
            (second_of self.old.log) (second_of self.new.log) }
        ensures alive { OnOk result (self.new.log.lost ≡ false) }
        ensures number { IfOk result (λ v. self.new.log.generation ≡ generation (bodies_of v.items)) }
        ensures leaves { Trusts D.Disk → (s : State) → ManagerStandsFor D.Disk self.old s
            → LeavesLook D.Disk self.old.log self.new.log s }
        ensures tables { self.new.tables ≡ self.old.tables }
        ensures up { self.new.up ≡ self.old.up }
        ensures doubt { self.new.doubt ≡ self.old.doubt }
        ensures outcome { self.new.outcome ≡ self.old.outcome }
    {
        self.log.rescan()
    }

    /// Whether the log that was read again goes on after this offset, with this generation, in a file of the newest
    /// format.
    fn goes_on(&self, end: u64, number: usize) -> bool
        ensures end { result ≡ true → self.now.log.end ≡ end }
        ensures number { result ≡ true → self.now.log.generation ≡ number }
        ensures modern { result ≡ true → self.now.log.format ≡ newest }
        ensures other { self.now.log.end ≡ end → self.now.log.generation ≡ number → self.now.log.format ≡ newest
            → result ≡ true }
    {
        self.log.end() == end
            && self.log.generation() == number
            && self.log.format() == Format::newest().number()
    }

    /// Makes ready what the next boot begins with, from the bodies of the log that was read again. All memory of a restart
    /// is taken by then.
    fn make_ready(&mut self, bodies: Vec<Vec<u8>>) -> Result<Planned, LogFault>
        ensures plans { Plans (moment_of self.old.tables.branches) (bodies_of bodies.items) result }
        ensures holds { IfOk result (λ planned. HoldsNext self.new.log planned.next) }
        ensures log { OnOk result (HasReserved D.Disk self.old.log self.new.log) }
        ensures rest { self.new ≡ record self.old { log = self.new.log } }
        ensures err { OnErr result (self.new ≡ self.old) }
    {
        let planned = plan(self.tables.alloc, self.tables.branches.moment(), bodies)?;
        reserve_next(&mut self.log, &planned.next)?;
        Ok(planned)
    }

    /// How many of the records that were lost after the log's end stand there in the log that was read again, which has
    /// these bodies.
    fn count_after(&self, bodies: &[Vec<u8>]) -> usize
        ensures { (s : State) (f : Found D.Disk (bodies_of bodies.now) self.now.log s) → Doubts self.now.doubt s
            → IsCounted self.now.doubt result f.many }
    {
        match self.doubt {
            Some(Doubt::Record(end)) => count_last(bodies, self.log.end().saturating_sub(end)),
            Some(Doubt::Boot(_)) | None => 0,
        }
    }

    /// How many of the records that were lost stand in the log that was read again, which came to this boot, and has
    /// `after_end` records after where it ended.
    fn survivors(&self, boot: u32, after_end: usize) -> usize
        ensures { (s : State) (bodies : List (List ℕ)) (f : Found D.Disk bodies self.now.log s)
            → Doubts self.now.doubt s → IsRecoverable s → boot ≡ f.state.logged_boot
            → IsCounted self.now.doubt after_end f.many → result ≡ f.many }
    {
        match self.doubt {
            None => 0,
            Some(Doubt::Boot(last)) => { if boot == last { 1 } else { 0 } }
            Some(Doubt::Record(_)) => after_end,
        }
    }

    /// Nothing can be appended: the manager is down.
    fn stopped(&mut self, survived: usize, detail: Detail) -> Done
        ensures reply { result.reply ≡ detailed XAER_RMFAIL detail }
        ensures told { result.outcome ≡ Outcome.Reread survived None }
        ensures down { self.new ≡ record self.old { up = false; doubt = None } }
    {
        self.up = false;
        self.doubt = None;
        Done {
            reply: Reply::detailed(XAER_RMFAIL, detail),
            outcome: Outcome::Reread {
                survived,
                appended: None,
            },
        }
    }

    /// The boot that was made ready is logged, and begins.
    fn log_boot(&mut self, survived: usize, next: NextBoot) -> Done
        requires some { 1 ≤ length next.bodies.items }
        requires sizes { AllByRecursion (IsBody newest) next.bodies.items }
        requires holds { HoldsEach self.old.log next.bodies.items }
        requires short { IsWithin MOST_VALUE next.records }
        requires keys { HasKeys next.records }
        requires above { self.old.log.generation < generation next.bodies.items }
        ensures turn { (s t : State) (rs : List Record) → ManagerStandsFor D.Disk self.old s → Trusts D.Disk
            → IsFate survived s t → Backs rs t → HasRecords D.Disk rs self.old.log
            → self.old.log.lost ≡ false → nat_lt t.logged_boot MOST_BOOTS ≡ true
            → next.boot ≡ t.logged_boot + 1 → IsReady (durable t) (t.logged_boot + 1) (moment_of self.old.tables.branches) next
            → AnswersAs D.Disk (taken (restart_turn s) result.outcome) result.reply self.new }
        ensures leaves { (s t : State) (rs : List Record) → ManagerStandsFor D.Disk self.old s → Trusts D.Disk
            → IsFate survived s t → Backs rs t → HasRecords D.Disk rs self.old.log
            → self.old.log.lost ≡ false → nat_lt t.logged_boot MOST_BOOTS ≡ true
            → IsReady (durable t) (t.logged_boot + 1) (moment_of self.old.tables.branches) next
            → LeavesBoot D.Disk self.old.log (restart_turn s) result.outcome self.new.log }
        ensures outcome { self.new.outcome ≡ self.old.outcome }
        ensures called { self.old.log.lost ≡ false → (log : LogView D) → NoneRises D.failures log self.old.log
            → HasCalled D.Disk result.outcome log self.new.log }
        ensures served { is_memory result.reply.detail ≡ false }
        ensures company { connected_to self.new ≡ connected_to self.old }
        ensures bare { IsBare result.reply }
    {
        match self.log.checkpoint(&next.bodies) {
            Appended::Kept => {
                self.tables.sessions.restart();
                self.tables.branches = next.branches;
                self.tables.records = next.records;
                self.up = true;
                self.doubt = None;
                begun(survived, Appending::Kept, Reply::plain(XA_OK))
            }
            Appended::Refused => {
                self.up = false;
                self.doubt = None;
                begun(
                    survived,
                    Appending::Refused,
                    Reply::detailed(XAER_RMFAIL, Detail::Device),
                )
            }
            Appended::Lost => {
                self.up = false;
                self.doubt = Some(Doubt::Boot(next.boot));
                begun(
                    survived,
                    Appending::Lost,
                    Reply::detailed(XAER_RMFAIL, Detail::Device),
                )
            }
            Appended::Full => self.stopped(survived, Detail::LogFull),
        }
    }

    /// A new boot begins with what the log came to, which has `after_end` records after where it ended.
    fn begin(&mut self, planned: Planned, after_end: usize) -> Done
        requires next { IsNext planned.durable.value (moment_of self.old.tables.branches) planned.next }
        requires boot { planned.boot ≡ planned.durable.value.boot }
        requires holds { HoldsNext self.old.log planned.next }
        requires above { IfSome planned.next
            (λ next. self.old.log.generation < generation next.bodies.items) }
        ensures turn { (s : State) (bodies : List (List ℕ)) → ManagerStandsFor D.Disk self.old s → Trusts D.Disk
            → (f : Found D.Disk bodies self.old.log s) → IsCounted self.old.doubt after_end f.many
            → LogRebuilt bodies (Ok planned.durable.value)
            → AnswersAs D.Disk (taken (restart_turn s) result.outcome) result.reply self.new }
        ensures leaves { (s : State) (bodies : List (List ℕ)) → ManagerStandsFor D.Disk self.old s → Trusts D.Disk
            → (f : Found D.Disk bodies self.old.log s) → IsCounted self.old.doubt after_end f.many
            → LogRebuilt bodies (Ok planned.durable.value)
            → LeavesBoot D.Disk self.old.log (restart_turn s) result.outcome self.new.log }
        ensures outcome { self.new.outcome ≡ self.old.outcome }
        ensures called { self.old.log.lost ≡ false → (log : LogView D) → NoneRises D.failures log self.old.log
            → HasCalled D.Disk result.outcome log self.new.log }
        ensures served { is_memory result.reply.detail ≡ false }
        ensures company { connected_to self.new ≡ connected_to self.old }
        ensures bare { IsBare result.reply }
    {
        let Planned { boot, next, .. } = planned;
        let survived = self.survivors(boot, after_end);
        match next {
            Some(next) => self.log_boot(survived, next),
            None => self.stopped(survived, Detail::Limit),
        }
    }

    /// The log isn't one that a manager wrote, or not the one that it was.
    fn unread(&mut self) -> Done
        ensures reply { result.reply ≡ detailed XAER_RMFAIL Detail.Nothing }
        ensures told { result.outcome ≡ Outcome.Reread 0 None }
        ensures down { self.new ≡ record self.old { up = false } }
    {
        self.up = false;
        Done {
            reply: Reply::detailed(XAER_RMFAIL, Detail::Nothing),
            outcome: Outcome::Reread {
                survived: 0,
                appended: None,
            },
        }
    }

    /// The device failed as the log was read.
    fn failed(&mut self) -> Done
        ensures reply { result.reply ≡ detailed XAER_RMFAIL Detail.Device }
        ensures told { result.outcome ≡ Outcome.Failed }
        ensures down { self.new ≡ record self.old { up = false } }
    {
        self.up = false;
        Done {
            reply: Reply::detailed(XAER_RMFAIL, Detail::Device),
            outcome: Outcome::Failed,
        }
    }

    /// The row of the request Restart: as `restart`, but lack of memory is an error.
    pub(crate) fn restarted(&mut self) -> Result<Done, AllocError>
        ensures ok { IfOk result (λ d. HasRestarted D.Disk self.old d.reply d.outcome self.new) }
        ensures err { OnErr result (HasWanted D.Disk self.old Request.Restart self.new) }
        ensures outcome { self.new.outcome ≡ self.old.outcome }
        ensures company { connected_to self.new ≡ connected_to self.old }
        ensures bare { IfOk result (λ d. IsBare d.reply) }
    {
        let end = self.log.end();
        let number = self.log.generation();
        match self.look() {
            Ok(bodies) => {
                let after_end = self.count_after(&bodies);
                match self.make_ready(bodies) {
                    Ok(planned) => Ok(self.begin(planned, after_end)),
                    Err(LogFault::Memory) => {
                        if self.up && !self.goes_on(end, number) {
                            return Ok(self.unread());
                        }
                        Err(AllocError)
                    }
                    Err(LogFault::Malformed(_)) => Ok(self.unread()),
                    Err(LogFault::Order(_)) => Ok(self.unread()),
                }
            }
            Err(OpenFault::Memory) => Err(AllocError),
            Err(OpenFault::Device) => Ok(self.failed()),
            Err(OpenFault::NotALog | OpenFault::TooNew | OpenFault::TooLong | OpenFault::Damaged) =>
                Ok(self.unread()),
        }
    }

    /// What the request Restart does, for whoever asks it without a session: the log is read again, and a new boot
    /// begins with what lasts of it. Sessions stay connected, and opened as they were; branches at work, associations,
    /// scans and read marks are gone. If it fails the manager is down. If memory ran out it stands for what it
    /// stood for.
    pub fn restart(&mut self) -> Reply
        ensures answered { MatchBool (is_memory result.detail)
            (StaysFor D.Disk self.old self.new × (outcome_of self.new ≡ outcome_of self.old))
            ((s : State) → ManagerStandsFor D.Disk self.old s → Trusts D.Disk
            → AnswersAs D.Disk (taken (restart_turn s) (outcome_of self.new)) result self.new) }
        ensures promises { is_memory result.detail ≡ false → RestartPromises D.Disk self.old result self.new }
        ensures pinned { is_memory result.detail ≡ true → result ≡ detailed XAER_RMFAIL Detail.Memory }
        ensures leaves { MatchBool (is_memory result.detail)
            ((s : State) → ManagerStandsFor D.Disk self.old s → Trusts D.Disk
            → LeavesLook D.Disk (log_of self.old) (log_of self.new) s)
            ((s : State) → ManagerStandsFor D.Disk self.old s → Trusts D.Disk
            → LeavesBy D.Disk (log_of self.old) (restart_turn s) (outcome_of self.new) (log_of self.new) s) }
        ensures called { is_memory result.detail ≡ false
            → HasCalled D.Disk (outcome_of self.new) (log_of self.old) (log_of self.new) }
        ensures connected { connected_to self.new ≡ connected_to self.old }
        ensures place { result.place ≡ 0 }
        ensures limits { IsReply result }
        ensures quiet { is_memory result.detail ≡ true → NoneRises D.failures (log_of self.old) (log_of self.new) }
    {
        match self.restarted() {
            Ok(done) => {
                self.outcome = done.outcome;
                done.reply
            }
            Err(_) => Reply::detailed(XAER_RMFAIL, Detail::Memory),
        }
    }
}

/// Has the log's buffer hold what the next boot begins with, if there is one.
fn reserve_next<D: Disk>(log: &mut Log<D>, next: &Option<NextBoot>) -> Result<(), AllocError>
    requires { IfSome next.now (λ n. AllByRecursion (IsBody newest) n.bodies.items) }
    ensures holds { OnOk result (HoldsNext log.new next.now) }
    ensures ok { OnOk result (HasReserved D.Disk log.old log.new) }
    ensures err { OnErr result (log.new ≡ log.old) }
{
    match next {
        Some(next) => reserve_for(log, &next.bodies),
        None => Ok(()),
    }
}

/// How many of these bodies' records are the log's last `bytes` bytes.
fn count_last(bodies: &[Vec<u8>], bytes: u64) -> usize
    ensures { (earlier later : List (List ℕ)) → bodies_of bodies.now ≡ earlier ++ later → bytes ≡ group_bytes later
        → result ≡ length later }
{
    let mut left = bytes;
    let mut first = bodies.len();
    'records: while left > 0 && first > 0 {
        first -= 1;
        left = left.saturating_sub(AROUND_BODY as u64 + bodies[first].len() as u64);
    }
    bodies.len() - first
}

fn begun(survived: usize, appended: Appending, reply: Reply) -> Done
    ensures told { result.outcome ≡ Outcome.Reread survived (Some appended) }
    ensures reply { result.reply ≡ reply }
{
    Done {
        reply,
        outcome: Outcome::Reread {
            survived,
            appended: Some(appended),
        },
    }
}

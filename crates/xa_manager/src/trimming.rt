ghost use Rattle.std.specs.Prelude.{◌≡◌, ◌+◌, ◌<◌, ◌≤◌, List, length, true, false, None, IfOk, OnErr};
ghost use Rattle.std.specs.List.{AllByRecursion};
ghost use Rattle.xa_record.specs.declared.record.Record.{Record};
ghost use Rattle.xa_log.specs.{Buffer.HoldsEach, Believed.Chain.IsBody};
ghost use Rattle.xa_log.specs.{Believed.Chain.newest, Believed.Pair.generation, Believed.LogView.LogView};
ghost use Rattle.xa_model.specs.{Invariants.Backing.Backs, Restarting.can_open, State.State, Trimming.trim_refusal, Trimming.trim_turn};
ghost use Rattle.xa_model.specs.{Turn.taken};
ghost use Rattle.xa_assoc.specs.Refusals.{is_memory};
ghost use Rattle.xa_manager.specs.{Believed.Answered.HasCalledToTrim, Believed.Answered.StaysFor};
ghost use Rattle.xa_manager.specs.{Connected.connected_to, Believed.Crash.LeavesBy};
ghost use Rattle.xa_manager.specs.Believed.LogStands.{HasRecords, Trusts, snapshot_bodies};
ghost use Rattle.xa_manager.specs.{Managed.AnswersAs, Managed.ManagerStandsFor, Replies.IsFresh, Reserving.HasReserved, Turns.HasTrimmed};

use crate::done::Done;
use crate::doubt::Doubt;
use crate::first_records::reserve_for;
use crate::log_space::begins_with_room;
use crate::manager::Manager;
use std::alloc::AllocError;
use xa_codes::{Detail, XAER_RMERR, XAER_RMFAIL};
use xa_disk::Disk;
use xa_frame::{Body, Reply};
use xa_limits::MOST_TRIM_BOOTS;
use xa_log::{Appended, Format, generation_of_snapshot};
use xa_model::{Appending, Outcome};
use xa_shared::SharedBytes;

/// How a new log is begun while the manager is up.
impl<D: Disk> Manager<D> {
    /// The row of the request Trim: a snapshot of what lasts is written to the other file, as the log of the next boot.
    /// All work goes on. Memory is taken for the snapshot, before anything is written.
    pub(crate) fn trim(&mut self) -> Result<Done, AllocError>
        requires up { self.old.up ≡ true }
        ensures ok { IfOk result (λ d. HasTrimmed D.Disk self.old d.reply d.outcome self.new) }
        ensures err { OnErr result (StaysFor D.Disk self.old self.new) }
        ensures outcome { self.new.outcome ≡ self.old.outcome }
        ensures company { connected_to self.new ≡ connected_to self.old }
        ensures fresh { IfOk result (λ d. IsFresh d.reply) }
        ensures untouched { OnErr result (self.new.log ≡ self.old.log) }
    {
        let boot = self.tables.branches.boot();
        if boot >= MOST_TRIM_BOOTS {
            return Ok(Done::now(Reply::detailed(XAER_RMERR, Detail::Limit)));
        }
        let bodies = self.tables.snapshot(boot)?;
        if !self.can_begin_with(&bodies) || !self.has_room_for(&bodies) {
            return Ok(Done::now(Reply::detailed(XAER_RMERR, Detail::LogFull)));
        }
        reserve_for(&mut self.log, &bodies)?;
        Ok(self.log_trim(boot + 1, &bodies))
    }

    /// Whether the other file takes a log of these bodies, as it does for each snapshot of what lasts, with the next
    /// boot's number.
    fn can_begin_with(&self, bodies: &[SharedBytes]) -> bool
        ensures some { result ≡ true → 1 ≤ length bodies.now }
        ensures sizes { result ≡ true → AllByRecursion (IsBody newest) bodies.now }
        ensures above { result ≡ true → self.now.log.generation < generation bodies.now }
        ensures other { 1 ≤ length bodies.now → AllByRecursion (IsBody newest) bodies.now
            → self.now.log.generation < generation bodies.now → result ≡ true }
    {
        !bodies.is_empty()
            && are_bodies(bodies)
            && self.log.generation() < generation_of_snapshot(bodies)
    }

    /// Whether such a log keeps the room to complete and forget what is prepared.
    fn has_room_for(&self, bodies: &[SharedBytes]) -> bool
        requires sizes { AllByRecursion (IsBody newest) bodies.now }
        ensures { (s : State) → ManagerStandsFor D.Disk self.now s → self.now.up ≡ true
            → bodies.now ≡ snapshot_bodies s (s.logged_boot + 1)
            → result ≡ can_open s s.log_bytes (s.logged_boot + 1) }
    {
        begins_with_room(
            bodies,
            self.tables.branches.prepared() as u64,
            self.tables.branches.completed() as u64,
            self.tables.log_bytes,
        )
    }

    /// The snapshot is logged, and its boot begins.
    fn log_trim(&mut self, next: u32, bodies: &[SharedBytes]) -> Done
        requires some { 1 ≤ length bodies.now }
        requires sizes { AllByRecursion (IsBody newest) bodies.now }
        requires holds { HoldsEach self.old.log bodies.now }
        requires above { self.old.log.generation < generation bodies.now }
        requires up { self.old.up ≡ true }
        ensures turn { (s : State) → ManagerStandsFor D.Disk self.old s → trim_refusal s ≡ None
            → next ≡ s.logged_boot + 1 → bodies.now ≡ snapshot_bodies s (s.logged_boot + 1)
            → AnswersAs D.Disk (taken (trim_turn s) result.outcome) result.reply self.new }
        // Both of a log that differed only in its buffer.
        ensures leaves { (log : LogView D) (s : State) (rs : List Record) → HasReserved D.Disk log self.old.log
            → ManagerStandsFor D.Disk self.old s → Trusts D.Disk → Backs rs s → HasRecords D.Disk rs log
            → trim_refusal s ≡ None → bodies.now ≡ snapshot_bodies s (s.logged_boot + 1)
            → LeavesBy D.Disk log (trim_turn s) result.outcome self.new.log s }
        ensures called { (log : LogView D) (s : State) → HasReserved D.Disk log self.old.log
            → ManagerStandsFor D.Disk self.old s → bodies.now ≡ snapshot_bodies s (s.logged_boot + 1)
            → HasCalledToTrim D.Disk result.outcome log self.new.log }
        ensures outcome { self.new.outcome ≡ self.old.outcome }
        ensures served { is_memory result.reply.detail ≡ false }
        ensures company { connected_to self.new ≡ connected_to self.old }
        ensures fresh { IsFresh result.reply }
    {
        match self.log.checkpoint(bodies) {
            Appended::Kept => {
                self.tables.begin_boot(next);
                self.doubt = None;
                trimmed(
                    Appending::Kept,
                    Reply::carrying(Body::Number(self.log.end())),
                )
            }
            // a snapshot that doesn't fit isn't asked for: `has_room_for`
            Appended::Refused | Appended::Full => {
                self.doubt = None;
                trimmed(
                    Appending::Refused,
                    Reply::detailed(XAER_RMERR, Detail::Device),
                )
            }
            Appended::Lost => {
                self.up = false;
                self.doubt = Some(Doubt::Boot(next));
                trimmed(
                    Appending::Lost,
                    Reply::detailed(XAER_RMFAIL, Detail::Device),
                )
            }
        }
    }
}

/// Whether each of these is a body of a record that the newest format takes.
fn are_bodies(bodies: &[SharedBytes]) -> bool
    ensures yes { result ≡ true → AllByRecursion (IsBody newest) bodies.now }
    ensures other { AllByRecursion (IsBody newest) bodies.now → result ≡ true }
{
    let most = Format::newest().most_body();
    for body in bodies {
        if body.is_empty() || body.len() > most {
            return false;
        }
    }
    true
}

fn trimmed(appended: Appending, reply: Reply) -> Done
    ensures { result ≡ record { reply = reply; outcome = Outcome.Appended appended } }
{
    Done {
        reply,
        outcome: Outcome::Appended(appended),
    }
}

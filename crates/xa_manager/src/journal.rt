ghost use Rattle.std.specs.Prelude.{◌≡◌, ◌≢◌, ◌≤◌, ◌+◌, length, true};
ghost use Rattle.xa_limits.specs.declared.TheConstants.{AROUND_BODY, MOST_BODY};
ghost use Rattle.xa_log.specs.Buffer.{Holds};
ghost use Rattle.std.specs.List.{AllByRecursion};
ghost use Rattle.xa_log.specs.{Believed.Chain.IsBody, Believed.Chain.newest};
ghost use Rattle.xa_log.specs.{Believed.Group.as_one, Believed.Group.bodies_in, Written.IsRange};
ghost use Rattle.xa_model.specs.{State.State, Logging.log_room, Logging.prepared_count};
ghost use Rattle.xa_manager.specs.{Managed.ManagerStandsFor, Believed.Answered.as_appended};
ghost use Rattle.xa_manager.specs.Turns.{HasJournaled, HasSettled, doubt_after, up_after};

use crate::doubt::Doubt;
use crate::log_space::leaves_room;
use crate::manager::Manager;
use xa_disk::{Disk, SyncAnswer};
use xa_limits::{AROUND_BODY, MOST_BODY};
use xa_log::{Appended, Format, Group, Written};
use xa_model::Appending;

/// How records come into the log.
impl<D: Disk> Manager<D> {
    /// Whether the log has room for a record with a body of `len` bytes, with `more` more prepared branches, besides
    /// what it keeps free. No log takes a body over `MOST_BODY`, nor does one that isn't of the newest format, which
    /// that of a manager that is up always is.
    pub(crate) fn has_room(&self, len: usize, more: u64) -> bool
        ensures room { (s : State) → ManagerStandsFor D.Disk self.now s → self.now.up ≡ true → len ≤ MOST_BODY
            → result ≡ log_room s.log_bytes (s.end + (len + AROUND_BODY)) (prepared_count s + more) (length s.decided) }
        ensures fits { result ≡ true → len ≤ MOST_BODY }
        ensures modern { result ≡ true → self.now.log.format ≡ newest }
    {
        if len > MOST_BODY || self.log.format() != Format::newest().number() {
            return false;
        }
        let end = self
            .log
            .end()
            .saturating_add(len as u64 + AROUND_BODY as u64);
        let prepared = (self.tables.branches.prepared() as u64).saturating_add(more);
        let completed = self.tables.branches.completed() as u64;
        leaves_room(end, prepared, completed, self.tables.log_bytes)
    }

    /// Appends the records of these bodies, for which the buffer has room, by one write and one sync. If they are
    /// lost the manager is down until it is restarted. Takes no memory.
    pub(crate) fn append(&mut self, group: Group<'_>) -> Appending
        requires some { 1 ≤ length (bodies_in group) }
        requires sizes { AllByRecursion (IsBody self.old.log.format) (bodies_in group) }
        requires holds { Holds self.old.log (as_one (bodies_in group)) }
        ensures { HasJournaled D.Disk (bodies_in group.entry) result self.old self.new }
    {
        let end = self.log.end();
        let appended = self.log.append_group(group);
        became(&mut self.up, &mut self.doubt, appended, end)
    }

    /// Settles a group that was written, by the sync's answer, as `append`.
    pub(crate) fn settle(&mut self, written: Written, answer: SyncAnswer) -> Appending
        requires { IsRange written self.old.log }
        ensures { HasSettled D.Disk written result self.old self.new }
    {
        let from = self.log.end();
        let appended = self.log.settle(written, answer);
        became(&mut self.up, &mut self.doubt, appended, from)
    }
}

// What the log's answer to records makes of whether a manager is up, and of its doubt, if they begin here.
fn became(up: &mut bool, doubt: &mut Option<Doubt>, appended: Appended, end: u64) -> Appending
    ensures answer { appended ≢ Appended.Full → appended ≡ as_appended result }
    ensures up { up.old ≡ true → up.new ≡ up_after result }
    ensures doubt { doubt.new ≡ doubt_after result end }
{
    match appended {
        Appended::Kept => {
            *doubt = None;
            Appending::Kept
        }
        // records that don't fit aren't asked for: `has_room`, and the room that is kept for small ones
        Appended::Refused | Appended::Full => {
            *doubt = None;
            Appending::Refused
        }
        Appended::Lost => {
            *up = false;
            *doubt = Some(Doubt::Record(end));
            Appending::Lost
        }
    }
}

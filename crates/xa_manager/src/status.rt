ghost use Rattle.std.specs.Prelude.{◌≡◌, is_some};
ghost use Rattle.mv_rules.specs.Records.{versions_in};
ghost use Rattle.xa_model.specs.{State.State, Step.opened_of};
ghost use Rattle.xa_manager.specs.{Believed.Pending.IsPending, Managed.ManagerStandsFor};
ghost use Rattle.xa_manager.specs.declared.pending.PendingGroup.{PendingGroup};
ghost use Rattle.xa_manager.specs.Status.{status_of, status_down, versions_of};
ghost use Rattle.xa_manager.specs.{Tables.TablesSay, View.view_of};

use crate::manager::Manager;
use crate::tables::Tables;
use xa_disk::Disk;
use xa_frame::Status;

impl<D: Disk> Manager<D> {
    /// How it is doing, also while it is down. Each number is a count that is kept. While a group is pending they are those
    /// before it. `calls` and `seconds` are 0: whoever serves it counts them. Changes nothing, and takes no memory.
    pub fn status(&self) -> Status
        ensures alone { (s : State) → ManagerStandsFor D.Disk self.now s
            → result ≡ status_of s (versions_of self.now) }
        ensures beside { (f : PendingGroup) (s : State) → IsPending D.Disk self.now f s
            → result ≡ status_of s (versions_of self.now) }
    {
        if self.up {
            self.tables.status_up(self.log.end())
        } else {
            self.tables.status_down()
        }
    }

    /// Whether a session with this number is connected, said of the states that it stands for.
    pub fn has_session(&self, session: u64) -> bool
        ensures { (s : State) → ManagerStandsFor D.Disk self.now s → result ≡ is_some (opened_of s session) }
    {
        self.tables.sessions.is_connected(session)
    }
}

/// What a status tells, from the tables.
impl Tables {
    /// For a manager that is up, whose log ends at `end`.
    fn status_up(&self, end: u64) -> Status
        ensures { TablesSay self.now (λ s. end ≡ s.end → result ≡ status_of s (versions_in self.now.records)) }
    {
        Status {
            boot: u64::from(self.branches.boot()),
            end,
            branches: self.branches.len() as u64,
            prepared: self.branches.prepared() as u64,
            completed: self.branches.completed() as u64,
            ..self.status_down()
        }
    }

    /// For a manager that is down: nothing is known of branches until it is restarted.
    fn status_down(&self) -> Status
        ensures { result ≡ status_down (view_of self.now) }
    {
        Status {
            boot: 0,
            end: 0,
            bytes: self.log_bytes,
            branches: 0,
            prepared: 0,
            completed: 0,
            sessions: self.sessions.connected() as u64,
            versions: self.records.versions(),
            calls: 0,
            seconds: 0,
        }
    }
}

ghost use Rattle.std.specs.Prelude.{◌≡◌};
ghost use Rattle.xa_operate.specs.Tasks.{decides, opens_session};

use xa_codes::Direction;
use xa_xid::Xid;

/// What an operator asks of a running server.
#[derive(Debug, Drop)]
pub enum Task {
    /// How it is doing.
    Status,
    /// The same, for Prometheus.
    Metrics,
    /// How many branches are at work.
    AtWork,
    /// Which branches it knows.
    Branches,
    /// How one of them is.
    Branch(Xid),
    /// Which of them are marked, and have nobody at work for them.
    Abandoned,
    /// Which branches are prepared, or completed by the operator.
    Recover,
    /// That it roll back each branch that is marked rollback-only, and that no session and no loose association is at work
    /// for.
    RollbackMarked,
    /// That it commit a prepared branch, as its transaction manager would.
    Commit(Xid),
    /// That it roll back a branch, as its transaction manager would.
    Rollback(Xid),
    /// That it forget a branch that the operator completed.
    Forget(Xid),
    /// That it complete a prepared branch by the operator's decision.
    Decide(Direction, Xid),
    /// That it mark a branch at work, which can then only be rolled back.
    Doom(Xid),
    /// That it hang up the session of this number, as if its connection had broken.
    Disconnect(u64),
    /// That it go on in the log's other file, with only what is still needed.
    Trim,
    /// That it reread its log, which ends all work.
    Restart,
}

impl Task {
    /// Whether it is asked in a session that is opened under the resource manager's name.
    pub fn opens_session(&self) -> bool
        ensures { result ≡ opens_session self.now }
    {
        match self {
            Task::Recover
            | Task::RollbackMarked
            | Task::Commit(_)
            | Task::Rollback(_)
            | Task::Forget(_) => true,
            Task::Status
            | Task::Metrics
            | Task::AtWork
            | Task::Branches
            | Task::Branch(_)
            | Task::Abandoned
            | Task::Decide(..)
            | Task::Doom(_)
            | Task::Disconnect(_)
            | Task::Trim
            | Task::Restart => false,
        }
    }

    /// Whether it can't be taken back: what became of a branch, or that work ends.
    pub fn decides(&self) -> bool
        ensures { result ≡ decides self.now }
    {
        match self {
            Task::Status
            | Task::Metrics
            | Task::AtWork
            | Task::Branches
            | Task::Branch(_)
            | Task::Abandoned
            | Task::Recover
            | Task::Trim => false,
            Task::RollbackMarked
            | Task::Commit(_)
            | Task::Rollback(_)
            | Task::Forget(_)
            | Task::Decide(..)
            | Task::Doom(_)
            | Task::Disconnect(_)
            | Task::Restart => true,
        }
    }
}

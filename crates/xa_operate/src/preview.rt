ghost use Rattle.std.specs.Prelude.{◌≡◌};
ghost use Rattle.xa_operate.specs.Previews.{preview_of};

use crate::task::Task;

/// What is asked, and shown, before it is asked whether a task is to be done: the branch that it names, or those that it
/// rolls back, or how many are at work.
pub(crate) fn preview_of(task: &Task) -> Task
    ensures { result ≡ preview_of task.now }
{
    match task {
        Task::Commit(xid)
        | Task::Rollback(xid)
        | Task::Forget(xid)
        | Task::Decide(_, xid)
        | Task::Doom(xid) => Task::Branch(xid.copied()),
        Task::RollbackMarked => Task::Abandoned,
        _ => Task::AtWork,
    }
}

//! Which of the branches that are listed are shown, and of which it is asked who is at work for them.
ghost use Rattle.std.specs.Prelude.{◌≡◌, ◌++◌, All, OnOk, IfOk, position};
ghost use Rattle.xa_operate.specs.Agendas.{before_asked, is_to_ask, session_of, sessions_of, shows};
ghost use Rattle.xa_operate.specs.Askings.{IsAsking};

use crate::agenda::is_abandoned;
use crate::asking::Asking;
use crate::task::Task;
use std::alloc::{AllocError, Global};
use std::collections::VecDeque;
use xa_frame::{KnownBranch, KnownBranches};

/// Whether a branch that is listed is shown.
pub(crate) fn shows(task: &Task, branch: &KnownBranch) -> bool
    ensures { result ≡ shows task.now branch.now }
{
    match task {
        Task::Branch(xid) => branch.xid == *xid,
        Task::Abandoned => is_abandoned(branch),
        _ => true,
    }
}

/// Whether it is asked which sessions are at work for a branch: it is shown, and some are, or have suspended their work.
fn is_to_ask(task: &Task, branch: &KnownBranch) -> bool
    ensures { result ≡ is_to_ask task.now branch.now }
{
    let counts = branch.associations;
    shows(task, branch) && (counts.active != 0 || counts.suspended != 0)
}

/// The branches before the first one of which that is asked.
pub(crate) fn before_asked<'a>(task: &Task, branches: &'a [KnownBranch]) -> &'a [KnownBranch]
    ensures { result.now ≡ before_asked task.now branches.now }
{
    match first_asked(task, branches) {
        Some(index) => &branches[..index],
        None => branches,
    }
}

/// The place of that one.
fn first_asked(task: &Task, branches: &[KnownBranch]) -> Option<usize>
    ensures { result ≡ position (is_to_ask task.now) branches.now }
{
    branches.iter().position(|branch| is_to_ask(task, branch))
}

/// It is to be asked which sessions are at work for each of which that is asked.
pub(crate) fn push_sessions(
    alloc: Global,
    agenda: &mut VecDeque<Asking>,
    task: &Task,
    branches: &[KnownBranch],
) -> Result<(), AllocError>
    requires { All IsAsking agenda.old.items }
    ensures questions { OnOk result (agenda.new.items ≡ agenda.old.items ++ sessions_of task.now branches.now) }
    ensures limits { OnOk result (All IsAsking agenda.new.items) }
{
    let mut rest = branches;
    while let [branch, behind @ ..] = rest {
        push_session(alloc, agenda, task, branch, behind)?;
        rest = behind;
    }
    Ok(())
}

/// The same of one of them, with those that are listed after it.
fn push_session(
    alloc: Global,
    agenda: &mut VecDeque<Asking>,
    task: &Task,
    branch: &KnownBranch,
    behind: &[KnownBranch],
) -> Result<(), AllocError>
    requires { All IsAsking agenda.old.items }
    ensures questions { OnOk result (agenda.new.items ≡ agenda.old.items ++ session_of task.now branch.now behind.now) }
    ensures limits { OnOk result (All IsAsking agenda.new.items) }
{
    if is_to_ask(task, branch) {
        let others = copied(alloc, before_asked(task, behind))?;
        agenda.push_back(Asking::Sessions(branch.copied(), others))?;
    }
    Ok(())
}

fn copied(alloc: Global, branches: &[KnownBranch]) -> Result<KnownBranches, AllocError>
    ensures { IfOk result (λ copies. copies ≡ branches.now) }
{
    let mut copies = Vec::with_capacity(alloc, branches.len())?;
    for branch in branches {
        copies.push(branch.copied())?;
    }
    Ok(KnownBranches::new(copies))
}

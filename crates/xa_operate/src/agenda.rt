//! What a task asks, and what it goes on to ask by an answer.
ghost use Rattle.std.specs.Prelude.{◌≡◌, ◌≤◌, ◌++◌, ◌∷◌, [], All, IfOk, OnOk, length};
ghost use Rattle.xa_limits.specs.declared.TheConstants.{MOST_INFO};
ghost use Rattle.xa_operate.specs.Agendas.{after_listed, after_page, after_scan, asked_first, behind, behind_body, has_no_association};
ghost use Rattle.xa_operate.specs.Agendas.{is_abandoned, question_of, rollback_of, rollbacks_of};
ghost use Rattle.xa_operate.specs.Askings.{IsAsking, called};

use crate::asking::Asking;
use crate::listed::push_sessions;
use crate::task::Task;
use std::alloc::{AllocError, Global};
use std::collections::VecDeque;
use xa_codes::{Bytes, TMNOFLAGS, TMSTARTRSCAN, XA_OK};
use xa_frame::{AssociationCounts, Body, BranchState, KnownBranch, Question, Request};
use xa_talk::Answered;

/// How many branches, or XIDs, are asked for at a time: as many as a reply may have.
pub const PAGE: u32 = 256;

/// What a task asks first.
pub(crate) fn asked_first(
    alloc: Global,
    name: &str,
    task: &Task,
) -> Result<VecDeque<Asking>, AllocError>
    requires { length name.now ≤ MOST_INFO }
    ensures questions { IfOk result (λ agenda. agenda.items ≡ asked_first name.now task.now) }
    ensures limits { IfOk result (λ agenda. All IsAsking agenda.items) }
{
    let mut agenda = VecDeque::new(alloc);
    if task.opens_session() {
        agenda.push_back(called(Request::Open {
            flags: TMNOFLAGS,
            info: Bytes::from_slice(alloc, name.as_bytes())?,
        }))?;
    }
    agenda.push_back(question_of(task))?;
    Ok(agenda)
}

fn called(request: Request) -> Asking
    ensures { result ≡ called request }
{
    Asking::Question(Question::Call(request))
}

fn question_of(task: &Task) -> Asking
    ensures value { result ≡ question_of task.now }
    ensures limits { IsAsking result }
{
    let flags = TMNOFLAGS;
    called(match task {
        Task::Status | Task::Metrics | Task::AtWork => return Asking::Question(Question::Status),
        Task::Disconnect(session) => return Asking::Disconnect(*session),
        Task::Branches | Task::Branch(_) | Task::Abandoned | Task::RollbackMarked => {
            Request::Branches {
                count: PAGE,
                after: None,
            }
        }
        Task::Recover => Request::Recover {
            flags: TMSTARTRSCAN,
            count: PAGE,
        },
        Task::Commit(xid) => Request::Commit {
            flags,
            xid: xid.copied(),
        },
        Task::Rollback(xid) => Request::Rollback {
            flags,
            xid: xid.copied(),
        },
        Task::Forget(xid) => Request::Forget {
            flags,
            xid: xid.copied(),
        },
        Task::Decide(direction, xid) => Request::Decide {
            direction: *direction,
            xid: xid.copied(),
        },
        Task::Doom(xid) => Request::Doom { xid: xid.copied() },
        Task::Trim => Request::Trim,
        Task::Restart => Request::Restart,
    })
}

/// Adds what a task goes on to ask once this is answered.
pub(crate) fn push_behind(
    alloc: Global,
    agenda: &mut VecDeque<Asking>,
    task: &Task,
    answered: &Answered,
) -> Result<(), AllocError>
    requires { All IsAsking agenda.old.items }
    ensures questions { OnOk result (agenda.new.items ≡ agenda.old.items ++ behind task.now answered.now) }
    ensures limits { OnOk result (All IsAsking agenda.new.items) }
{
    match answered {
        Answered::Reply(reply) => push_behind_body(alloc, agenda, task, &reply.body),
        Answered::Control(_) => Ok(()),
    }
}

fn push_behind_body(
    alloc: Global,
    agenda: &mut VecDeque<Asking>,
    task: &Task,
    body: &Body,
) -> Result<(), AllocError>
    requires { All IsAsking agenda.old.items }
    ensures questions { OnOk result (agenda.new.items ≡ agenda.old.items ++ behind_body task.now body.now) }
    ensures limits { OnOk result (All IsAsking agenda.new.items) }
{
    match (task, body) {
        (Task::Recover, Body::Xids(xids)) => push_scan(agenda, xids.as_slice().len()),
        (Task::Metrics, Body::Status(_)) => push_metrics(agenda),
        (Task::Branches | Task::Branch(_) | Task::Abandoned, Body::Branches(branches)) => {
            push_listed(alloc, agenda, task, branches.as_slice())
        }
        (Task::RollbackMarked, Body::Branches(branches)) => {
            push_rollbacks(agenda, branches.as_slice())?;
            push_page(agenda, branches.as_slice())
        }
        _ => Ok(()),
    }
}

fn push_metrics(agenda: &mut VecDeque<Asking>) -> Result<(), AllocError>
    requires { All IsAsking agenda.old.items }
    ensures questions { OnOk result (agenda.new.items ≡ agenda.old.items ++ Asking.Metrics ∷ []) }
    ensures limits { OnOk result (All IsAsking agenda.new.items) }
{
    agenda.push_back(Asking::Metrics)?;
    Ok(())
}

/// The sessions of branches that are listed, and then the next page.
fn push_listed(
    alloc: Global,
    agenda: &mut VecDeque<Asking>,
    task: &Task,
    branches: &[KnownBranch],
) -> Result<(), AllocError>
    requires { All IsAsking agenda.old.items }
    ensures questions { OnOk result (agenda.new.items ≡ agenda.old.items ++ after_listed task.now branches.now) }
    ensures limits { OnOk result (All IsAsking agenda.new.items) }
{
    push_sessions(alloc, agenda, task, branches)?;
    push_page(agenda, branches)
}

/// The scan goes on after a full page.
fn push_scan(agenda: &mut VecDeque<Asking>, count: usize) -> Result<(), AllocError>
    requires { All IsAsking agenda.old.items }
    ensures questions { OnOk result (agenda.new.items ≡ agenda.old.items ++ after_scan count) }
    ensures limits { OnOk result (All IsAsking agenda.new.items) }
{
    if count == PAGE as usize {
        agenda.push_back(called(Request::Recover {
            flags: TMNOFLAGS,
            count: PAGE,
        }))?;
    }
    Ok(())
}

/// The list goes on above the last branch of a full page.
fn push_page(agenda: &mut VecDeque<Asking>, branches: &[KnownBranch]) -> Result<(), AllocError>
    requires { All IsAsking agenda.old.items }
    ensures questions { OnOk result (agenda.new.items ≡ agenda.old.items ++ after_page branches.now) }
    ensures limits { OnOk result (All IsAsking agenda.new.items) }
{
    if branches.len() != PAGE as usize {
        return Ok(());
    }
    if let Some(last) = branches.last() {
        agenda.push_back(called(Request::Branches {
            count: PAGE,
            after: Some(last.xid.copied()),
        }))?;
    }
    Ok(())
}

/// Each abandoned branch is to be rolled back.
fn push_rollbacks(agenda: &mut VecDeque<Asking>, branches: &[KnownBranch]) -> Result<(), AllocError>
    requires { All IsAsking agenda.old.items }
    ensures questions { OnOk result (agenda.new.items ≡ agenda.old.items ++ rollbacks_of branches.now) }
    ensures limits { OnOk result (All IsAsking agenda.new.items) }
{
    for branch in branches {
        push_rollback(agenda, branch)?;
    }
    Ok(())
}

fn push_rollback(agenda: &mut VecDeque<Asking>, branch: &KnownBranch) -> Result<(), AllocError>
    requires { All IsAsking agenda.old.items }
    ensures questions { OnOk result (agenda.new.items ≡ agenda.old.items ++ rollback_of branch.now) }
    ensures limits { OnOk result (All IsAsking agenda.new.items) }
{
    if is_abandoned(branch) {
        agenda.push_back(called(Request::Rollback {
            flags: TMNOFLAGS,
            xid: branch.xid.copied(),
        }))?;
    }
    Ok(())
}

/// Whether a branch is marked, so that it can only be rolled back, and nobody is at work for it.
pub(crate) fn is_abandoned(branch: &KnownBranch) -> bool
    ensures { result ≡ is_abandoned branch.now }
{
    branch.state == BranchState::Working
        && branch.mark != XA_OK
        && has_no_association(branch.associations)
}

fn has_no_association(counts: AssociationCounts) -> bool
    ensures { result ≡ has_no_association counts }
{
    counts.active == 0 && counts.suspended == 0 && counts.loose == 0
}

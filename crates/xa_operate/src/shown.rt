//! What is printed of an answer.
ghost use Rattle.std.specs.Option.{option_copied};
ghost use Rattle.std.specs.Prelude.{◌≡◌, ◌++◌, IfOk, OnOk};
ghost use Rattle.xa_operate.specs.Agendas.{before_asked};
ghost use Rattle.xa_operate.specs.Shown.{sessions_in, shown, shown_asked, shown_body, shown_counts, shown_line, shown_lines, shown_listed};
ghost use Rattle.xa_operate.specs.Shown.{shown_marked, shown_own, shown_reply, shown_rollback, shown_status};

use crate::answer::passes_over;
use crate::asking::Asking;
use crate::counted::counted_text;
use crate::format::Format;
use crate::line::{push_at_work, push_branch, push_log_end, push_rolled, push_status, push_xids};
use crate::listed::{before_asked, shows};
use crate::metrics::push_metrics;
use crate::task::Task;
use std::alloc::{AllocError, Global};
use xa_control::Answer;
use xa_frame::{Body, KnownBranch, Question, Reply, Request, Status};
use xa_talk::Answered;

/// What is printed of an answer.
pub(crate) fn shown(
    alloc: Global,
    format: Format,
    task: &Task,
    asking: &Asking,
    answered: &Answered,
) -> Result<Vec<u8>, AllocError>
    ensures { IfOk result (λ text. text.items ≡ shown format task.now asking.now answered.now) }
{
    match answered {
        Answered::Reply(reply) => shown_asked(alloc, format, task, asking, reply),
        Answered::Control(answer) => shown_own(alloc, format, task, asking, answer),
    }
}

fn shown_asked(
    alloc: Global,
    format: Format,
    task: &Task,
    asking: &Asking,
    reply: &Reply,
) -> Result<Vec<u8>, AllocError>
    ensures { IfOk result (λ text. text.items ≡ shown_asked format task.now asking.now reply.now) }
{
    match asking {
        Asking::Question(question) => shown_reply(alloc, format, task, question, reply),
        _ => Ok(Vec::new(alloc)),
    }
}

fn shown_own(
    alloc: Global,
    format: Format,
    task: &Task,
    asking: &Asking,
    answer: &Answer,
) -> Result<Vec<u8>, AllocError>
    ensures { IfOk result (λ text. text.items ≡ shown_own format task.now asking.now answer.now) }
{
    match asking {
        Asking::Sessions(branch, others) => {
            shown_listed(alloc, format, task, branch, others.as_slice(), answer)
        }
        Asking::Metrics => shown_counts(alloc, answer),
        _ => Ok(Vec::new(alloc)),
    }
}

/// A branch with its sessions, and those listed after it.
fn shown_listed(
    alloc: Global,
    format: Format,
    task: &Task,
    branch: &KnownBranch,
    others: &[KnownBranch],
    answer: &Answer,
) -> Result<Vec<u8>, AllocError>
    ensures { IfOk result (λ text. text.items ≡ shown_listed format task.now branch.now others.now answer.now) }
{
    let mut text = Vec::new(alloc);
    push_branch(alloc, &mut text, format, branch, sessions_in(answer))?;
    push_branches(alloc, &mut text, format, task, others)?;
    Ok(text)
}

/// The sessions that a server tells, if it does.
fn sessions_in(answer: &Answer) -> Option<&[u64]>
    ensures { option_copied result ≡ sessions_in answer.now }
{
    match answer {
        Answer::Sessions(sessions) => Some(sessions.as_slice()),
        _ => None,
    }
}

/// What it has counted.
fn shown_counts(alloc: Global, answer: &Answer) -> Result<Vec<u8>, AllocError>
    ensures { IfOk result (λ text. text.items ≡ shown_counts answer.now) }
{
    match answer {
        Answer::Metrics(numbers) => counted_text(alloc, numbers.as_slice()),
        _ => Ok(Vec::new(alloc)),
    }
}

fn shown_reply(
    alloc: Global,
    format: Format,
    task: &Task,
    question: &Question,
    reply: &Reply,
) -> Result<Vec<u8>, AllocError>
    ensures { IfOk result (λ text. text.items ≡ shown_reply format task.now question.now reply.now) }
{
    match task {
        Task::RollbackMarked => shown_marked(alloc, format, question, reply),
        _ => shown_body(alloc, format, task, &reply.body),
    }
}

fn shown_body(
    alloc: Global,
    format: Format,
    task: &Task,
    body: &Body,
) -> Result<Vec<u8>, AllocError>
    ensures { IfOk result (λ text. text.items ≡ shown_body format task.now body.now) }
{
    let mut text = Vec::new(alloc);
    match body {
        Body::Xids(xids) => push_xids(&mut text, format, xids.as_slice())?,
        Body::Branches(branches) => {
            push_first(alloc, &mut text, format, task, branches.as_slice())?
        }
        Body::Status(status) => push_numbers(alloc, &mut text, format, task, *status)?,
        Body::Number(number) => push_log_end(alloc, &mut text, format, *number)?,
        _ => {}
    }
    Ok(text)
}

/// Adds the lines of the branches before the first one whose sessions are asked for.
fn push_first(
    alloc: Global,
    text: &mut Vec<u8>,
    format: Format,
    task: &Task,
    branches: &[KnownBranch],
) -> Result<(), AllocError>
    ensures { OnOk result (text.new.items ≡ text.old.items ++ shown_lines format task.now (before_asked task.now branches.now)) }
{
    push_branches(alloc, text, format, task, before_asked(task, branches))
}

/// Adds a line of each branch that is shown, for which no session is at work.
fn push_branches(
    alloc: Global,
    text: &mut Vec<u8>,
    format: Format,
    task: &Task,
    branches: &[KnownBranch],
) -> Result<(), AllocError>
    ensures { OnOk result (text.new.items ≡ text.old.items ++ shown_lines format task.now branches.now) }
{
    for branch in branches {
        push_shown(alloc, text, format, task, branch)?;
    }
    Ok(())
}

fn push_shown(
    alloc: Global,
    text: &mut Vec<u8>,
    format: Format,
    task: &Task,
    branch: &KnownBranch,
) -> Result<(), AllocError>
    ensures { OnOk result (text.new.items ≡ text.old.items ++ shown_line format task.now branch.now) }
{
    if shows(task, branch) {
        push_branch(alloc, text, format, branch, Some(&[]))?;
    }
    Ok(())
}

/// Adds what of a server's numbers is shown.
fn push_numbers(
    alloc: Global,
    text: &mut Vec<u8>,
    format: Format,
    task: &Task,
    status: Status,
) -> Result<(), AllocError>
    ensures { OnOk result (text.new.items ≡ text.old.items ++ shown_status format task.now status) }
{
    match task {
        Task::AtWork => push_at_work(alloc, text, format, status),
        Task::Metrics => push_metrics(alloc, text, status),
        _ => push_status(alloc, text, format, status),
    }
}

fn shown_marked(
    alloc: Global,
    format: Format,
    question: &Question,
    reply: &Reply,
) -> Result<Vec<u8>, AllocError>
    ensures { IfOk result (λ text. text.items ≡ shown_marked format question.now reply.now) }
{
    match question {
        Question::Call(request) => shown_rollback(alloc, format, request, reply),
        _ => Ok(Vec::new(alloc)),
    }
}

fn shown_rollback(
    alloc: Global,
    format: Format,
    request: &Request,
    reply: &Reply,
) -> Result<Vec<u8>, AllocError>
    ensures { IfOk result (λ text. text.items ≡ shown_rollback format request.now reply.now) }
{
    let mut text = Vec::new(alloc);
    if let Request::Rollback { xid, .. } = request
        && !passes_over(&Task::RollbackMarked, reply.code)
    {
        push_rolled(alloc, &mut text, format, xid, reply.code)?;
    }
    Ok(text)
}

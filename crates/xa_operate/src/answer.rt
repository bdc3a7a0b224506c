//! Whether a reply is what was asked for.
ghost use Rattle.std.specs.Prelude.{◌≡◌};
ghost use Rattle.xa_operate.specs.Answers.{answers, answers_asked, answers_call, answers_own, answers_question, answers_rollback};
ghost use Rattle.xa_operate.specs.Answers.{is_branches, is_done, is_first_mark, is_last_mark, is_mark, is_number, is_status, is_xids};
ghost use Rattle.xa_operate.specs.Answers.{may_tell_counts, may_tell_sessions, passes_over, refusal};

use crate::asking::Asking;
use crate::fault::OperateFault;
use crate::task::Task;
use xa_codes::{
    Code, Detail, XA_OK, XA_RBCOMMFAIL, XA_RBDEADLOCK, XA_RBINTEGRITY, XA_RBOTHER, XA_RBPROTO,
    XA_RBROLLBACK, XA_RBTIMEOUT, XA_RBTRANSIENT, XAER_NOTA,
};
use xa_control::Answer;
use xa_frame::{Body, Question, Reply, Request};
use xa_talk::Answered;

/// Whether an answer says that what was asked is done. Any other is a refusal.
pub(crate) fn answers(task: &Task, asking: &Asking, answered: &Answered) -> bool
    ensures { result ≡ answers task.now asking.now answered.now }
{
    match answered {
        Answered::Reply(reply) => answers_asked(task, asking, reply),
        Answered::Control(answer) => answers_own(asking, answer),
    }
}

/// What is told of an answer that refuses.
pub(crate) fn refusal(answered: &Answered) -> OperateFault
    ensures { result ≡ refusal answered.now }
{
    match answered {
        Answered::Reply(reply) => OperateFault::Refused(reply.code, reply.detail),
        Answered::Control(Answer::Refused(code, detail)) => OperateFault::Refused(*code, *detail),
        Answered::Control(_) => OperateFault::Refused(XA_OK, Detail::Nothing),
    }
}

fn answers_asked(task: &Task, asking: &Asking, reply: &Reply) -> bool
    ensures { result ≡ answers_asked task.now asking.now reply.now }
{
    match asking {
        Asking::Question(question) => answers_question(task, question, reply),
        _ => false,
    }
}

/// The same of what a server itself is asked. An older server tells neither sessions nor counts, nor does one with workers.
fn answers_own(asking: &Asking, answer: &Answer) -> bool
    ensures { result ≡ answers_own asking.now answer.now }
{
    match asking {
        Asking::Disconnect(_) => is_done(answer),
        Asking::Sessions(..) => may_tell_sessions(answer),
        Asking::Metrics => may_tell_counts(answer),
        Asking::Question(_) => false,
    }
}

fn is_done(answer: &Answer) -> bool
    ensures { result ≡ is_done answer.now }
{
    match answer {
        Answer::Done => true,
        _ => false,
    }
}

fn may_tell_sessions(answer: &Answer) -> bool
    ensures { result ≡ may_tell_sessions answer.now }
{
    match answer {
        Answer::Sessions(_) | Answer::Refused(..) => true,
        _ => false,
    }
}

fn may_tell_counts(answer: &Answer) -> bool
    ensures { result ≡ may_tell_counts answer.now }
{
    match answer {
        Answer::Metrics(_) | Answer::Refused(..) => true,
        _ => false,
    }
}

fn answers_question(task: &Task, question: &Question, reply: &Reply) -> bool
    ensures { result ≡ answers_question task.now question.now reply.now }
{
    match question {
        Question::Status => reply.code == XA_OK && is_status(&reply.body),
        Question::Call(request) => answers_call(task, request, reply),
    }
}

fn answers_call(task: &Task, request: &Request, reply: &Reply) -> bool
    ensures { result ≡ answers_call task.now request.now reply.now }
{
    match request {
        Request::Branches { .. } => reply.code == XA_OK && is_branches(&reply.body),
        Request::Recover { .. } => is_xids(&reply.body),
        Request::Trim => reply.code == XA_OK && is_number(&reply.body),
        Request::Rollback { .. } => answers_rollback(task, reply.code),
        _ => reply.code == XA_OK,
    }
}

/// A branch that is rolled back is answered its mark, if it has one.
fn answers_rollback(task: &Task, code: Code) -> bool
    ensures { result ≡ answers_rollback task.now code }
{
    code == XA_OK || is_mark(code) || passes_over(task, code)
}

/// Of the marked branches one that is no longer known is passed over: somebody else rolled it back.
pub(crate) fn passes_over(task: &Task, code: Code) -> bool
    ensures { result ≡ passes_over task.now code }
{
    match task {
        Task::RollbackMarked => code == XAER_NOTA,
        _ => false,
    }
}

/// Whether a branch can only be rolled back, for this reason.
fn is_mark(code: Code) -> bool
    ensures { result ≡ is_mark code }
{
    is_first_mark(code) || is_last_mark(code)
}

fn is_first_mark(code: Code) -> bool
    ensures { result ≡ is_first_mark code }
{
    code == XA_RBROLLBACK
        || code == XA_RBCOMMFAIL
        || code == XA_RBDEADLOCK
        || code == XA_RBINTEGRITY
}

fn is_last_mark(code: Code) -> bool
    ensures { result ≡ is_last_mark code }
{
    code == XA_RBOTHER || code == XA_RBPROTO || code == XA_RBTIMEOUT || code == XA_RBTRANSIENT
}

fn is_status(body: &Body) -> bool
    ensures { result ≡ is_status body.now }
{
    match body {
        Body::Status(_) => true,
        _ => false,
    }
}

fn is_branches(body: &Body) -> bool
    ensures { result ≡ is_branches body.now }
{
    match body {
        Body::Branches(_) => true,
        _ => false,
    }
}

fn is_xids(body: &Body) -> bool
    ensures { result ≡ is_xids body.now }
{
    match body {
        Body::Xids(_) => true,
        _ => false,
    }
}

fn is_number(body: &Body) -> bool
    ensures { result ≡ is_number body.now }
{
    match body {
        Body::Number(_) => true,
        _ => false,
    }
}

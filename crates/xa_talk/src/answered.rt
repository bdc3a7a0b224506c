//! What a line is answered, and how that is shown.
ghost use Rattle.std.specs.Prelude.{◌≡◌, IfOk};
ghost use Rattle.xa_talk.specs.Talks.{answered_line, is_error, is_listing, is_refusal, refuses};

use std::alloc::{AllocError, Global};
use xa_codes::{XA_OK, XA_RDONLY};
use xa_control::Answer;
use xa_frame::{Body, Reply};
use xa_script::{Style, answer_line, styled_line};

/// What a line is answered.
#[derive(Debug, Drop)]
pub enum Answered {
    /// A call, a question, or what asks nothing.
    Reply(Reply),
    /// What asks the server itself something.
    Control(Answer),
}

/// The line that shows it, in a style.
pub(crate) fn answered_line(
    alloc: Global,
    answered: &Answered,
    style: Style,
) -> Result<Vec<u8>, AllocError>
    ensures { IfOk result (λ line. line.items ≡ answered_line style answered.now) }
{
    match answered {
        Answered::Reply(reply) => styled_line(alloc, reply, style),
        Answered::Control(answer) => answer_line(alloc, answer, style.has_names),
    }
}

/// Whether it is an error.
pub(crate) fn is_error(answered: &Answered) -> bool
    ensures { result ≡ is_error answered.now }
{
    match answered {
        Answered::Reply(reply) => refuses(reply),
        Answered::Control(answer) => is_refusal(answer),
    }
}

/// Whether a reply is an error: its code is neither 0 nor that of a branch that has nothing to commit, nor how many XIDs
/// are listed.
fn refuses(reply: &Reply) -> bool
    ensures { result ≡ refuses reply.now }
{
    reply.code != XA_OK && reply.code != XA_RDONLY && !is_listing(&reply.body)
}

fn is_listing(body: &Body) -> bool
    ensures { result ≡ is_listing body.now }
{
    match body {
        Body::Xids(_) => true,
        _ => false,
    }
}

fn is_refusal(answer: &Answer) -> bool
    ensures { result ≡ is_refusal answer.now }
{
    match answer {
        Answer::Refused(..) => true,
        _ => false,
    }
}

//! A server is asked something over the connection of a number.
ghost use Rattle.std.specs.Prelude.{◌≡◌};
ghost use Rattle.xa_talk.specs.Answers.{AskAnswered, ControlAnswered, told};

use crate::answer::{end, shown};
use crate::answered::Answered;
use crate::connections::{Connections, index_of};
use crate::exchanging::ask_control;
use crate::fault::TalkFault;
use std::alloc::Global;
use std::io::{Read, Write};
use xa_codes::{Detail, XAER_PROTO};
use xa_control::{Answer, Control};

/// What it answers that is asked this over the connection of a number.
pub(crate) fn control<R: Read + Drop, W: Write + Drop>(
    alloc: Global,
    connections: &mut Connections<R, W>,
    number: u64,
    control: &Control,
) -> Result<Option<Answered>, TalkFault>
    ensures { ControlAnswered (λ c. W.contents c.writer) (λ c. R.remaining c.reader) number control.now result
        connections.old.numbered.items connections.new.numbered.items }
{
    match control {
        Control::Shutdown => shown(end(alloc, connections, number)),
        Control::Hello(_)
        | Control::Disconnect(_)
        | Control::Metrics
        | Control::Sessions(_)
        | Control::First(_)
        | Control::Final(_) => told(ask(alloc, connections, number, control)),
    }
}

/// A server's own answer is shown, a fault isn't.
fn told(answer: Result<Answer, TalkFault>) -> Result<Option<Answered>, TalkFault>
    ensures { result ≡ told answer }
{
    match answer {
        Ok(answer) => Ok(Some(Answered::Control(answer))),
        Err(fault) => Err(fault),
    }
}

/// Asks a server something that leaves the connection as it is.
fn ask<R: Read + Drop, W: Write + Drop>(
    alloc: Global,
    connections: &mut Connections<R, W>,
    number: u64,
    control: &Control,
) -> Result<Answer, TalkFault>
    ensures { AskAnswered (λ c. W.contents c.writer) (λ c. R.remaining c.reader) number control.now result
        connections.old.numbered.items connections.new.numbered.items }
{
    let Some(index) = index_of(number) else {
        return Ok(unconnected());
    };
    if index >= connections.numbered.len() {
        return Ok(unconnected());
    }
    match &mut connections.numbered[index] {
        Some(connection) => ask_control(alloc, connection, control),
        None => Ok(unconnected()),
    }
}

/// What a number is answered that has no connection.
fn unconnected() -> Answer
    ensures { result ≡ Answer.Refused XAER_PROTO Detail.Nothing }
{
    Answer::Refused(XAER_PROTO, Detail::Nothing)
}

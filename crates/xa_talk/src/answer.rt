//! What one line is answered.
ghost use Rattle.std.specs.Prelude.{◌≡◌, ◌+◌, pos};
ghost use Rattle.xa_frame.specs.Questions.{IsQuestion};
ghost use Rattle.xa_script.specs.Lines as lines;
ghost use Rattle.xa_talk.specs.Answers.{CallAnswered, ConnectAnswered, EndAnswered, EndAsked, LineAnswered, shown};

use crate::answered::Answered;
use crate::connections::{Connections, index_of};
use crate::controlling::control;
use crate::dial::{Connection, Dial};
use crate::exchanging::{ask_end, exchange};
use crate::fault::TalkFault;
use std::alloc::Global;
use std::io::{Read, Write};
use xa_codes::{Detail, XA_OK, XAER_PROTO, XAER_RMERR};
use xa_frame::{Body, Question, Reply};
use xa_script::Line;

/// The most connections: as many as a manager has sessions.
pub const MOST_CONNECTIONS: usize = 1_024;

/// What a line is answered, if it is answered anything.
pub fn answer<R: Read + Drop, W: Write + Drop, D: Dial<R, W>>(
    alloc: Global,
    dial: &mut D,
    connections: &mut Connections<R, W>,
    said: Line,
) -> Result<Option<Answered>, TalkFault>
    requires { lines.IsWithinLimits said }
    ensures { LineAnswered (λ c. W.contents c.writer) (λ c. R.remaining c.reader) said result
        connections.old.numbered.items connections.new.numbered.items }
{
    match said {
        Line::Silent => Ok(None),
        Line::Connect => shown(connect(dial, connections)),
        Line::Hangup(number) => {
            if let Some(connection) = connections.take(number) {
                dial.hang_up(connection);
            }
            Ok(Some(Answered::Reply(Reply::plain(XA_OK))))
        }
        Line::Call(number, request) => {
            shown(call(alloc, connections, number, &Question::Call(request)))
        }
        Line::Status(number) => shown(call(alloc, connections, number, &Question::Status)),
        Line::Control(number, asked) => control(alloc, connections, number, &asked),
        Line::Unknown | Line::Fail { .. } | Line::Stop { .. } | Line::Reopen | Line::Crash { .. } =>
            Ok(Some(Answered::Reply(Reply::bad_frame()))),
    }
}

/// A reply is shown, a fault isn't.
pub(crate) fn shown(answer: Result<Reply, TalkFault>) -> Result<Option<Answered>, TalkFault>
    ensures { result ≡ shown answer }
{
    match answer {
        Ok(reply) => Ok(Some(Answered::Reply(reply))),
        Err(fault) => Err(fault),
    }
}

/// Opens a connection, unless there are as many as may be.
fn connect<R: Read + Drop, W: Write + Drop, D: Dial<R, W>>(
    dial: &mut D,
    connections: &mut Connections<R, W>,
) -> Result<Reply, TalkFault>
    ensures { ConnectAnswered (λ c. W.contents c.writer) (λ c. R.remaining c.reader) result
        connections.old.numbered.items connections.new.numbered.items }
{
    let index = connections.free_index();
    if index >= MOST_CONNECTIONS {
        return Ok(Reply::detailed(XAER_RMERR, Detail::Limit));
    }
    match dial.dial() {
        Ok(connection) => {
            connections.add(connection)?;
            Ok(Reply::carrying(Body::Number(index as u64 + 1)))
        }
        Err(_) => Err(TalkFault::Connect),
    }
}

/// Asks a question over the connection of a number.
fn call<R: Read + Drop, W: Write + Drop>(
    alloc: Global,
    connections: &mut Connections<R, W>,
    number: u64,
    question: &Question,
) -> Result<Reply, TalkFault>
    requires { IsQuestion question.now }
    ensures { CallAnswered (λ c. W.contents c.writer) (λ c. R.remaining c.reader) number question.now result
        connections.old.numbered.items connections.new.numbered.items }
{
    let Some(index) = index_of(number) else {
        return Ok(Reply::plain(XAER_PROTO));
    };
    if index >= connections.numbered.len() {
        return Ok(Reply::plain(XAER_PROTO));
    }
    match &mut connections.numbered[index] {
        Some(connection) => exchange(alloc, connection, question),
        None => Ok(Reply::plain(XAER_PROTO)),
    }
}

/// Asks the server to end over the connection of a number, which is gone if the server closes it.
pub(crate) fn end<R: Read + Drop, W: Write + Drop>(
    alloc: Global,
    connections: &mut Connections<R, W>,
    number: u64,
) -> Result<Reply, TalkFault>
    ensures { EndAnswered (λ c. W.contents c.writer) (λ c. R.remaining c.reader) number result
        connections.old.numbered.items connections.new.numbered.items }
{
    let Some(index) = index_of(number) else {
        return Ok(Reply::plain(XAER_PROTO));
    };
    if index >= connections.numbered.len() {
        return Ok(Reply::plain(XAER_PROTO));
    }
    end_over(alloc, &mut connections.numbered[index])
}

/// Asks the server to end over this connection, if there is one.
fn end_over<R: Read + Drop, W: Write + Drop>(
    alloc: Global,
    connection: &mut Option<Connection<R, W>>,
) -> Result<Reply, TalkFault>
    ensures { EndAsked (λ c. W.contents c.writer) (λ c. R.remaining c.reader) connection.old result connection.new }
{
    let Some(open) = connection else {
        return Ok(Reply::plain(XAER_PROTO));
    };
    match ask_end(alloc, open) {
        Ok(Some(reply)) => Ok(reply),
        Ok(None) => {
            *connection = None;
            Ok(Reply::plain(XA_OK))
        }
        Err(fault) => Err(fault),
    }
}

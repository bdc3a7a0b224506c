//! A client logs in to a server by SCRAM-SHA-256 (RFC 5802, RFC 7677).
ghost use Rattle.std.specs.Prelude.{◌≡◌, ◌≤◌, length};
ghost use Rattle.xa_control.specs.declared.message.TheConstants.{MOST_MESSAGE};
ghost use Rattle.xa_talk.specs.Logins.{Finishes, LogsIn, Opens, challenge_of, login_end};
ghost use Rattle.xa_talk.specs.declared.dial.Connection.{Connection};

use crate::dial::Connection;
use crate::exchanging::ask_control;
use crate::fault::TalkFault;
use crate::login_fault::LoginFault;
use std::alloc::Global;
use std::io::{Read, Write};
use xa_control::{Answer, Control, Message};
use xa_scram::{Name, Nonce, Response, put_opening};

/// Logs a client in over a connection, by its name and its secret, the bytes as they are. The nonce must be new each time,
/// and no one may guess it: 18 random bytes. The secret itself is never sent.
///
/// It isn't logged in where a message is refused (`Refused`), where what it opens with is answered by no challenge to it
/// (`NoChallenge`), where the server's last message isn't one of who keeps a verifier of the secret (`Stranger`), or where
/// the connection or memory fails (`Talk`). Then nothing more is sent.
pub fn log_in<R: Read, W: Write>(
    alloc: Global,
    connection: &mut Connection<R, W>,
    name: &Name,
    secret: &[u8],
    nonce: &Nonce,
) -> Result<(), LoginFault>
    ensures { LogsIn {C = Connection R W} (λ c. W.contents c.writer) (λ c. R.remaining c.reader) name.now nonce.now
        secret.now connection.old result connection.new }
{
    let challenge = open(alloc, connection, name, nonce)?;
    match Response::to(name, nonce, secret, challenge.as_slice()) {
        Some(response) => finish(alloc, connection, &response),
        None => Err(LoginFault::NoChallenge),
    }
}

// Opens a login, and gives the challenge.
fn open<R: Read, W: Write>(
    alloc: Global,
    connection: &mut Connection<R, W>,
    name: &Name,
    nonce: &Nonce,
) -> Result<Message, LoginFault>
    ensures { Opens {C = Connection R W} (λ c. W.contents c.writer) (λ c. R.remaining c.reader) name.now nonce.now
        connection.old result connection.new }
{
    let opening = put_opening(name, nonce);
    let asked = Control::First(message_of(opening.as_slice()));
    let answer = ask_control(alloc, connection, &asked);
    challenge_of(&answer)
}

// Answers a challenge, and sees whether the server accepts the answer, and is to be accepted.
fn finish<R: Read, W: Write>(
    alloc: Global,
    connection: &mut Connection<R, W>,
    response: &Response,
) -> Result<(), LoginFault>
    ensures { Finishes {C = Connection R W} (λ c. W.contents c.writer) (λ c. R.remaining c.reader) response.now
        connection.old result connection.new }
{
    let asked = Control::Final(message_of(response.message()));
    let answer = ask_control(alloc, connection, &asked);
    login_end(response, &answer)
}

// The challenge that a login's opening is answered, if it is.
fn challenge_of(answer: &Result<Answer, TalkFault>) -> Result<Message, LoginFault>
    ensures { result ≡ challenge_of answer.now }
{
    match answer {
        Ok(Answer::Challenge(text)) => Ok(text.copied()),
        Ok(Answer::Refused(code, detail)) => Err(LoginFault::Refused(*code, *detail)),
        Ok(_) => Err(LoginFault::NoChallenge),
        Err(fault) => Err(LoginFault::Talk(*fault)),
    }
}

// What becomes of a login whose last message is answered so.
fn login_end(response: &Response, answer: &Result<Answer, TalkFault>) -> Result<(), LoginFault>
    ensures { result ≡ login_end response.now.acceptance answer.now }
{
    match answer {
        Ok(Answer::Welcome(text)) => {
            if response.is_accepted_by(text.as_slice()) {
                Ok(())
            } else {
                Err(LoginFault::Stranger)
            }
        }
        Ok(Answer::Refused(code, detail)) => Err(LoginFault::Refused(*code, *detail)),
        Ok(_) => Err(LoginFault::Stranger),
        Err(fault) => Err(LoginFault::Talk(*fault)),
    }
}

fn message_of(bytes: &[u8]) -> Message
    requires { length bytes.now ≤ MOST_MESSAGE }
    ensures { result ≡ bytes.now }
{
    match Message::new(bytes) {
        Some(message) => message,
        None => unreachable!(),
    }
}

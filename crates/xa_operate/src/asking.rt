ghost use Rattle.std.specs.Prelude.{◌≡◌};
ghost use Rattle.xa_operate.specs.Askings.{Brings, IsAsking, controlled, replied};

use std::alloc::Global;
use std::io::{Read, Write};
use xa_control::{Answer, Control};
use xa_frame::{KnownBranch, KnownBranches, Question, Reply};
use xa_talk::{Answered, Connection, TalkFault, ask_control, exchange};

/// What is asked of a server.
#[derive(Debug, Drop)]
pub enum Asking {
    Question(Question),
    /// That it hang up the session of this number.
    Disconnect(u64),
    /// Which sessions are at work for the first branch. It is shown with the others, which are listed after it.
    Sessions(KnownBranch, KnownBranches),
    /// What it has counted.
    Metrics,
}

/// Sends what asks it, and gives the answer that comes back.
pub(crate) fn bring<R: Read, W: Write>(
    alloc: Global,
    connection: &mut Connection<R, W>,
    asking: &Asking,
) -> Result<Answered, TalkFault>
    requires { IsAsking asking.now }
    ensures { Brings asking.now result
        (W.contents connection.old.writer) (W.contents connection.new.writer)
        (R.remaining connection.old.reader) (R.remaining connection.new.reader) }
{
    match asking {
        Asking::Question(question) => replied(exchange(alloc, connection, question)),
        Asking::Disconnect(session) => controlled(ask_control(
            alloc,
            connection,
            &Control::Disconnect(*session),
        )),
        Asking::Sessions(branch, _) => controlled(ask_control(
            alloc,
            connection,
            &Control::Sessions(branch.xid.copied()),
        )),
        Asking::Metrics => controlled(ask_control(alloc, connection, &Control::Metrics)),
    }
}

fn replied(reply: Result<Reply, TalkFault>) -> Result<Answered, TalkFault>
    ensures { result ≡ replied reply }
{
    match reply {
        Ok(reply) => Ok(Answered::Reply(reply)),
        Err(fault) => Err(fault),
    }
}

fn controlled(answer: Result<Answer, TalkFault>) -> Result<Answered, TalkFault>
    ensures { result ≡ controlled answer }
{
    match answer {
        Ok(answer) => Ok(Answered::Control(answer)),
        Err(fault) => Err(fault),
    }
}

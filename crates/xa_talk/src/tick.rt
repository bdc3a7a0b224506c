//! A server is told the moments, by one connection.
ghost use Rattle.std.specs.Prelude.{◌≡◌};
ghost use Rattle.xa_talk.specs.Ticks.{TickEnds, Ticked, is_news};
ghost use Rattle.xa_talk.specs.declared.dial.Connection.{Connection};

use crate::dial::{Connection, Dial};
use crate::exchanging::exchange;
use crate::fault::TalkFault;
use crate::tick_fault::TickFault;
use crate::ticker::Ticker;
use std::alloc::Global;
use std::io::{Read, Write};
use xa_codes::XA_OK;
use xa_frame::{Question, Reply, Request};

/// The most seconds from one moment to the next that a command line may ask for.
pub const MOST_EVERY: u64 = 3_600;

/// Opens a connection and tells the server each moment that the ticker gives, one after the other: the next one is
/// asked for once the last one is answered. A refusal is told where the answer before it wasn't the same.
///
/// It ends with the first fault: no connection (`Connect`); one that broke (`Broken`), or brought what is no reply
/// (`NoReply`); no memory; a clock that can't be read. Without one it ends after 2^64 - 1 moments.
pub fn tick_run<T: Ticker, R: Read + Drop, W: Write + Drop, D: Dial<R, W>>(
    alloc: Global,
    ticker: &mut T,
    dial: &mut D,
) -> Result<(), TickFault>
    ensures { Ticked {C = Connection R W} T.gives T.tells (λ c. W.contents c.writer) (λ c. R.remaining c.reader) result
        ticker.old ticker.new }
{
    let Ok(mut connection) = dial.dial() else {
        return Err(TickFault::Talk(TalkFault::Connect));
    };
    let mut last = Reply::plain(XA_OK);
    for _ in 0..u64::MAX {
        last = tick(alloc, ticker, &mut connection, &last)?;
    }
    Ok(())
}

/// What the next moment is answered, after the reply to the one before.
fn tick<T: Ticker, R: Read, W: Write>(
    alloc: Global,
    ticker: &mut T,
    connection: &mut Connection<R, W>,
    last: &Reply,
) -> Result<Reply, TickFault>
    ensures { TickEnds {C = Connection R W} T.gives T.tells (λ c. W.contents c.writer) (λ c. R.remaining c.reader) last.now
        result ticker.old ticker.new connection.old connection.new }
{
    let Some(moment) = ticker.next_moment() else {
        return Err(TickFault::Clock);
    };
    match exchange(alloc, connection, &Question::Call(Request::Tick { moment })) {
        Ok(reply) => {
            if is_news(last, &reply) {
                ticker.tell(&reply);
            }
            Ok(reply)
        }
        Err(fault) => Err(TickFault::Talk(fault)),
    }
}

/// Whether a reply is a refusal, and not the same as the one before.
fn is_news(last: &Reply, reply: &Reply) -> bool
    ensures { result ≡ is_news last.now reply.now }
{
    reply.code != XA_OK && reply.code != last.code
}

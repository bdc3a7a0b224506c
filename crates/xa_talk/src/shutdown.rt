//! A server is asked to end, by one connection.
ghost use Rattle.xa_talk.specs.Shutdowns.{ShutsDown, Stops};
ghost use Rattle.xa_talk.specs.declared.dial.Connection.{Connection};

use crate::dial::{Connection, Dial};
use crate::exchanging::{ask_end, exchange};
use crate::fault::TalkFault;
use crate::shutdown_fault::ShutdownFault;
use std::alloc::Global;
use std::io::{Read, Write};
use xa_frame::Question;

/// Opens a connection, asks how the server is doing, asks it to end, and waits until it closes the connection, which is its
/// answer: of a server that didn't serve the connection the first question tells.
///
/// Faults: no connection (`Connect`); one that broke (`Broken`), or brought what is no reply (`NoReply`); no memory; a
/// reply, which comes from a server that takes no shutdown (`Refused`).
pub fn shutdown_run<R: Read + Drop, W: Write + Drop, D: Dial<R, W>>(
    alloc: Global,
    dial: &mut D,
) -> Result<(), ShutdownFault>
    ensures { ShutsDown {C = Connection R W} (λ c. W.contents c.writer) (λ c. R.remaining c.reader) result }
{
    let Ok(mut connection) = dial.dial() else {
        return Err(ShutdownFault::Talk(TalkFault::Connect));
    };
    match exchange(alloc, &mut connection, &Question::Status) {
        Ok(_) => stop(alloc, &mut connection),
        // one that has no place for the connection closes it at once
        Err(fault) => Err(ShutdownFault::Talk(fault)),
    }
}

// Asks a server to end over a connection that it serves.
fn stop<R: Read + Drop, W: Write + Drop>(
    alloc: Global,
    connection: &mut Connection<R, W>,
) -> Result<(), ShutdownFault>
    ensures { Stops (λ c. W.contents c.writer) (λ c. R.remaining c.reader) connection.old result connection.new }
{
    match ask_end(alloc, connection) {
        Ok(None) => Ok(()),
        Ok(Some(_)) => Err(ShutdownFault::Refused),
        Err(fault) => Err(ShutdownFault::Talk(fault)),
    }
}

ghost use Rattle.xa_talk.specs.Shutdowns.{ShutsDown};
ghost use Rattle.xa_talk.specs.declared.dial.Connection.{Connection};

use crate::server::Server;
use crate::stream::Stream;
use std::fs::Files;
use std::io::{Eprint, Read, Write};
use std::net::{Net, TcpStream};
use std::random::RandomSource;
use std::rt::Env;
use xa_talk::{ShutdownFault, shutdown_run};

/// Asks a server to end, and waits until it has closed the connection.
pub fn shutdown<R: AllocGlobal + Env + Eprint + Files + Net<Stream = TcpStream> + RandomSource>(
    rt: &R,
    server: &mut Server<'_, '_, R>,
) -> Result<(), ShutdownFault>
    ensures { ShutsDown {C = Connection Stream Stream}
        (λ c. ⟦<Stream as Write>⟧.contents c.writer)
        (λ c. ⟦<Stream as Read>⟧.remaining c.reader) result }
{
    shutdown_run(rt.alloc(), server)
}

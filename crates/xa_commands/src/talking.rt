ghost use Rattle.xa_commands.specs.Done.{HasTalked};
ghost use Rattle.xa_talk.specs.declared.dial.Connection.{Connection};

use crate::mistakes::Mistakes;
use crate::server::Server;
use crate::stream::Stream;
use std::fs::Files;
use std::io::{self, Read, Write};
use std::net::{Net, TcpStream};
use std::random::RandomSource;
use std::rt::Env;
use xa_talk::{Manner, TalkFault, talk_run};

/// Sends the calls of standard input to a server. Its replies are printed one by one, so that nothing
/// waits in a buffer. Of a line that asks nothing it is told on standard error what is wrong; if the script is typed,
/// each line is asked for there.
pub fn talk<
    R: AllocGlobal + Input + Print + Eprint + Env + Files + Net<Stream = TcpStream> + RandomSource,
>(rt: &R, server: &mut Server<'_, '_, R>, manner: Manner) -> Result<(), TalkFault>
    ensures { HasTalked {C = Connection Stream Stream} manner R.Reader.remaining
        (λ c. ⟦<Stream as Write>⟧.contents c.writer)
        (λ c. ⟦<Stream as Read>⟧.remaining c.reader) result }
{
    let mut reader = rt.reader();
    let mut writer = io::writer(rt);
    talk_run(
        rt.alloc(),
        &mut reader,
        &mut writer,
        server,
        &mut Mistakes {
            rt,
            has_disks: false,
            is_typed: manner.is_typed,
        },
        manner,
    )
}

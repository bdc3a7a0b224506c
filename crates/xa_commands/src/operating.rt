ghost use Rattle.std.specs.Prelude.{◌≤◌, length};
ghost use Rattle.xa_commands.specs.Done.{HasConfirmed, HasOperated, HasShown};
ghost use Rattle.xa_limits.specs.declared.TheConstants.{MOST_INFO};
ghost use Rattle.xa_talk.specs.declared.dial.Connection.{Connection};

use crate::errors::Errors;
use crate::server::Server;
use crate::stream::Stream;
use std::fs::Files;
use std::io::{self, Eprint, Read, Write};
use std::net::{Net, TcpStream};
use std::random::RandomSource;
use std::rt::Env;
use xa_operate::{Format, OperateFault, Task, confirm_run, operate_run, print_text, script_text};

/// Asks a server what an operator wants, and prints its answers.
pub fn operate<
    R: AllocGlobal + Print + Eprint + Env + Files + Net<Stream = TcpStream> + RandomSource,
>(
    rt: &R,
    server: &mut Server<'_, '_, R>,
    name: &str,
    task: &Task,
    format: Format,
) -> Result<(), OperateFault>
    requires { length name.now ≤ MOST_INFO }
    ensures { HasOperated {C = Connection Stream Stream} format task.now
        (λ c. ⟦<Stream as Write>⟧.contents c.writer)
        (λ c. ⟦<Stream as Read>⟧.remaining c.reader) name.now result }
{
    let mut writer = io::writer(rt);
    operate_run(rt.alloc(), &mut writer, server, name, task, format)
}

/// The same of what can't be taken back, once a line of standard input has said yes. What it is about is shown on standard
/// error, and there it is asked whether to do it.
pub fn confirm<
    R: AllocGlobal + Input + Print + Eprint + Env + Files + Net<Stream = TcpStream> + RandomSource,
>(
    rt: &R,
    server: &mut Server<'_, '_, R>,
    name: &str,
    task: &Task,
    format: Format,
) -> Result<(), OperateFault>
    requires { length name.now ≤ MOST_INFO }
    ensures { HasConfirmed {C = Connection Stream Stream} format task.now R.Reader.remaining
        (λ c. ⟦<Stream as Write>⟧.contents c.writer)
        (λ c. ⟦<Stream as Read>⟧.remaining c.reader) name.now result }
{
    let mut reader = rt.reader();
    let mut errors = Errors { rt };
    let mut writer = io::writer(rt);
    confirm_run(
        rt.alloc(),
        &mut reader,
        &mut errors,
        &mut writer,
        server,
        name,
        task,
        format,
    )
}

/// Prints the script that asks a server the same.
pub fn show_script<R: AllocGlobal + Print>(
    rt: &R,
    name: &str,
    task: &Task,
) -> Result<(), OperateFault>
    ensures { HasShown name.now task.now result }
{
    let script = script_text(rt.alloc(), name, task)?;
    print_text(&mut io::writer(rt), script.as_slice())
}

//! What a server is asked, and the statuses in which that ends.
ghost use Rattle.std.specs.Prelude.{◌≤◌, length};
ghost use Rattle.std.specs.Process.{exit_status};
ghost use Rattle.xa_commands.specs.Done.{HasConfirmed, HasOperated, HasTalked, HasTicked};
ghost use Rattle.xa_commands.specs.declared.ticking.Watch.{Watch};
ghost use Rattle.xa_limits.specs.declared.TheConstants.{MOST_INFO};
ghost use Rattle.xa_talk.specs.Shutdowns.{ShutsDown};
ghost use Rattle.xa_talk.specs.declared.dial.Connection.{Connection};
ghost use Rattle.xa_words.specs.Runs.{EndsAs, EndsAsTask, manner_of};

use crate::terminals::Terminals;
use std::fs::Files;
use std::io::{Read, Write};
use std::net::{Net, TcpStream};
use std::process::ExitCode;
use std::random::RandomSource;
use std::rt::{Clock, Env};
use xa_commands::{Server, Stream, confirm, ended_at, operate, operated, shutdown, talk, tick};
use xa_operate::{Format, Task};
use xa_script::Style;
use xa_talk::Manner;

/// The status of a talk. Where somebody types, and sees what is asked, each line is asked for.
pub(crate) fn talked<
    R: AllocGlobal + Input + Print + Eprint + Env + Files + Net<Stream = TcpStream> + RandomSource,
>(
    rt: &R,
    server: Server<'_, '_, R>,
    style: Style,
    is_strict: bool,
    terminals: Terminals,
) -> ExitCode
    ensures { EndsAs (HasTalked {C = Connection Stream Stream} (manner_of style is_strict terminals) R.Reader.remaining
        (λ c. ⟦<Stream as Write>⟧.contents c.writer) (λ c. ⟦<Stream as Read>⟧.remaining c.reader)) (exit_status result) }
{
    let mut server = server;
    let manner = Manner {
        style,
        is_strict,
        is_typed: terminals.are_both(),
    };
    let end = talk(rt, &mut server, manner);
    ended_at(rt, &end, &server)
}

/// That of ticks, this many seconds from one to the next.
pub(crate) fn ticked<
    R: AllocGlobal + Clock + Eprint + Env + Files + Net<Stream = TcpStream> + RandomSource,
>(rt: &R, server: Server<'_, '_, R>, every: u64) -> ExitCode
    ensures { EndsAs (HasTicked {C = Connection Stream Stream} (Watch R) (λ c. ⟦<Stream as Write>⟧.contents c.writer)
        (λ c. ⟦<Stream as Read>⟧.remaining c.reader)) (exit_status result) }
{
    let mut server = server;
    let end = tick(rt, &mut server, every);
    ended_at(rt, &end, &server)
}

/// That of a shutdown.
pub(crate) fn shut_down<
    R: AllocGlobal + Eprint + Env + Files + Net<Stream = TcpStream> + RandomSource,
>(rt: &R, server: Server<'_, '_, R>) -> ExitCode
    ensures { EndsAs (ShutsDown {C = Connection Stream Stream} (λ c. ⟦<Stream as Write>⟧.contents c.writer)
        (λ c. ⟦<Stream as Read>⟧.remaining c.reader)) (exit_status result) }
{
    let mut server = server;
    let end = shutdown(rt, &mut server);
    ended_at(rt, &end, &server)
}

/// That of an operator's task.
pub(crate) fn tasked<
    R: AllocGlobal + Print + Eprint + Env + Files + Net<Stream = TcpStream> + RandomSource,
>(rt: &R, server: Server<'_, '_, R>, name: &str, task: &Task, format: Format) -> ExitCode
    requires { length name.now ≤ MOST_INFO }
    ensures { EndsAsTask (HasOperated {C = Connection Stream Stream} format task.now
        (λ c. ⟦<Stream as Write>⟧.contents c.writer) (λ c. ⟦<Stream as Read>⟧.remaining c.reader) name.now)
        (exit_status result) }
{
    let mut server = server;
    let end = operate(rt, &mut server, name, task, format);
    operated(rt, &end, Some(&server))
}

/// That of one that can't be taken back, once somebody who types has said yes.
pub(crate) fn confirmed<
    R: AllocGlobal + Input + Print + Eprint + Env + Files + Net<Stream = TcpStream> + RandomSource,
>(rt: &R, server: Server<'_, '_, R>, name: &str, task: &Task, format: Format) -> ExitCode
    requires { length name.now ≤ MOST_INFO }
    ensures { EndsAsTask (HasConfirmed {C = Connection Stream Stream} format task.now R.Reader.remaining
        (λ c. ⟦<Stream as Write>⟧.contents c.writer) (λ c. ⟦<Stream as Read>⟧.remaining c.reader) name.now)
        (exit_status result) }
{
    let mut server = server;
    let end = confirm(rt, &mut server, name, task, format);
    operated(rt, &end, Some(&server))
}

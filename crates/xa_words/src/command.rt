//! What is done of a command line.
ghost use Rattle.std.specs.IoError.{error_kind};
ghost use Rattle.std.specs.Prelude.{◌≡◌, ◌⊎◌, IfErr, IfOk, IfSome, map, string_bytes, true};
ghost use Rattle.std.specs.Process.{exit_status};
ghost use Rattle.clap.specs.Values.{kind_of};
ghost use Rattle.xa_operate.specs.Courses.{status_of};
ghost use Rattle.xa_words.specs.Runs.{HasDone, HasRun, IsRefusal, IsUnread, NamesWell};
ghost use Rattle.xa_commands.specs.Enrolled.{HasAdded};
ghost use Rattle.xa_commands.specs.declared.ticking.Watch.{Watch};
ghost use Rattle.xa_talk.specs.declared.dial.Connection.{Connection};

use crate::asked::Asked;
use crate::asking::{confirmed, shut_down, talked, tasked, ticked};
use crate::malformed::Malformed;
use crate::ran::Ran;
use crate::terminals::Terminals;
use crate::words::read_words;
use clap::Error;
use clap::error::ErrorKind;
use std::fs::Files;
use std::io::{Read, Write};
use std::net::{Net, TcpStream};
use std::process::ExitCode;
use std::random::RandomSource;
use std::rt::{Clock, Env};
use std::{env, io};
use xa_codes::Direction;
use xa_commands::{
    Server, Stream, accept_damage, add_user, check, checked, copy, ended, play, scan, show_script,
    words_fault,
};
use xa_copy::Sources;
use xa_disk::Opens;
use xa_operate::{OperateFault, Task, operate_status};
use xa_play::PlayFault;
use xa_roles::Role;

/// Does what the command line says, but that it serves. Status 0: done. 1: a fault, its line on standard error. 2: the
/// command line was refused. Of a check 1: a server doesn't open the files; 2: a fault, too. Of a task that a server is
/// asked 1: the server refused it; 3: it isn't known to be done. Where standard input is a terminal, it is asked whether to
/// do what can't be taken back; if standard error is one, too, the lines of a talk are asked for.
pub fn run<
    'a,
    R: AllocGlobal
        + Input
        + Print
        + Eprint
        + Opens
        + Sources
        + Files
        + Clock
        + Net<Stream = TcpStream>
        + Env
        + RandomSource,
>(rt: &R, words: &'a io::Result<Vec<String>>, terminals: Terminals) -> Ran<'a>
    ensures run { IfOk words.now (λ words. HasRun {C = Connection Stream Stream} terminals (Watch R) R.Reader.remaining
        R.Disk.honest R.Disk.seen R.opened R.refused R.File.contents (λ c. ⟦<Stream as Write>⟧.contents c.writer)
        (λ c. ⟦<Stream as Read>⟧.remaining c.reader) (map string_bytes words.items) result) }
    ensures unread { IfErr words.now (λ error. IsUnread (error_kind error) result) }
{
    let words = match words {
        Ok(words) => words,
        Err(error) => return Ran::Ended(words_fault(rt, error)),
    };
    match read_words(rt.alloc(), words.as_slice()) {
        Ok(asked) => done(rt, asked, terminals),
        Err(error) => Ran::Ended(refused(rt, &error)),
    }
}

// Does what is asked for, but that it serves.
fn done<
    'a,
    R: AllocGlobal
        + Input
        + Print
        + Eprint
        + Opens
        + Sources
        + Files
        + Clock
        + Net<Stream = TcpStream>
        + Env
        + RandomSource,
>(rt: &R, asked: Asked<'a>, terminals: Terminals) -> Ran<'a>
    requires { NamesWell asked }
    ensures { HasDone {C = Connection Stream Stream} terminals (Watch R) R.Reader.remaining R.Disk.honest R.Disk.seen
        R.opened R.refused R.File.contents (λ c. ⟦<Stream as Write>⟧.contents c.writer)
        (λ c. ⟦<Stream as Read>⟧.remaining c.reader) asked.entry result }
{
    match asked {
        Asked::Play { name, log_bytes } => Ran::Ended(ended(rt, &play(rt, name, log_bytes))),
        Asked::Scan { path, format } => Ran::Ended(ended(rt, &scan(rt, path, format))),
        Asked::Check { path, log_bytes } => Ran::Ended(checked(rt, &check(rt, path, log_bytes))),
        Asked::Copy {
            path,
            to,
            log_bytes,
            follows,
        } => Ran::Ended(ended(rt, &copy(rt, path, to, log_bytes, follows))),
        Asked::AddUser {
            path,
            name,
            role,
            secret,
        } => Ran::Ended(added(rt, path, name, role, secret)),
        Asked::Serve {
            service,
            accepts_damage,
        } => match accepted(rt, accepts_damage, service.path, service.log_bytes) {
            Some(status) => Ran::Ended(status),
            None => Ran::Serves(service),
        },
        Asked::Talk {
            reach,
            user,
            seconds,
            style,
            is_strict,
        } => {
            let server = Server::new(rt, reach, seconds, user);
            Ran::Ended(talked(rt, server, style, is_strict, terminals))
        }
        Asked::Tick { reach, user, every } => {
            Ran::Ended(ticked(rt, Server::new(rt, reach, 0, user), every))
        }
        Asked::Shutdown { reach, user } => {
            Ran::Ended(shut_down(rt, Server::new(rt, reach, 0, user)))
        }
        Asked::Operate {
            reach,
            user,
            seconds,
            format,
            name,
            task,
        } => {
            let server = Server::new(rt, reach, seconds, user);
            Ran::Ended(tasked(rt, server, name, &task, format))
        }
        Asked::Script { name, task } => Ran::Ended(shown(rt, &show_script(rt, name, &task))),
        Asked::Unconfirmed {
            reach,
            user,
            seconds,
            format,
            name,
            task,
            about,
        } => {
            if !terminals.input {
                return Ran::Ended(unconfirmed(rt, &task, about));
            }
            match reach {
                Some(reach) => {
                    let server = Server::new(rt, reach, seconds, user);
                    Ran::Ended(confirmed(rt, server, name, &task, format))
                }
                None => Ran::Ended(nowhere(rt)),
            }
        }
        Asked::Malformed(malformed) => Ran::Ended(told(rt, &malformed)),
        Asked::Conflict => Ran::Ended(conflicting(rt)),
        Asked::Nowhere => Ran::Ended(nowhere(rt)),
    }
}

// The status of a user who was to be added to those who may log in.
fn added<'a, R: AllocGlobal + Input + Eprint + Files + RandomSource>(
    rt: &R,
    path: &'a str,
    name: &'a str,
    role: Role,
    secret: Option<&'a str>,
) -> ExitCode
    ensures { ((exit_status result ≡ 0) × HasAdded R.File.contents name.now role) ⊎ (exit_status result ≡ 1) }
{
    ended(rt, &add_user(rt, path, name, role, secret))
}

// The status of a server whose log is to be opened though it is damaged, and wasn't. None if it is to serve.
fn accepted<R: AllocGlobal + Eprint + Opens + Files>(
    rt: &R,
    accepts_damage: bool,
    path: &str,
    log_bytes: u64,
) -> Option<ExitCode>
    ensures { IfSome result (λ code. (accepts_damage ≡ true) × (exit_status code ≡ 1)) }
{
    if !accepts_damage {
        return None;
    }
    let end = accept_damage(rt, path, log_bytes);
    if end.is_ok() {
        return None;
    }
    Some(ended(rt, &end))
}

// What can't be taken back wasn't confirmed: it is told what would be done.
fn unconfirmed<R: Eprint>(rt: &R, task: &Task, about: &str) -> ExitCode
    ensures { exit_status result ≡ 2 }
{
    let would = match task {
        Task::Commit(_) => "commit the prepared branch ",
        Task::Rollback(_) => "roll back the branch ",
        Task::Forget(_) => "forget what the operator decided of the branch ",
        Task::Decide(Direction::Commit, _) => "decide to commit the prepared branch ",
        Task::Decide(Direction::Rollback, _) => "decide to roll back the prepared branch ",
        Task::Doom(_) => "mark the branch at work, which can then only be rolled back: ",
        Task::Disconnect(_) => "hang up, and mark what it is at work on, the session ",
        Task::RollbackMarked =>
            "roll back every branch that is marked and that nobody is at work for",
        Task::Restart => "have the server reread its log, and end all work that isn't prepared",
        Task::Status
        | Task::Metrics
        | Task::AtWork
        | Task::Branches
        | Task::Branch(_)
        | Task::Abandoned
        | Task::Recover
        | Task::Trim => "do what can't be taken back",
    };
    let _ = eprintln!(rt;
        "error: nothing was done: this would {would}{about}\n\nGive --yes to do it."
    );
    ExitCode::from(2)
}

// A word isn't as it has to be.
fn told<R: Eprint>(rt: &R, malformed: &Malformed) -> ExitCode
    ensures { exit_status result ≡ 2 }
{
    let _ = eprintln!(rt; "error: {malformed}\n\nFor more information, try '--help'.");
    ExitCode::from(2)
}

// The status of a script that was to be printed, and its line on standard error if it wasn't.
fn shown<R: Eprint>(rt: &R, end: &Result<(), OperateFault>) -> ExitCode
    ensures { exit_status result ≡ status_of end.now }
{
    if let Err(fault) = end {
        let _ = eprintln!(rt; "xarm: {fault}");
    }
    ExitCode::from(operate_status(end))
}

// A server's loops were counted twice.
fn conflicting<R: Eprint>(rt: &R) -> ExitCode
    ensures { exit_status result ≡ 2 }
{
    let _ = rt.eprintln(
        "error: the argument '--workers <N>' cannot be used with '--loops <N>'\n\nFor more information, try '--help'.",
    );
    ExitCode::from(2)
}

// Neither a port nor a path was given.
fn nowhere<R: Eprint>(rt: &R) -> ExitCode
    ensures { exit_status result ≡ 2 }
{
    let _ = rt.eprintln(
        "error: the following required arguments were not provided:\n  --port <P> or --socket <PATH>\n\n\
         For more information, try '--help'.",
    );
    ExitCode::from(2)
}

/// The words of the command line.
pub fn given_words<R: AllocGlobal + Env>(rt: &R) -> io::Result<Vec<String>> {
    Ok(env::args(rt)?.collect(rt.alloc())?)
}

fn refused<R: Print + Eprint>(rt: &R, error: &Error) -> ExitCode
    ensures { IsRefusal (kind_of error.now) (exit_status result) }
{
    if error.kind() == ErrorKind::OutOfMemory {
        return ended(rt, &Err(PlayFault::Memory));
    }
    match error.print(rt) {
        Ok(()) if !error.use_stderr() => ExitCode::SUCCESS,
        Err(_) if !error.use_stderr() => ended(rt, &Err(PlayFault::Write)),
        _ => ExitCode::from(2),
    }
}

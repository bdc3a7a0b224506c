ghost use Rattle.std.specs.IoError.{error_kind};
ghost use Rattle.std.specs.Prelude.{◌≡◌, ◌≢◌, IfOk, OnErr, OnOk, false, true};
ghost use Rattle.std.specs.Process.{exit_status};
ghost use Rattle.xa_commands.specs.Done.{checked_status};
ghost use Rattle.xa_operate.specs.Courses.{status_of};

use crate::server::Server;
use std::fmt::Display;
use std::io::{self, ErrorKind};
use std::process::ExitCode;
use xa_operate::{OperateFault, operate_status};
use xa_play::PlayFault;

/// The status of an end, and its line on standard error if it is a fault: 0 if all is done, else 1.
pub fn ended<R: Eprint, F: Display>(rt: &R, end: &Result<(), F>) -> ExitCode
    ensures done { OnOk end.now (exit_status result ≡ 0) }
    ensures fault { OnErr end.now (exit_status result ≡ 1) }
{
    if let Err(fault) = end {
        let _ = eprintln!(rt; "xarm: {fault}");
    }
    match end {
        Ok(()) => ExitCode::SUCCESS,
        Err(_) => ExitCode::from(1),
    }
}

/// The same of what was asked of a server: if it couldn't be reached, that is told, with the system's text, and if a user
/// who was to log in couldn't, why.
pub fn ended_at<R: Eprint, F: Display>(
    rt: &R,
    end: &Result<(), F>,
    server: &Server<'_, '_, R>,
) -> ExitCode
    ensures done { OnOk end.now (exit_status result ≡ 0) }
    ensures fault { OnErr end.now (exit_status result ≡ 1) }
{
    match end {
        Ok(()) => ExitCode::SUCCESS,
        Err(fault) => {
            tell_fault(rt, fault, server);
            ExitCode::from(1)
        }
    }
}

// Tells a fault, or why a server couldn't be reached, or nobody logged in to it.
fn tell_fault<R: Eprint, F: Display>(rt: &R, fault: &F, server: &Server<'_, '_, R>) {
    let _ = match (server.unreached(), server.unlogged()) {
        (Some(error), _) => {
            let reach = server.reach();
            eprintln!(rt; "xarm: cannot connect to {reach}: {error}")
        }
        (None, Some(why)) => eprintln!(rt; "xarm: {why}"),
        (None, None) => eprintln!(rt; "xarm: {fault}"),
    };
}

/// The same of a server. A history whose audit failed is a fault that was told on standard output.
pub fn served<R: Eprint, F: Display>(rt: &R, end: &Result<bool, F>) -> ExitCode
    ensures whole { IfOk end.now (λ is_whole. is_whole ≡ true → exit_status result ≡ 0) }
    ensures failed { IfOk end.now (λ is_whole. is_whole ≡ false → exit_status result ≡ 1) }
    ensures fault { OnErr end.now (exit_status result ≡ 1) }
{
    match end {
        Ok(true) => ExitCode::SUCCESS,
        Ok(false) => ExitCode::from(1),
        Err(fault) => {
            let _ = eprintln!(rt; "xarm: {fault}");
            ExitCode::from(1)
        }
    }
}

/// The status of a check of two files, and its line on standard error if it is a fault: 0 if a server opens what they
/// have, 1 if it doesn't, 2 if that couldn't be told.
pub fn checked<R: Eprint, F: Display>(rt: &R, end: &Result<bool, F>) -> ExitCode
    ensures { exit_status result ≡ checked_status end.now }
{
    if let Err(fault) = end {
        let _ = eprintln!(rt; "xarm: {fault}");
    }
    match end {
        Ok(is_whole) => ExitCode::from(if *is_whole { 0 } else { 1 }),
        Err(_) => ExitCode::from(2),
    }
}

/// The status of a task that a server was asked, and its line on standard error if it isn't done: 0 if it is, 1 if
/// the server refused it or wasn't asked, 3 if that isn't known.
pub fn operated<R: Eprint>(
    rt: &R,
    end: &Result<(), OperateFault>,
    server: Option<&Server<'_, '_, R>>,
) -> ExitCode
    ensures { exit_status result ≡ status_of end.now }
{
    if let Err(fault) = end {
        match server {
            Some(server) => tell_fault(rt, fault, server),
            None => {
                let _ = eprintln!(rt; "xarm: {fault}");
            }
        }
    }
    ExitCode::from(operate_status(end))
}

/// The status if the words of the command line can't be had. A word that is no text is refused as a word that is
/// no command is elsewhere, with status 2.
pub fn words_fault<R: Eprint>(rt: &R, error: &io::Error) -> ExitCode
    ensures memory { error_kind error.now ≡ ErrorKind.OutOfMemory → exit_status result ≡ 1 }
    ensures no_text { error_kind error.now ≢ ErrorKind.OutOfMemory → exit_status result ≡ 2 }
{
    match error.kind() {
        ErrorKind::OutOfMemory => ended(rt, &Err(PlayFault::Memory)),
        _ => {
            let _ = rt.eprintln("error: invalid UTF-8 was detected in one or more arguments");
            ExitCode::from(2)
        }
    }
}

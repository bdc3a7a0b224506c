//! What one line is answered.
ghost use Rattle.std.specs.Prelude.{IfErr, IfOk};
ghost use Rattle.xa_frame.specs.Limits.{IsRequest};
ghost use Rattle.xa_model.specs.Events.{IsAsked};
ghost use Rattle.xa_script.specs.Lines as lines;
ghost use Rattle.xa_manager.specs.Believed.Opening.{IsBadSetting};
ghost use Rattle.xa_play.specs.Disks.{Answered, Planned, Stopped};
ghost use Rattle.xa_play.specs.Played.{AnswerFails, LineAnswered, Tells, TellsEnd};
ghost use Rattle.xa_manager.specs.Status.{versions_of};

use crate::fault::PlayFault;
use crate::opening::{crash, reopen};
use std::alloc::{AllocError, Global};
use xa_codes::{XA_OK, XAER_PROTO};
use xa_disk::{Effect, MemDisk};
use xa_frame::{Body, Reply, Request, Status};
use xa_manager::{Manager, Settings, connect_reply};
use xa_model::Event;
use xa_script::{CallEffect, Line, LogFile};

/// The manager after a line, and the reply that the line shows, if it shows one. So many events were played before.
pub fn answer(
    alloc: Global,
    manager: Manager<MemDisk>,
    settings: &Settings,
    said: Line,
    calls: u64,
) -> Result<(Manager<MemDisk>, Option<Reply>), PlayFault>
    requires limits { lines.IsWithinLimits said }
    requires settings { ¬ IsBadSetting settings.now.name settings.now.log_bytes }
    ensures answered { IfOk result (λ pair. LineAnswered settings.now.name settings.now.log_bytes
        manager said pair.1 pair.0) }
    ensures err { IfErr result (AnswerFails said) }
{
    let mut manager = manager;
    match said {
        Line::Silent => Ok((manager, None)),
        Line::Unknown => Ok((manager, Some(Reply::bad_frame()))),
        Line::Connect => {
            let reply = connect(&mut manager);
            Ok((manager, Some(reply)))
        }
        Line::Hangup(session) => {
            let reply = hang_up(&mut manager, session);
            Ok((manager, Some(reply)))
        }
        Line::Call(session, request) => {
            let reply = call(&mut manager, session, request);
            Ok((manager, Some(reply)))
        }
        Line::Status(session) => {
            let reply = status(&manager, session, calls);
            Ok((manager, Some(reply)))
        }
        Line::Control(session, _) => {
            let reply = control(&manager, session);
            Ok((manager, Some(reply)))
        }
        Line::Fail { file, call, effect } => {
            plan(&mut manager, file, call, effect)?;
            Ok((manager, None))
        }
        Line::Stop { file, call } => {
            stop(&mut manager, file, call);
            Ok((manager, None))
        }
        Line::Reopen => {
            let manager = reopen(alloc, manager, settings)?;
            Ok((manager, Some(Reply::plain(XA_OK))))
        }
        Line::Crash { file, keeps } => {
            let manager = crash(alloc, manager, settings, file, keeps)?;
            Ok((manager, Some(Reply::plain(XA_OK))))
        }
    }
}

/// Connects a session.
fn connect(manager: &mut Manager<MemDisk>) -> Reply
    ensures { Answered manager.old Event.Connect result manager.new }
{
    connect_reply(manager.connect())
}

/// Hangs a session up, whether it is connected or not.
fn hang_up(manager: &mut Manager<MemDisk>, session: u64) -> Reply
    ensures { Answered manager.old (Event.Hangup session) result manager.new }
{
    manager.hangup(session);
    Reply::plain(XA_OK)
}

/// Asks a request of a session.
fn call(manager: &mut Manager<MemDisk>, session: u64, request: Request) -> Reply
    requires { IsRequest request }
    ensures asked { IsAsked request }
    ensures answered { Answered manager.old (Event.Call session request) result manager.new }
{
    request.hold();
    manager.call(session, request)
}

/// How the manager is doing, for a session that is connected.
fn status(manager: &Manager<MemDisk>, session: u64, calls: u64) -> Reply
    ensures { Tells manager.now session (versions_of manager.now) calls result }
{
    if manager.has_session(session) {
        Reply::carrying(Body::Status(Status {
            calls,
            ..manager.status()
        }))
    } else {
        Reply::plain(XAER_PROTO)
    }
}

/// What asks a server something is answered to a session that is connected, since there is no server.
fn control(manager: &Manager<MemDisk>, session: u64) -> Reply
    ensures { TellsEnd manager.now session result }
{
    if manager.has_session(session) {
        Reply::plain(XA_OK)
    } else {
        Reply::plain(XAER_PROTO)
    }
}

/// Plans that this device call of the log's file that is named fails with this effect.
fn plan(
    manager: &mut Manager<MemDisk>,
    file: LogFile,
    call: u64,
    effect: CallEffect,
) -> Result<(), AllocError>
    ensures { Planned result file call effect manager.old manager.new }
{
    let effect = match effect {
        CallEffect::Kept => Effect::Kept,
        CallEffect::Lost => Effect::Lost,
    };
    match file {
        LogFile::Current => manager.fail(call, effect),
        LogFile::Other => manager.fail_other(call, effect),
    }
}

/// Plans that from this device call on the disk of the log's file that is named stops.
fn stop(manager: &mut Manager<MemDisk>, file: LogFile, call: u64)
    ensures { Stopped file call manager.old manager.new }
{
    match file {
        LogFile::Current => manager.stop(call),
        LogFile::Other => manager.stop_other(call),
    }
}

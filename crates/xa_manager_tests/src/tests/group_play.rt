//! Scripts in which calls are asked together, and how a manager on disks in memory plays them.
ghost use Rattle.std.specs.List.{AllByRecursion};
ghost use Rattle.std.specs.Prelude.{IfSome, IsSome};
ghost use Rattle.xa_frame.specs.Limits.{IsRequest};
ghost use Rattle.xa_manager.specs.Believed.Pending.{IsGroupOf};
ghost use Rattle.xa_model.specs.Events.{IsAsked};

use std::alloc::Global;
use xa_codes::{Bytes, XA_OK};
use xa_disk::{Effect, MemDisk};
use xa_frame::{Reply, Request};
use xa_manager::{Asked, Manager, PendingGroup, Settings, connect_reply};
use xa_rows::Play;
use xa_script::{CallEffect, Line, LogFile, read_line, reply_line};

/// A reply that ends with the number of the branch that is started, whichever that is.
pub const NUMBER: &str = "0 Nothing number";

/// What a call of a group is replied, with its place among those that were asked.
pub type Told = (usize, &'static str);

/// A manager with a log of this many bytes in each of two disks in memory.
#[derive(Drop)]
pub struct Player {
    alloc: Global,
    log_bytes: u64,
    manager: Manager<MemDisk>,
}

/// Reads one more call. None if the line is no call, or there is no memory.
fn read_call(alloc: Global, calls: &mut Vec<Asked>, line: &str) -> Option<()>
    requires { AllByRecursion (λ c. IsAsked c.request) calls.old.items }
    ensures { IsSome result → AllByRecursion (λ c. IsAsked c.request) calls.new.items }
{
    match read_line(alloc, line.as_bytes()) {
        Ok(Line::Call(session, request)) => {
            request.hold();
            calls.push(Asked { session, request }).ok()
        }
        _ => None,
    }
}

/// The calls of these lines.
fn read_calls(alloc: Global, lines: &[&str]) -> Option<Vec<Asked>>
    ensures { IfSome result (λ calls. AllByRecursion (λ c. IsAsked c.request) calls.items) }
{
    let mut calls = Vec::new(alloc);
    'lines: for line in lines {
        read_call(alloc, &mut calls, line)?;
    }
    Some(calls)
}

fn opened(
    alloc: Global,
    first: MemDisk,
    second: MemDisk,
    log_bytes: u64,
) -> Option<Manager<MemDisk>> {
    let name = Bytes::from_slice(alloc, b"xarm").ok()?;
    Manager::open(alloc, first, second, Settings { name, log_bytes }).ok()
}

/// Whether a reply is shown like this.
fn shows(alloc: Global, reply: &Reply, want: &str) -> bool {
    let Ok(line) = reply_line(alloc, reply) else {
        return false;
    };
    if want == NUMBER {
        return line.starts_with(want.as_bytes());
    }
    match line.split_last() {
        Some((_, line)) => line == want.as_bytes(),
        None => false,
    }
}

fn called(manager: &mut Manager<MemDisk>, session: u64, request: Request) -> Reply
    requires { IsRequest request }
{
    request.hold();
    manager.call(session, request)
}

// A group of these calls. If memory ran out nothing was answered, and they are asked again.
fn begun(manager: &mut Manager<MemDisk>, calls: Vec<Asked>) -> Option<PendingGroup>
    requires { AllByRecursion (λ c. IsAsked c.request) calls.items }
    ensures { IfSome result (IsGroupOf manager.new) }
{
    match manager.begin_group(calls) {
        Ok(group) => Some(group),
        Err(calls) => manager.begin_group(calls).ok(),
    }
}

// What the calls of a group are replied once it is synced.
fn finished(manager: &mut Manager<MemDisk>, group: PendingGroup) -> Vec<(usize, Reply)>
    requires { IsGroupOf manager.old group }
{
    let answer = manager.syncer().sync();
    let (replies, _calls) = manager.finish_group(group, answer);
    replies
}

/// What session 1 asks while a group is pending, on a branch of its own, and what of that has to wait.
const MEANWHILE: [(&str, &str); 3] = [
    ("1 start TMNOFLAGS 1:88:", NUMBER),
    ("1 put 7a 31", "0 Nothing"),
    ("1 end TMSUCCESS 1:88:", "0 Nothing"),
];

const WAITING: [&str; 3] = [
    "1 start TMJOIN 1:aa:",
    "1 commit TMONEPHASE 1:88:",
    "1 doom 1:aa:",
];

// Whether a call gets this reply while a group is pending; a call that has to wait is given back.
fn works(
    alloc: Global,
    manager: &mut Manager<MemDisk>,
    group: &PendingGroup,
    line: &str,
    want: Option<&str>,
) -> bool
    requires { IsGroupOf manager.old group.now }
    ensures { IsGroupOf manager.new group.now }
{
    match read_line(alloc, line.as_bytes()) {
        Ok(Line::Call(session, request)) => {
            request.hold();
            match (manager.call_beside(group, session, request), want) {
                (Ok(reply), Some(want)) => shows(alloc, &reply, want),
                (Err(_), None) => true,
                _ => false,
            }
        }
        _ => false,
    }
}

// Whether session 1 is answered so while a group is pending.
fn works_meanwhile(alloc: Global, manager: &mut Manager<MemDisk>, group: &PendingGroup) -> bool
    requires { IsGroupOf manager.old group.now }
    ensures { IsGroupOf manager.new group.now }
{
    let [first, second, third] = MEANWHILE;
    let [join, commit, doom] = WAITING;
    works(alloc, manager, group, first.0, Some(first.1))
        && works(alloc, manager, group, join, None)
        && works(alloc, manager, group, second.0, Some(second.1))
        && works(alloc, manager, group, doom, None)
        && works(alloc, manager, group, third.0, Some(third.1))
        && works(alloc, manager, group, commit, None)
}

fn fail(
    manager: &mut Manager<MemDisk>,
    file: LogFile,
    call: u64,
    effect: CallEffect,
) -> Option<()> {
    let effect = match effect {
        CallEffect::Kept => Effect::Kept,
        CallEffect::Lost => Effect::Lost,
    };
    match file {
        LogFile::Current => manager.fail(call, effect).ok(),
        LogFile::Other => manager.fail_other(call, effect).ok(),
    }
}

fn stop(manager: &mut Manager<MemDisk>, file: LogFile, call: u64) {
    match file {
        LogFile::Current => manager.stop(call),
        LogFile::Other => manager.stop_other(call),
    }
}

fn crashed_disks(
    manager: Manager<MemDisk>,
    file: LogFile,
    keeps: u64,
) -> Option<(MemDisk, MemDisk)> {
    match file {
        LogFile::Current => manager.into_crashed_disks(keeps, 0).ok(),
        LogFile::Other => manager.into_crashed_disks(0, keeps).ok(),
    }
}

impl Player {
    /// One whose disks are empty.
    pub fn new(alloc: Global, log_bytes: u64) -> Option<Player> {
        let manager = opened(alloc, MemDisk::new(alloc), MemDisk::new(alloc), log_bytes)?;
        Some(Player {
            alloc,
            log_bytes,
            manager,
        })
    }

    fn crash(self, file: LogFile, keeps: u64) -> Option<Player> {
        let (first, second) = crashed_disks(self.manager, file, keeps)?;
        let manager = opened(self.alloc, first, second, self.log_bytes)?;
        Some(Player { manager, ..self })
    }

    fn says(self, reply: &Reply, want: &str) -> Option<Player> {
        if shows(self.alloc, reply, want) {
            Some(self)
        } else {
            None
        }
    }

    /// Plays a line. None if the reply is another.
    pub fn line(self, line: &str, want: &str) -> Option<Player> {
        let mut player = self;
        match read_line(player.alloc, line.as_bytes()).ok()? {
            Line::Connect => {
                let reply = connect_reply(player.manager.connect());
                player.says(&reply, want)
            }
            Line::Call(session, request) => {
                let reply = called(&mut player.manager, session, request);
                player.says(&reply, want)
            }
            Line::Fail { file, call, effect } => {
                fail(&mut player.manager, file, call, effect)?;
                Some(player)
            }
            Line::Stop { file, call } => {
                stop(&mut player.manager, file, call);
                Some(player)
            }
            Line::Crash { file, keeps } => player.crash(file, keeps),
            _ => None,
        }
    }

    /// Plays these lines, of which each has to get its reply.
    pub fn part(self, part: &[(&str, &str)]) -> Option<Player> {
        let mut player = self;
        for (line, want) in part {
            player = player.line(line, want)?;
        }
        Some(player)
    }

    /// Plays lines. None if a reply is another.
    pub fn play(self, play: Play) -> Option<Player> {
        let mut player = self;
        for part in play {
            player = player.part(part)?;
        }
        Some(player)
    }

    /// Asks calls together. None if those of the group, or their replies, are others.
    pub fn together(self, lines: &[&str], told: &[Told]) -> Option<Player> {
        let mut player = self;
        let calls = read_calls(player.alloc, lines)?;
        let Some(group) = begun(&mut player.manager, calls) else {
            return if told.is_empty() { Some(player) } else { None };
        };
        let replies = finished(&mut player.manager, group);
        if are_told(player.alloc, &replies, told) {
            Some(player)
        } else {
            None
        }
    }

    /// The same, with work on another branch between the write of their records and the sync.
    pub fn apart(self, lines: &[&str], told: &[Told]) -> Option<Player> {
        let mut player = self;
        let calls = read_calls(player.alloc, lines)?;
        let group = begun(&mut player.manager, calls)?;
        let is_right = works_meanwhile(player.alloc, &mut player.manager, &group);
        let replies = finished(&mut player.manager, group);
        if is_right && are_told(player.alloc, &replies, told) {
            player.line("1 rollback TMNOFLAGS 1:88:", "0 Nothing")
        } else {
            None
        }
    }
}

fn are_told(alloc: Global, replies: &[(usize, Reply)], told: &[Told]) -> bool {
    for ((place, reply), (at, want)) in replies.iter().zip(told) {
        if place != at || !shows(alloc, reply, want) {
            return false;
        }
    }
    replies.len() == told.len()
}

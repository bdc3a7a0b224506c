ghost use Rattle.xa_frame.specs.Limits.{IsRequest};
ghost use Rattle.xa_model.specs.Events.{AreEvents, IsAsked};

use crate::tests::rows::none_wrong;
use std::alloc::Global;
use xa_codes::{Bytes, Code, Detail, TMNOFLAGS, XA_OK, XAER_PROTO};
use xa_disk::MemDisk;
use xa_frame::{Body, Reply, Request, encode_request};
use xa_manager::{Manager, Settings};
use xa_model::Event;
use xa_rows::LOG_BYTES;
use xa_script::{Line, read_line};

// Each test passes whichever allocation fails, since it asks again if memory ran out, or if a disk in
// memory found none and failed: `rt try --test --fail-alloc N` makes the N-th fail.

fn opened(alloc: Global) -> Option<Manager<MemDisk>> {
    let name = Bytes::from_slice(alloc, b"xarm").ok()?;
    let settings = Settings {
        name,
        log_bytes: LOG_BYTES,
    };
    Manager::open(alloc, MemDisk::new(alloc), MemDisk::new(alloc), settings).ok()
}

pub fn manager(alloc: Global) -> Option<Manager<MemDisk>> {
    match opened(alloc) {
        Some(manager) => Some(manager),
        None => opened(alloc),
    }
}

pub fn connected(manager: &mut Manager<MemDisk>) -> Option<u64> {
    match manager.connect() {
        Ok(number) => Some(number),
        Err(_) => manager.connect().ok(),
    }
}

/// What a request of a session is answered. Its numbers are known to be within their types' limits once it is
/// encoded.
pub fn answer(
    manager: &mut Manager<MemDisk>,
    alloc: Global,
    session: u64,
    request: Request,
) -> Option<Reply>
    requires { IsRequest request }
{
    match encode_request(alloc, &request) {
        Ok(_content) => Some(manager.call(session, request)),
        Err(_) => None,
    }
}

/// What the call of a line is answered. Nothing is said of what the manager is then: only its answer is compared.
fn called(manager: &mut Manager<MemDisk>, alloc: Global, line: &str) -> Option<Reply> {
    match read_line(alloc, line.as_bytes()).ok()? {
        Line::Call(session, request) => answer(manager, alloc, session, request),
        _ => None,
    }
}

fn asked(manager: &mut Manager<MemDisk>, alloc: Global, line: &str) -> Option<Reply> {
    match called(manager, alloc, line) {
        Some(reply) if reply.detail == Detail::Nothing => Some(reply),
        _ => called(manager, alloc, line),
    }
}

fn shown(reply: &Reply) -> (Code, u64) {
    let body = match &reply.body {
        Body::Number(number) => *number,
        Body::Branches(branches) => branches.as_slice().len() as u64,
        Body::Value(value) if value.as_slice() == b"v".as_slice() => 0x76,
        _ => 0,
    };
    (reply.code, body)
}

fn is_reply(reply: Option<Reply>, body: u64) -> bool {
    match reply {
        Some(reply) => shown(&reply) == (XA_OK, body),
        None => false,
    }
}

// The calls of a session that reads back what it wrote, each with what it is answered.
const READ_BACK: [(&str, u64); 9] = [
    ("1 open TMNOFLAGS xarm", 0),
    ("1 start TMNOFLAGS 1:aa:bb", 4294967297),
    ("1 put 6b 76", 0),
    ("1 end TMSUCCESS 1:aa:bb", 0),
    ("1 prepare TMNOFLAGS 1:aa:bb", 0),
    ("1 commit TMNOFLAGS 1:aa:bb", 0),
    ("1 start TMNOFLAGS 1:ab:", 4294967298),
    ("1 branches 2", 1),
    ("1 get 6b", 0x76),
];

fn wrong_reply(
    manager: &mut Manager<MemDisk>,
    alloc: Global,
    rows: &[(&str, u64)],
) -> Option<usize> {
    for (index, (line, body)) in rows.iter().enumerate() {
        if !is_reply(asked(manager, alloc, line), *body) {
            return Some(index);
        }
    }
    None
}

fn session(alloc: Global) -> Option<Manager<MemDisk>> {
    let mut manager = manager(alloc)?;
    if connected(&mut manager) == Some(1) {
        Some(manager)
    } else {
        None
    }
}

#[test]
fn a_write_is_read_back(rt: HostRuntime) {
    let mut manager = session(rt.alloc()).expect(&rt, "session 1");
    none_wrong(&rt, wrong_reply(&mut manager, rt.alloc(), &READ_BACK));
}

fn driven(manager: &mut Manager<MemDisk>, alloc: Global) -> Option<Vec<Reply>> {
    let info = Bytes::from_slice(alloc, b"xarm").ok()?;
    let open = Request::Open {
        flags: TMNOFLAGS,
        info,
    };
    let close = Request::Close { flags: TMNOFLAGS };
    let events = vec![in alloc;
        Event::Connect,
        Event::Call(1, open),
        Event::Call(1, close),
        Event::Hangup(1),
        Event::Call(1, Request::Restart),
    ];
    manager.drive(events.ok()?).ok()
}

fn are_codes(replies: &[Reply], codes: &[Code]) -> bool {
    for (reply, code) in replies.iter().zip(codes) {
        if reply.code != *code {
            return false;
        }
    }
    replies.len() == codes.len()
}

fn answers_in_order(alloc: Global) -> bool {
    let Some(mut manager) = manager(alloc) else {
        return false;
    };
    match driven(&mut manager, alloc) {
        Some(replies) => are_codes(&replies, &[XA_OK, XA_OK, XA_OK, XA_OK, XAER_PROTO]),
        None => false,
    }
}

#[test]
fn events_are_answered_in_order(rt: HostRuntime) {
    assert!(rt; answers_in_order(rt.alloc()) || answers_in_order(rt.alloc()));
}

ghost use Rattle.std.specs.Prelude.{◌≡◌, true};
ghost use Rattle.xa_frame.specs.Limits.{IsReply};

use crate::desks::opened;
use crate::tests::clients::{OPEN, listening, reach, replies, send};
use std::alloc::Global;
use std::io::{Eprint, Print};
use std::net::{Net, SocketAddr, TcpListener, TcpStream};
use std::random::RandomSource;
use std::rt::Clock;
use std::sync::Wait;
use std::sync::atomic::{AtomicBool, Ordering};
use std::thread;
use std::thread::{Threads, join};
use std::time::Duration;
use xa_codes::XA_OK;
use xa_frame::{Body, Reply, encode_reply};
use xa_history::Receipt;
use xa_limits::MOST_VALUE;
use xa_model::Event;
use xa_reactor::{Listener, Settings};
use xa_rows::LOG_BYTES;
use xa_server::{Gate, OpenGate, Worked, run_workers};

/// How often a call that is kept back looks whether another came through.
const MOST_LOOKS: u32 = 10_000_000;

/// The bytes of the replies to the six calls of a session.
const REPLIES: usize = 125;

/// Keeps the first call of session 1 back until a call of another session has come through.
#[derive(Drop)]
struct Meeting {
    is_kept_back: AtomicBool,
    is_through: AtomicBool,
    has_met: AtomicBool,
}

// Looks until it is set, so often at most. Whether it is.
fn is_set(flag: &AtomicBool) -> bool {
    for _ in 0..MOST_LOOKS {
        if flag.load(Ordering::SeqCst) {
            return true;
        }
        thread::yield_now();
    }
    false
}

impl Gate for Meeting {
    fn enter(&self, session: u64, number: u64) {
        if session == 1 && number == 1 {
            self.is_kept_back.store(true, Ordering::SeqCst);
            let has_met = is_set(&self.is_through);
            self.has_met.store(has_met, Ordering::SeqCst);
        }
    }

    fn leave(&self, session: u64, _number: u64) {
        if session != 1 {
            self.is_through.store(true, Ordering::SeqCst);
        }
    }
}

// The frame of a call with flags and the XID 1:k:bb.
fn put_call(bytes: &mut Vec<u8>, operation: u8, flags: u8, k: u8) -> Option<()> {
    bytes
        .extend_from_slice(&[
            0, 0, 0, 14, 1, operation, flags, 0, 0, 0, 0, 0, 0, 1, 1, 1, k, 0xbb,
        ])
        .ok()
}

/// The frames of a session that opens, writes its key in a branch of its own, reads it there, and commits in one phase.
fn session_of(alloc: Global, k: u8) -> Option<Vec<u8>> {
    let mut bytes = Vec::new(alloc);
    bytes.extend_from_slice(&OPEN).ok()?;
    put_call(&mut bytes, 3, 0, k)?;
    bytes
        .extend_from_slice(&[0, 0, 0, 7, 1, 11, 1, k, 0, 1, 0x2a])
        .ok()?;
    bytes.extend_from_slice(&[0, 0, 0, 4, 1, 10, 1, k]).ok()?;
    put_call(&mut bytes, 4, 0x04, k)?;
    put_call(&mut bytes, 6, 0x40, k)?;
    Some(bytes)
}

fn is_short(reply: &Reply) -> bool
    ensures { result ≡ true → IsReply reply.now }
{
    match &reply.body {
        Body::Nothing | Body::Number(_) | Body::Absent => true,
        Body::Value(value) => value.as_slice().len() <= MOST_VALUE,
        Body::Xids(_) | Body::Branches(_) | Body::Status(_) => false,
    }
}

fn put_frame(alloc: Global, bytes: &mut Vec<u8>, reply: &Reply) -> Option<()> {
    if !is_short(reply) || reply.code != XA_OK {
        return None;
    }
    let content = encode_reply(alloc, reply).ok()?;
    let length = u32::try_from(content.len()).ok()?;
    bytes.extend_from_slice(&length.to_be_bytes()).ok()?;
    bytes.extend_from_slice(&content).ok()
}

// The frames of the replies to a session's calls, if all are 0.
fn frames_of(alloc: Global, receipts: &[Receipt], wanted: u64) -> Option<Vec<u8>> {
    let mut bytes = Vec::new(alloc);
    for receipt in receipts {
        match &receipt.event {
            Event::Call(session, _) if *session == wanted => {
                put_frame(alloc, &mut bytes, &receipt.reply)?;
            }
            _ => {}
        }
    }
    Some(bytes)
}

// Whether these are the frames of the replies to a session's six calls.
fn are_answered(alloc: Global, done: &Worked, session: u64, replies: &[u8]) -> bool {
    match frames_of(alloc, &done.report.receipts, session) {
        Some(frames) => replies.len() == REPLIES && frames.as_slice() == replies,
        None => false,
    }
}

// Whether an audit found no fault in this many receipts.
fn is_sound(done: &Worked, events: usize) -> bool {
    done.looped.is_whole
        && done.audited.is_whole
        && done.audited.dropped == 0
        && done.report.receipts.len() == events
}

// What this many loops tell of as many connections, and what their clients got.
fn worked<
    T: Drop,
    F: FnOnce(SocketAddr) -> T + Drop,
    G: Gate + Sync,
    R: AllocGlobal
        + Clock
        + Print
        + Eprint
        + Net<Listener = TcpListener, Stream = TcpStream>
        + RandomSource
        + Threads
        + Wait
        + Sync,
>(rt: &R, gate: &G, count: u64, clients: F) -> Option<(Worked, T)>
    requires { F.IsAlwaysCallable clients }
{
    let manager = opened(rt.alloc())?;
    let (listener, address) = listening(rt)?;
    let listener = Listener::Tcp(mio::net::TcpListener::from_std(listener));
    let settings = Settings {
        connections: count,
        frame_seconds: 0,
        idle_seconds: 0,
        branch_seconds: 0,
        ends_when_down: false,
        trim_bytes: 0,
        log_bytes: LOG_BYTES,
        tick_seconds: 0,
    };
    let (done, came) = join(
        rt,
        || run_workers(rt, listener, manager, gate, None, count, settings),
        || clients(address),
    );
    Some((done.ok()?, came))
}

// Two clients, of which the second calls while the first one's call is kept back. The loops take connections in turn, so each
// has one, since the second one comes when both loops have begun.
fn meet<R: Clock + Net<Stream = TcpStream>>(
    rt: &R,
    alloc: Global,
    address: SocketAddr,
    gate: &Meeting,
) -> Option<(Vec<u8>, Vec<u8>)> {
    let mut first = reach(rt, address).ok()?;
    thread::sleep(rt, Duration::from_millis(1_000));
    let mut second = reach(rt, address).ok()?;
    send(&mut first, &session_of(alloc, 0xaa)?).ok()?;
    if !is_set(&gate.is_kept_back) {
        return None;
    }
    send(&mut second, &session_of(alloc, 0xab)?).ok()?;
    Some((replies(alloc, first)?, replies(alloc, second)?))
}

#[test]
fn two_sessions_meet(rt: HostRuntime) {
    let alloc = rt.alloc();
    let gate = Meeting {
        is_kept_back: AtomicBool::new(false),
        is_through: AtomicBool::new(false),
        has_met: AtomicBool::new(false),
    };
    let clients = |address| meet(&rt, alloc, address, &gate);
    let (done, came) = worked(&rt, &gate, 2, clients).expect(&rt, "two loops that have served");
    let (one, other) = came.expect(&rt, "what two clients got");
    assert!(rt; is_sound(&done, 16) && gate.has_met.load(Ordering::SeqCst));
    assert!(rt; are_answered(alloc, &done, 1, &one) && are_answered(alloc, &done, 2, &other));
}

// A client alone.
fn answered<R: Net<Stream = TcpStream>>(
    rt: &R,
    alloc: Global,
    address: SocketAddr,
) -> Option<Vec<u8>> {
    let mut stream = reach(rt, address).ok()?;
    send(&mut stream, &session_of(alloc, 0xaa)?).ok()?;
    replies(alloc, stream)
}

#[test]
fn a_first_connection_is_answered(rt: HostRuntime) {
    let alloc = rt.alloc();
    let clients = |address| answered(&rt, alloc, address);
    let (done, came) = worked(&rt, &OpenGate, 1, clients).expect(&rt, "a loop that has served");
    let came = came.expect(&rt, "what a client got");
    assert!(rt; is_sound(&done, 8) && are_answered(alloc, &done, 1, &came));
}

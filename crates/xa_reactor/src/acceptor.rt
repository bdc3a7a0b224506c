ghost use Rattle.std.specs.Prelude.{◌≡◌, ◌<◌, ◌≤◌, ℕ, IsTrue, false, is_some, true};
ghost use Rattle.xa_reactor.specs.Accepting.{after_failure, after_one, after_telling, new_acceptor};
ghost use Rattle.xa_reactor.specs.Admission.{admission_of, most_open};

use crate::admission::{Admitted, MOST_STRANGERS, Origin};
use crate::common::Common;
use crate::listener::Listener;
use crate::socket::Socket;
use crate::timing::{LOOK, PAUSE};
use crate::trims::REST;
use std::io;
use std::io::ErrorKind;
use std::sync::Wait;

/// The most accepts one after another, before connections have their turns.
const MOST_ACCEPTS: u32 = 64;

/// What accepts connections, and hands them to the loops in turn.
#[derive(Drop)]
pub(crate) struct Acceptor {
    listener: Listener,
    /// How many were accepted, and after how many no more are.
    accepted: u64,
    most: u64,
    /// The loop that has the next one.
    turn: usize,
    /// Whether connections may wait of which no further event tells.
    waits: bool,
    /// When accepting goes on after a pause, if no connection closes.
    resumes: u64,
    /// How many were refused of which nobody was told, and when that may be told.
    refused: u64,
    tells: u64,
    /// How many were open then, at least.
    full: u64,
    /// The same of those that were refused as too many haven't logged in.
    strangers: u64,
    /// Why the last accept failed that is to be told, and when another one may be.
    failed: Option<io::Error>,
    tells_failed: u64,
}

impl Acceptor {
    /// Of this many connections, 0 for any number.
    pub(crate) fn new(listener: Listener, connections: u64) -> Acceptor
        ensures { result ≡ new_acceptor listener connections }
    {
        Acceptor {
            listener,
            accepted: 0,
            most: if connections == 0 {
                u64::MAX
            } else {
                connections
            },
            turn: 0,
            waits: true,
            resumes: 0,
            refused: 0,
            tells: 0,
            full: 0,
            strangers: 0,
            failed: None,
            tells_failed: 0,
        }
    }

    /// An event told of a connection that waits.
    pub(crate) fn notice(&mut self)
        ensures { self.new ≡ record self.old { waits = true } }
    {
        self.waits = true;
    }

    /// Whether it pauses: an accept failed, since then no connection closed, and the pause isn't over.
    pub(crate) fn is_pausing(&self, common: &Common<'_>, now: u64) -> bool
        ensures { IsTrue result → now < self.now.resumes }
    {
        now < self.resumes && common.pauses()
    }

    /// Whether there may be a connection to accept.
    pub(crate) fn waits(&self) -> bool
        ensures { result ≡ self.now.waits }
    {
        self.waits
    }

    /// Accepts what waits, this many at most.
    pub(crate) fn accept_all<R: Wait>(&mut self, rt: &R, common: &Common<'_>, now: u64)
        ensures most { self.new.most ≡ self.old.most }
        ensures few { self.old.accepted ≤ self.old.most → self.new.accepted ≤ self.new.most }
        ensures none { self.old.waits ≡ false → self.new ≡ self.old }
    {
        if !self.waits || self.is_pausing(common, now) {
            return;
        }
        for _ in 0..MOST_ACCEPTS {
            if !self.accept_one(rt, common, now) {
                return;
            }
        }
    }

    // Whether another may wait that is to be accepted now.
    fn accept_one<R: Wait>(&mut self, rt: &R, common: &Common<'_>, now: u64) -> bool
        ensures most { self.new.most ≡ self.old.most }
        ensures few { self.old.accepted ≤ self.old.most → self.new.accepted ≤ self.new.most }
    {
        if self.accepted >= self.most {
            self.waits = false;
            common.end();
            return false;
        }
        match self.listener.accept() {
            Ok((socket, origin)) => {
                self.accepted += 1;
                self.admit(rt, common, socket, origin);
                true
            }
            Err(error) => match error.kind() {
                ErrorKind::WouldBlock => {
                    self.waits = false;
                    false
                }
                ErrorKind::Interrupted | ErrorKind::ConnectionAborted => true,
                _ => {
                    self.resumes = now.saturating_add(PAUSE);
                    self.failed = Some(error);
                    common.pause();
                    false
                }
            },
        }
    }

    // Hands a connection from there to a loop, if it is admitted; else it is closed.
    fn admit<R: Wait>(&mut self, rt: &R, common: &Common<'_>, socket: Socket, origin: Origin)
        ensures taken { (count : ℕ) × (strangers : ℕ) × (turn : ℕ)
            × (self.new ≡ after_one (admission_of common.now.has_path (is_some common.now.users) origin count strangers)
            (most_open common.now.has_path origin) turn self.old) }
        ensures same { self.new
            ≡ record self.old { turn = self.new.turn; refused = self.new.refused; full = self.new.full; strangers = self.new.strangers } }
    {
        match common.admit(origin) {
            Admitted::Yes => {
                let guest = common.guest(socket);
                self.turn = common.hand(rt, self.turn, guest).saturating_add(1);
            }
            Admitted::Full => {
                self.refused = self.refused.saturating_add(1);
                self.full = self.full.max(common.most_open(origin));
            }
            Admitted::Strange => self.strangers = self.strangers.saturating_add(1),
        }
    }

    /// Tells why accepting pauses, at most once a minute, and how many were refused, at most once a second.
    pub(crate) fn tell<R: Eprint>(&mut self, rt: &R, now: u64)
        ensures { self.new ≡ after_telling now self.old }
    {
        if let Some(error) = self.failed.take() {
            self.tell_failed(rt, now, &error);
        }
        if self.refused == 0 && self.strangers == 0 || now < self.tells {
            return;
        }
        let (refused, full, strangers) = (self.refused, self.full, self.strangers);
        if refused > 0 {
            let _ = eprintln!(rt; "xarm: {refused} connections refused: {full} are open");
        }
        if strangers > 0 {
            let _ = eprintln!(rt;
                "xarm: {strangers} connections refused: {MOST_STRANGERS} haven't logged in"
            );
        }
        self.refused = 0;
        self.full = 0;
        self.strangers = 0;
        self.tells = now.saturating_add(LOOK);
    }

    // Tells why accepting pauses, unless that was told less than a minute ago.
    fn tell_failed<R: Eprint>(&mut self, rt: &R, now: u64, error: &io::Error)
        ensures { self.new ≡ after_failure now self.old }
    {
        if now < self.tells_failed {
            return;
        }
        let _ = eprintln!(rt; "xarm: cannot accept connections: {error}; trying again");
        self.tells_failed = now.saturating_add(REST);
    }
}

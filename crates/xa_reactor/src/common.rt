ghost use Rattle.std.specs.Prelude.{◌≡◌, ◌≤◌, ℕ, is_some, vec_len};
ghost use Rattle.std.specs.Option.{option_map};
ghost use Rattle.xa_reactor.specs.{Admission.admission_of, Admission.has_path, Admission.most_open, Users.users_of};

use crate::admission::{Admitted, Origin, admission_of, most_open};
use crate::cuts::Cuts;
use crate::listener::Listener;
use crate::mailbox::Mailbox;
use crate::place::{Guest, Strangers};
use crate::socket::Socket;
use crate::ticks::Ticks;
use crate::trims::Trims;
use crate::watch::Watch;
use std::alloc::{AllocError, Global};
use std::sync::atomic::{AtomicBool, AtomicU64, Ordering};
use std::sync::{Mutex, Wait};
use xa_users::Users;

/// The id of the connections that were taken up.
const ACCEPTED: u64 = 1;

/// The id of those that weren't, as too many were open.
const REFUSED: u64 = 2;

/// What is asked of the loops.
#[derive(Clone, Copy, Debug, PartialEq, Eq)]
pub struct Settings {
    /// After how many connections they end, 0 for never.
    pub connections: u64,
    /// For how many seconds a connection may bring no byte inside a frame, 0 for ever.
    pub frame_seconds: u64,
    /// For how many seconds a connection whose session has no association may be quiet, 0 for ever.
    pub idle_seconds: u64,
    /// For how many seconds a connection whose session has one may be quiet, 0 for ever.
    pub branch_seconds: u64,
    /// Whether they end when the manager has gone down.
    pub ends_when_down: bool,
    /// Above which end of the log they trim it, in bytes, 0 for never. Above half of `log_bytes` a quarter of that counts.
    pub trim_bytes: u64,
    /// How many bytes each of the log's two files may have.
    pub log_bytes: u64,
    /// After how many seconds they tell the manager the time again, 0 for never.
    pub tick_seconds: u64,
}

/// Who has to log in at the loops.
#[derive(Drop)]
pub(crate) struct Logins<'a> {
    pub(crate) users: Option<&'a Users>,
    pub(crate) key: [u8; 32],
    pub(crate) strangers: Strangers,
}

/// What the loops of a server share, beside its manager.
#[derive(Drop)]
pub(crate) struct Common<'a> {
    pub(crate) settings: Settings,
    /// Of each loop.
    boxes: Vec<Mailbox>,
    pub(crate) watch: &'a Watch,
    pub(crate) trims: Mutex<Trims>,
    pub(crate) ticks: Mutex<Ticks>,
    pub(crate) cuts: Cuts,
    /// Until a loop has taken it, the first one that begins.
    listener: Mutex<Option<Listener>>,
    /// Whether the listener has a Unix socket.
    has_path: bool,
    /// Who may log in, and has to; None if nobody has to.
    pub(crate) users: Option<&'a Users>,
    /// The server's own key, by which nobody learns from a login who is a user.
    pub(crate) key: [u8; 32],
    /// How many have to, and haven't.
    strangers: Strangers,
    /// How many connections are open, or handed to a loop.
    open: AtomicU64,
    /// How many were taken up, and how many weren't, as too many were open.
    accepted: AtomicU64,
    refused: AtomicU64,
    /// Whether accepting pauses until a connection closes.
    pauses: AtomicBool,
    /// Whether no more connections come: a loop without one ends.
    is_over: AtomicBool,
    /// Whether each loop ends at once.
    is_stopped: AtomicBool,
}

impl<'a> Common<'a> {
    pub(crate) fn new(
        settings: Settings,
        boxes: Vec<Mailbox>,
        watch: &'a Watch,
        listener: Listener,
        logins: Logins<'a>,
        alloc: Global,
    ) -> Common<'a>
        ensures same { (result.settings ≡ settings) × (result.has_path ≡ has_path listener) × (result.boxes ≡ boxes) }
        ensures users { users_of result ≡ option_map (λ u. u.now) logins.entry.users }
    {
        let has_path = listener.has_path();
        let Logins {
            users,
            key,
            strangers,
        } = logins;
        Common {
            settings,
            boxes,
            watch,
            trims: Mutex::new(Trims::new()),
            ticks: Mutex::new(Ticks::new()),
            cuts: Cuts::new(alloc),
            listener: Mutex::new(Some(listener)),
            has_path,
            users,
            key,
            strangers,
            open: AtomicU64::new(0),
            accepted: AtomicU64::new(0),
            refused: AtomicU64::new(0),
            pauses: AtomicBool::new(false),
            is_over: AtomicBool::new(false),
            is_stopped: AtomicBool::new(false),
        }
    }

    /// A loop begins. It is to accept, if it is given the listener.
    pub(crate) fn begin<R: Wait>(&self, rt: &R, index: usize) -> Option<Listener> {
        if let Some(mailbox) = self.boxes.get(index) {
            mailbox.begin();
        }
        self.listener.lock(rt).take()
    }

    /// Takes up a connection from there, if few enough are open, and of those that have to log in and haven't.
    pub(crate) fn admit(&self, origin: Origin) -> Admitted
        ensures { (count : ℕ) × (strangers : ℕ)
            × (result ≡ admission_of self.now.has_path (is_some self.now.users) origin count strangers) }
    {
        let count = self.open.load(Ordering::SeqCst);
        let has_users = self.users.is_some();
        let admitted = admission_of(
            self.has_path,
            has_users,
            origin,
            count,
            self.strangers.count(),
        );
        if matches!(admitted, Admitted::Yes) {
            self.open.fetch_add(1, Ordering::SeqCst);
            self.accepted.fetch_add(1, Ordering::SeqCst);
        } else {
            self.refused.fetch_add(1, Ordering::SeqCst);
        }
        admitted
    }

    /// A connection that was taken up, with its place, if it has to log in.
    pub(crate) fn guest(&self, socket: Socket) -> Guest {
        let place = match self.users {
            Some(_) => self.strangers.take_place(),
            None => None,
        };
        Guest { socket, place }
    }

    /// Appends how many connections were taken up, and how many weren't, each after its id.
    pub(crate) fn put_counts(&self, out: &mut Vec<u64>) -> Result<(), AllocError> {
        out.push(ACCEPTED)?;
        out.push(self.accepted.load(Ordering::SeqCst))?;
        out.push(REFUSED)?;
        out.push(self.refused.load(Ordering::SeqCst))?;
        Ok(())
    }

    /// How many are open if one from there isn't taken up, at least.
    pub(crate) fn most_open(&self, origin: Origin) -> u64
        ensures { result ≡ most_open self.now.has_path origin }
    {
        most_open(self.has_path, origin)
    }

    /// So many connections have closed.
    pub(crate) fn leave(&self, count: u64) {
        if count == 0 {
            return;
        }
        self.open.fetch_sub(count, Ordering::SeqCst);
        if self.pauses.swap(false, Ordering::SeqCst) {
            self.wake_all();
        }
    }

    /// Accepting pauses until a connection closes.
    pub(crate) fn pause(&self) {
        self.pauses.store(true, Ordering::SeqCst);
    }

    pub(crate) fn pauses(&self) -> bool {
        self.pauses.load(Ordering::SeqCst)
    }

    /// Hands a connection to one of the loops that have begun, the next one in turn from this one on; says which.
    pub(crate) fn hand<R: Wait>(&self, rt: &R, from: usize, guest: Guest) -> usize
        ensures { result ≤ vec_len self.now.boxes }
    {
        let index = self.next_loop(from);
        let is_put = match self.boxes.get(index) {
            Some(mailbox) => mailbox.put(rt, guest),
            None => false,
        };
        if !is_put {
            self.leave(1);
        }
        index
    }

    // The loop in turn, or the next one after it that has begun.
    fn next_loop(&self, from: usize) -> usize
        ensures { result ≤ vec_len self.now.boxes }
    {
        for index in from..self.boxes.len() {
            if self.has_begun(index) {
                return index;
            }
        }
        for index in 0..self.boxes.len() {
            if self.has_begun(index) {
                return index;
            }
        }
        self.boxes.len()
    }

    fn has_begun(&self, index: usize) -> bool {
        match self.boxes.get(index) {
            Some(mailbox) => mailbox.has_begun(),
            None => false,
        }
    }

    /// The next connection that was handed to a loop.
    pub(crate) fn take<R: Wait>(&self, rt: &R, index: usize) -> Option<Guest> {
        match self.boxes.get(index) {
            Some(mailbox) => mailbox.take(rt),
            None => None,
        }
    }

    /// How many orders to end a connection a loop has looked at.
    pub(crate) fn looked(&self, index: usize) -> u64 {
        match self.boxes.get(index) {
            Some(mailbox) => mailbox.looked(),
            None => u64::MAX,
        }
    }

    /// A loop has looked at this many. Others wait for that.
    pub(crate) fn look(&self, index: usize, count: u64) {
        if let Some(mailbox) = self.boxes.get(index) {
            mailbox.look(count);
        }
        self.wake_all();
    }

    /// Whether each loop that has begun has looked at the order of this number. One that begins later has no connection that
    /// it means.
    pub(crate) fn all_have_looked(&self, number: u64) -> bool {
        for mailbox in self.boxes.iter() {
            if mailbox.has_begun() && mailbox.looked() <= number {
                return false;
            }
        }
        true
    }

    /// No more connections come.
    pub(crate) fn end(&self) {
        self.is_over.store(true, Ordering::SeqCst);
        self.wake_all();
    }

    pub(crate) fn is_over(&self) -> bool {
        self.is_over.load(Ordering::SeqCst)
    }

    /// Each loop is to end at once.
    pub(crate) fn stop(&self) {
        self.is_stopped.store(true, Ordering::SeqCst);
        self.wake_all();
    }

    pub(crate) fn is_stopped(&self) -> bool {
        self.is_stopped.load(Ordering::SeqCst)
    }

    pub(crate) fn wake_all(&self) {
        for mailbox in self.boxes.iter() {
            mailbox.wake();
        }
    }
}

ghost use Rattle.std.specs.Prelude.{◌≡◌, ◌-◌, ◌↔◌, IsTrue, None, not, false, true};
ghost use Rattle.xa_connection.specs.Calls.{Asks, IsAsked, Turns, new_connection};
ghost use Rattle.xa_connection.specs.declared.answering.Answering.{Answering};
ghost use Rattle.xa_reactor.specs.Believed.Tending.{seat_of};
ghost use Rattle.xa_reactor.specs.{Asking.IsAnswered, Opening.Opens, Opening.OpensTo, Timing.IsRead, Timing.after_wait};
ghost use Rattle.xa_reactor.specs.{Allowance.after_noted, Noted.MayBeFrom, Noted.Notes, Peers.noticed};
ghost use Rattle.xa_reactor.specs.Since.{FedAt, Owes, SentAt, TakenAt};
ghost use Rattle.xa_reactor.specs.Turning.{CarriesOn, HasAnswered, HasFed, HasSent, HasTaken, HoldsMore, StepsTo};

use crate::allowance::Allowance;
use crate::ask::Ask;
use crate::clock::LoopClock;
use crate::noted::{Noted, tell};
use crate::orders::control_in;
use crate::place::{Guest, Place};
use crate::round::Round;
use crate::socket::{Socket, Source, is_passing};
use mio::Token;
use mio::event::Event;
use std::alloc::Global;
use std::io::ErrorKind;
use std::mem;
use std::rt::Clock;
use xa_codes::{Code, XA_OK};
use xa_connection::{Asked, Connection, Front, MOST_INPUT};
use xa_desk::Door;
use xa_frame::{Question, Reply};
use xa_roles::Role;
use xa_users::Login;

/// A connection with its socket, and the session that is served on it.
#[derive(Drop)]
pub(crate) struct Peer {
    pub(crate) socket: Socket,
    pub(crate) connection: Connection,
    pub(crate) session: u64,
    /// The role that it has shown, or that all have.
    pub(crate) standing: Option<Role>,
    /// The login that it has begun.
    pub(crate) login: Option<Login>,
    /// How often it has failed to log in.
    pub(crate) tries: u32,
    /// When it is answered that it failed, by the loop's clock.
    pub(crate) pause: Option<u64>,
    /// Its place among those that haven't logged in.
    pub(crate) place: Option<Place>,
    /// Whether there may be bytes to read of which no further event tells.
    reads: bool,
    /// Whether the peer sends no more: what it sent is read to its end.
    is_ending: bool,
    /// Whether events tell when the socket takes more.
    writes: bool,
    /// Whether it waits for its turn, or its connection is lent in one.
    pub(crate) is_queued: bool,
    /// When bytes last came or went, by the loop's clock.
    since: u64,
    /// Which of the server's connections it is, in the order in which their sessions were connected.
    pub(crate) serial: u64,
    /// The number of the order that it waits for, which it gave.
    pub(crate) order: Option<u64>,
    /// The operator's call that it gave, while that isn't answered.
    noted: Option<Noted>,
}

/// What comes after a turn.
#[derive(Clone, Copy, Debug, PartialEq, Eq)]
pub(crate) enum Step {
    /// An event tells when there is more to do.
    Waits,
    /// There is more to do, of which no event tells.
    Goes,
    /// The connection is over.
    Ends,
    /// It asked the server to end.
    Stops,
    /// It asked something else of the server itself, which is answered between rounds.
    Asks,
}

/// What a turn comes to that is opened.
#[derive(Drop)]
pub(crate) enum Opened {
    /// The connection brought in a request, and is lent until that is answered.
    Asks(Ask),
    /// The turn is over.
    Over(Step),
}

impl Peer {
    pub(crate) fn new(
        alloc: Global,
        guest: Guest,
        session: u64,
        standing: Option<Role>,
        serial: u64,
        now: u64,
    ) -> Peer
        ensures seat { seat_of result ≡ record { session = session; standing = standing; login = None } }
        ensures new { result.connection ≡ new_connection }
        ensures counted { (result.serial ≡ serial) × (result.order ≡ None) × (result.noted ≡ None) }
        ensures since { result.since ≡ now }
        ensures waits { (result.is_queued ≡ false) × (result.reads ≡ false) × (result.writes ≡ false) × (result.is_ending ≡ false) }
    {
        let Guest { socket, place } = guest;
        Peer {
            socket,
            connection: Connection::new(alloc),
            session,
            standing,
            login: None,
            tries: 0,
            pause: None,
            place,
            reads: false,
            is_ending: false,
            writes: false,
            is_queued: false,
            since: now,
            serial,
            order: None,
            noted: None,
        }
    }

    /// An event told of the socket. Whether the peer is to be put into the queue of turns, if it isn't yet.
    pub(crate) fn notice(&mut self, event: &Event) -> bool
        ensures queued { result ≡ not self.old.is_queued }
        ensures noticed { self.new ≡ noticed event.now self.old }
    {
        if event.is_read_closed() || event.is_error() {
            self.is_ending = true;
            self.reads = true;
        }
        if event.is_readable() {
            self.reads = true;
        }
        let was_queued = self.is_queued;
        self.is_queued = true;
        !was_queued
    }

    /// A turn: what is to be sent is sent; one read, if no whole frame came in; one frame is answered; and its reply
    /// is sent. While a reply isn't sent nothing is read, and nothing answered.
    pub(crate) fn turn<D: Door, R: Clock>(
        &mut self,
        rt: &R,
        round: Round<'_>,
        clock: &mut LoopClock,
        door: &mut D,
        scratch: &mut [u8],
        key: usize,
    ) -> Step
        ensures session { seat_of self.new ≡ seat_of self.old }
        ensures answers { HasAnswered self.old.standing (D.called self.old.session) door.old door.new }
        ensures carries { CarriesOn self.old.standing (D.called self.old.session) self.old.connection door.old self.new.connection
            door.new }
        ensures steps { StepsTo result self.new }
    {
        if !self.take_turn(rt, clock, scratch) {
            return Step::Ends;
        }
        let asked = self.connection.asked(round.alloc, self.standing);
        let control = control_in(&asked);
        self.answer(clock, door, asked);
        let step = self.send(rt, round, clock, key);
        self.order_or(control, step)
    }

    /// A turn up to a request, which is answered together with those of other connections, by the connection that is lent
    /// for it; a whole turn, if there is none.
    pub(crate) fn open_turn<D: Door, R: Clock>(
        &mut self,
        rt: &R,
        round: Round<'_>,
        clock: &mut LoopClock,
        door: &mut D,
        scratch: &mut [u8],
        key: usize,
    ) -> Opened
        ensures session { seat_of self.new ≡ seat_of self.old }
        ensures opens { Opens (D.called self.old.session) self.old door.old key result self.new door.new }
        ensures noted { Notes result self.new }
        ensures steps { OpensTo result self.new }
    {
        if !self.take_turn(rt, clock, scratch) {
            return Opened::Over(Step::Ends);
        }
        match self.connection.asked(round.alloc, self.standing) {
            Asked::One(count, Question::Call(request)) => {
                // no event opens another turn while the connection is lent
                self.is_queued = true;
                self.noted = Noted::of_request(&self.socket, &request);
                Opened::Asks(Ask {
                    key,
                    connection: mem::replace(&mut self.connection, Connection::new(round.alloc)),
                    front: Front::Whole(count),
                    session: self.session,
                    request: Some(request),
                    reply: Reply::plain(XA_OK),
                })
            }
            asked => {
                let control = control_in(&asked);
                self.answer(clock, door, asked);
                let step = self.send(rt, round, clock, key);
                Opened::Over(self.order_or(control, step))
            }
        }
    }

    /// The rest of a turn whose request was answered: the connection is given back, and the reply sent.
    pub(crate) fn close_turn<R: Clock + Eprint>(
        &mut self,
        rt: &R,
        round: Round<'_>,
        clock: &mut LoopClock,
        allowance: &mut Allowance,
        ask: Ask,
    ) -> Step
        requires { IsAnswered ask }
        ensures session { seat_of self.new ≡ seat_of self.old }
        ensures sent { HasSent ask.connection self.new.connection }
        ensures steps { StepsTo result self.new }
        ensures since { SentAt clock.new.now ask.connection self.old.since self.new.connection self.new.since }
        ensures read { IsRead clock.new }
    {
        let Ask {
            key,
            connection,
            reply,
            ..
        } = ask;
        self.connection = connection;
        self.is_queued = false;
        self.tell(rt, allowance, clock.now(rt), reply.code);
        self.send(rt, round, clock, key)
    }

    // Tells of the order that it gave, if it did, which was answered so.
    fn tell<R: Eprint>(&mut self, rt: &R, allowance: &mut Allowance, now: u64, code: Code)
        ensures told { self.new ≡ record self.old { noted = None } }
        ensures line { allowance.new ≡ after_noted self.old.noted now allowance.old }
    {
        tell(rt, allowance, now, self.noted.take(), code);
    }

    // Answers what was asked, for which it may wait.
    fn answer<D: Door>(&mut self, clock: &mut LoopClock, door: &mut D, asked: Asked)
        requires asks { Asks self.old.standing self.old.connection asked }
        requires limits { IsAsked asked }
        ensures session { seat_of self.new ≡ seat_of self.old }
        ensures turns { (answering : Answering)
            × Turns self.old.standing (D.called self.old.session) self.old.connection door.old answering self.new.connection door.new }
        ensures since { self.new.since ≡ self.old.since }
        ensures queued { self.new.is_queued ≡ self.old.is_queued }
        ensures waited { clock.new ≡ after_wait clock.old }
    {
        let _answering = self
            .connection
            .answer_asked(self.standing, door, self.session, asked);
        clock.pass();
    }

    // The beginning of a turn: what is to be sent is sent, and one read, if no whole frame came in. Whether the connection
    // goes on.
    fn take_turn<R: Clock>(&mut self, rt: &R, clock: &mut LoopClock, scratch: &mut [u8]) -> bool
        ensures session { seat_of self.new ≡ seat_of self.old }
        ensures taken { HasTaken self.old.connection self.new.connection }
        ensures queued { self.new.is_queued ≡ false }
        ensures since { TakenAt clock.new.now self.old.connection self.old.since self.new.connection self.new.since }
        ensures read { IsRead clock.new }
    {
        let now = clock.now(rt);
        self.is_queued = false;
        if !self.flush(now) {
            return false;
        }
        self.is_asked() || self.receive(scratch, now)
    }

    /// The end of a turn: a reply is sent. What comes after it, with events of what it waits for.
    pub(crate) fn send<R: Clock>(
        &mut self,
        rt: &R,
        round: Round<'_>,
        clock: &mut LoopClock,
        key: usize,
    ) -> Step
        ensures session { seat_of self.new ≡ seat_of self.old }
        ensures sent { HasSent self.old.connection self.new.connection }
        ensures since { SentAt clock.new.now self.old.connection self.old.since self.new.connection self.new.since }
        ensures read { IsRead clock.new }
        ensures steps { self.old.is_queued ≡ false → StepsTo result self.new }
    {
        let now = clock.now(rt);
        if !self.flush(now) || self.connection.is_done() {
            return Step::Ends;
        }
        let is_full = !self.connection.unsent().is_empty();
        if is_full != self.writes {
            self.writes = is_full;
            if !self.socket.watch(round.registry, Token(key), is_full) {
                return Step::Ends;
            }
        }
        if !is_full && (self.reads || self.is_asked()) {
            self.is_queued = true;
            Step::Goes
        } else {
            Step::Waits
        }
    }

    // Writes once what is to be sent. Whether the socket is whole.
    fn flush(&mut self, now: u64) -> bool
        ensures session { seat_of self.new ≡ seat_of self.old }
        ensures sent { HasSent self.old.connection self.new.connection }
        ensures since { SentAt now self.old.connection self.old.since self.new.connection self.new.since }
        ensures queued { self.new.is_queued ≡ self.old.is_queued }
    {
        if self.connection.unsent().is_empty() {
            return true;
        }
        match self.socket.write(self.connection.unsent()) {
            Ok(0) => false,
            Ok(count) => {
                self.connection.sent(count);
                self.since = now;
                true
            }
            Err(error) => is_passing(error.kind()),
        }
    }

    // Reads once, as far as the connection takes bytes and there may be some. Whether more may come. A read that gives
    // less than it was asked for is the last, as an event tells of what comes then; but not if the peer sends no
    // more, of which there was an event already.
    fn receive(&mut self, scratch: &mut [u8], now: u64) -> bool
        ensures session { seat_of self.new ≡ seat_of self.old }
        ensures fed { HasFed self.old.connection self.new.connection }
        ensures since { FedAt now self.old.connection self.old.since self.new.connection self.new.since }
        ensures queued { self.new.is_queued ≡ self.old.is_queued }
    {
        let most = self.connection.room().min(scratch.len());
        if most == 0 || !self.reads {
            return true;
        }
        match self.socket.read(&mut scratch[..most]) {
            Ok(0) => false,
            Ok(count) => {
                self.reads = self.is_ending || count == most;
                if self.connection.feed(&scratch[..count]).is_err() {
                    return false;
                }
                self.since = now;
                true
            }
            Err(error) => {
                let kind = error.kind();
                self.reads = kind != ErrorKind::WouldBlock;
                is_passing(kind)
            }
        }
    }

    /// Where it comes from.
    pub(crate) fn source(&self) -> Source
        ensures { MayBeFrom self.now.socket result }
    {
        self.socket.source()
    }

    /// The socket.
    pub(crate) fn into_socket(self) -> Socket
        ensures { result ≡ self.socket }
    {
        let Peer { socket, .. } = self;
        socket
    }

    /// Whether it owes a login, and doesn't wait for the answer to one that failed, or the rest of a frame, and is owed nothing
    /// itself: while a reply isn't sent nothing is read of it.
    pub(crate) fn owes(&self) -> bool
        ensures { IsTrue result ↔ Owes self.now }
    {
        self.standing.is_none() && self.pause.is_none()
            || self.connection.is_inside_frame() && self.connection.unsent().is_empty()
    }

    /// For how long no byte came or went, in milliseconds.
    pub(crate) fn quiet(&self, now: u64) -> u64
        ensures { result ≡ now - self.now.since }
    {
        now.saturating_sub(self.since)
    }

    // Whether a whole frame came in that isn't answered, or a length that is too great, if nothing is to be sent.
    fn is_asked(&self) -> bool
        ensures { IsTrue result ↔ HoldsMore self.now.connection }
    {
        self.connection.room() < MOST_INPUT && !self.connection.is_inside_frame()
    }
}

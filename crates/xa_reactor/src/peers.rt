ghost use Rattle.std.specs.Prelude.{◌≡◌, ◌+◌, ◌++◌, [], ◌∷◌, ℕ, List, MatchBool, None, IsTrue, false, is_some, length, if◌then◌else◌, option_to_list};
ghost use Rattle.std.specs.{Option.option_map, VecDeque.deque_len};
ghost use Rattle.slab.specs.Slab.{Updates, get, slab_len};
ghost use Rattle.xa_control.specs.Answers.{IsAnswer};
ghost use Rattle.xa_reactor.specs.{Asking.IsAnswered, Opening.IsOpened, Opening.OpensAt};
ghost use Rattle.xa_reactor.specs.Peers.{GoesOn, HadTurn, HasParted, HasRoom, IsClosed, IsLast, IsNews, IsNoticed, IsTurned, turns_of};
ghost use Rattle.xa_reactor.specs.{ForAll.TendsForAll, Users.IsPassed, Users.LogsAt, Users.users_of};
ghost use Rattle.xa_reactor.specs.Believed.Tending.{nobody, sessions_of};
ghost use Rattle.xa_reactor.specs.{Since.Looks, Since.LooksAll, Timing.after_wait};
ghost use Rattle.xa_reactor.specs.declared.peer.Step.{Step};
ghost use Rattle.xa_reactor.specs.ForAll.{PeersTend, PeersTendAs};

use crate::allowance::Allowance;
use crate::ask::Ask;
use crate::clock::LoopClock;
use crate::common::{Common, Settings};
use crate::failures::Failures;
use crate::logging_in::{Passed, first_standing};
use crate::noted::tell_refused;
use crate::orders::{Orders, Wish};
use crate::peer::{Opened, Peer, Step};
use crate::place::Guest;
use crate::reception::Reception;
use crate::round::Round;
use crate::socket::{Socket, Source};
use crate::timing::is_to_end;
use mio::Token;
use mio::event::Event;
use slab::Slab;
use std::alloc::Global;
use std::collections::VecDeque;
use std::random::RandomSource;
use std::rt::Clock;
use xa_assoc::ConnectFault;
use xa_control::{Answer, Control};

/// The connections of a loop, under the keys that are their tokens.
#[derive(Drop)]
pub(crate) struct Peers {
    pub(crate) all: Slab<Peer>,
    /// The keys of those that have a turn next, in their order.
    queue: VecDeque<usize>,
    /// What they ask of the server itself.
    pub(crate) orders: Orders,
    /// How many lines may be told of what they order.
    pub(crate) allowance: Allowance,
    /// How many failed to log in lately.
    failures: Failures,
}

impl Peers {
    pub(crate) fn new(alloc: Global) -> Peers
        ensures nobody { sessions_of result.all ≡ nobody }
        ensures turns { (turns_of result ≡ []) × (result.orders ≡ (None, [])) }
    {
        Peers {
            all: Slab::new(alloc),
            queue: VecDeque::new(alloc),
            orders: Orders::new(alloc),
            allowance: Allowance::new(),
            failures: Failures::new(),
        }
    }

    pub(crate) fn len(&self) -> usize
        ensures { result ≡ slab_len self.now.all }
    {
        self.all.len()
    }

    /// How many of them have a turn next.
    pub(crate) fn queued(&self) -> usize
        ensures { result ≡ deque_len self.now.queue }
    {
        self.queue.len()
    }

    /// Serves a session on a connection, which has the role that each has at first. If there is no memory, or no session is
    /// connected, the connection is closed, and the answer is false.
    pub(crate) fn add<D: Reception, R: Clock>(
        &mut self,
        rt: &R,
        round: Round<'_>,
        clock: &mut LoopClock,
        common: &Common<'_>,
        door: &mut D,
        guest: Guest,
    ) -> bool
        ensures tends { PeersTendAs D.connected D.called D.left (users_of common.now) self.old.all door.old self.new.all door.new }
        ensures count { slab_len self.new.all ≡ (if result then slab_len self.old.all + 1 else slab_len self.old.all) }
        ensures turns { (turns_of self.new ≡ turns_of self.old) × (self.new.orders ≡ self.old.orders) }
    {
        if self.queue.reserve(1).is_err() || self.all.reserve(1).is_err() {
            return false;
        }
        let mut guest = guest;
        if !guest
            .socket
            .register(round.registry, Token(self.all.vacant_key()))
        {
            return false;
        }
        let standing = first_standing(common.users);
        let Ok(session) = connect(clock, door) else {
            return false;
        };
        // counted once it is connected: an order of before that means another connection of this session
        let serial = common.cuts.count();
        let now = clock.now(rt);
        let _key = self.all.insert_reserved(Peer::new(
            round.alloc,
            guest,
            session,
            standing,
            serial,
            now,
        ));
        true
    }

    /// An event told of a connection, which has a turn.
    pub(crate) fn notice<D: Reception>(&mut self, door: &mut D, event: &Event)
        ensures turn { IsNoticed self.old event.now self.new }
        ensures tends { PeersTend D.connected D.called D.left self.old.all door.old self.new.all door.new }
    {
        if notice_in(&mut self.all, event) {
            self.go_on(door, event.token().0, Step::Goes);
        }
    }

    /// The same while connections are lent: none ends, as there is room for the turn.
    pub(crate) fn note(&mut self, event: &Event)
        requires { HasRoom self.old 1 }
        ensures same { sessions_of self.new.all ≡ sessions_of self.old.all }
        ensures turn { IsNoticed self.old event.now self.new }
        ensures room { (turns : ℕ) → HasRoom self.old (turns + 1) → HasRoom self.new turns }
    {
        if notice_in(&mut self.all, event) {
            self.queue.push_back_reserved(event.token().0);
        }
    }

    /// Makes room for this many turns more. Whether there was memory for it.
    pub(crate) fn reserve(&mut self, turns: usize) -> bool
        ensures same { (self.new.all ≡ self.old.all) × (turns_of self.new ≡ turns_of self.old) × (self.new.orders ≡ self.old.orders) }
        ensures room { IsTrue result → HasRoom self.new turns }
    {
        self.queue.reserve(turns).is_ok()
    }

    /// The key of the next connection that has a turn.
    pub(crate) fn next(&mut self) -> Option<usize>
        ensures same { self.new.all ≡ self.old.all }
        ensures orders { self.new.orders ≡ self.old.orders }
        ensures turns { turns_of self.old ≡ option_to_list result ++ turns_of self.new }
        ensures count { deque_len self.new.queue + length (option_to_list result) ≡ deque_len self.old.queue }
    {
        self.queue.pop_front()
    }

    /// Opens the turn of a connection.
    pub(crate) fn open_turn<D: Reception, R: Clock>(
        &mut self,
        rt: &R,
        round: Round<'_>,
        clock: &mut LoopClock,
        scratch: &mut [u8],
        door: &mut D,
        key: usize,
    ) -> Opened
        ensures same { sessions_of self.new.all ≡ sessions_of self.old.all }
        ensures turns { (self.new.queue ≡ self.old.queue) × (self.new.orders ≡ self.old.orders) }
        ensures opens { OpensAt D.connected D.called D.left (sessions_of self.old.all) door.old result door.new }
        ensures opened { IsOpened self.old.all key result self.new.all }
    {
        match self.all.get_mut(key) {
            Some(peer) => peer.open_turn(rt, round, clock, door, scratch, key),
            None => Opened::Over(Step::Waits),
        }
    }

    /// Closes the turn of a connection, whose request was answered. What comes after it.
    pub(crate) fn close_turn<R: Clock + Eprint>(
        &mut self,
        rt: &R,
        round: Round<'_>,
        clock: &mut LoopClock,
        ask: Ask,
    ) -> Step
        requires { IsAnswered ask }
        ensures same { sessions_of self.new.all ≡ sessions_of self.old.all }
        ensures turns { (self.new.queue ≡ self.old.queue) × (self.new.orders ≡ self.old.orders) }
        ensures closed { IsClosed self.old.all ask.key ask.connection result self.new.all }
    {
        match self.all.get_mut(ask.key) {
            Some(peer) => peer.close_turn(rt, round, clock, &mut self.allowance, ask),
            None => Step::Waits,
        }
    }

    /// The next connection that has a turn has it.
    pub(crate) fn give_turn<D: Reception, R: Clock>(
        &mut self,
        rt: &R,
        round: Round<'_>,
        clock: &mut LoopClock,
        scratch: &mut [u8],
        door: &mut D,
    )
        ensures tends { PeersTend D.connected D.called D.left self.old.all door.old self.new.all door.new }
        ensures none { turns_of self.old ≡ [] → (self.new.all ≡ self.old.all) × (turns_of self.new ≡ []) × (door.new ≡ door.old) }
        ensures turn { (key : ℕ) (rest : List ℕ) → turns_of self.old ≡ key ∷ rest → IsTurned self.old key rest self.new }
    {
        let Some(key) = self.queue.pop_front() else {
            return;
        };
        let step = turn_in(&mut self.all, rt, round, clock, scratch, door, key);
        self.go_on(door, key, step);
    }

    /// Has a turn next, or ends, also if there is no memory for that.
    pub(crate) fn go_on<D: Reception>(&mut self, door: &mut D, key: usize, step: Step)
        ensures goes { GoesOn self.old key step self.new }
        ensures tends { PeersTend D.connected D.called D.left self.old.all door.old self.new.all door.new }
    {
        match step {
            Step::Waits => {}
            Step::Goes => {
                if self.queue.push_back(key).is_err() {
                    end_in(&mut self.all, door, key);
                }
            }
            Step::Ends => end_in(&mut self.all, door, key),
            Step::Stops => self.orders.stop(key),
            Step::Asks => {
                if !self.orders.put(Wish { key, cut: None }) {
                    end_in(&mut self.all, door, key);
                }
            }
        }
    }

    /// What the connection under this key asks of the server itself, if it waits for no order.
    pub(crate) fn control(&self, alloc: Global, key: usize) -> Option<Control> {
        self.all.get(key)?.control(alloc)
    }

    /// A part of the login of the connection under this key, if it asks for one. A failure is told of, and answered later.
    pub(crate) fn log_in<R: Eprint + RandomSource>(
        &mut self,
        rt: &R,
        common: &Common<'_>,
        alloc: Global,
        now: u64,
        key: usize,
    ) -> Passed
        ensures logs { LogsAt (users_of common.now) (sessions_of self.old.all) (sessions_of self.new.all) }
        ensures limits { IsPassed result }
    {
        let Some(peer) = self.all.get_mut(key) else {
            return Passed::Nothing;
        };
        let passed = peer.log_in(rt, alloc, common.users, &common.key);
        if matches!(passed, Passed::Fails) {
            let source = peer.source();
            peer.pause(now.saturating_add(self.failures.note(source, now)));
            tell_refused(rt, &mut self.allowance, now, source);
        }
        passed
    }

    /// When the connection under this key is answered that it failed to log in.
    pub(crate) fn pause(&self, key: usize) -> Option<u64> {
        self.all.get(key)?.pause
    }

    /// What the connection under this key asks is looked at again. Whether there was memory for that.
    pub(crate) fn put_off(&mut self, key: usize) -> bool
        ensures same { sessions_of self.new.all ≡ sessions_of self.old.all }
    {
        self.orders.put(Wish { key, cut: None })
    }

    /// The connection under this key waits for the order of this number. Whether there was memory for that.
    pub(crate) fn wait_for(&mut self, key: usize, number: u64) -> bool
        ensures same { sessions_of self.new.all ≡ sessions_of self.old.all }
    {
        wait_in(&mut self.all, key, number);
        self.orders.put(Wish {
            key,
            cut: Some(number),
        })
    }

    /// Answers what a connection asked of the server itself. What comes after that; None if it asks nothing any more.
    pub(crate) fn answer_control<R: Clock + Eprint>(
        &mut self,
        rt: &R,
        round: Round<'_>,
        clock: &mut LoopClock,
        wish: Wish,
        answer: &Answer,
    ) -> Option<Step>
        requires { IsAnswer answer.now }
        ensures same { sessions_of self.new.all ≡ sessions_of self.old.all }
        ensures turns { (self.new.queue ≡ self.old.queue) × (self.new.orders ≡ self.old.orders) }
    {
        let Wish { key, cut } = wish;
        let allowance = &mut self.allowance;
        match self.all.get_mut(key) {
            Some(peer) => peer.answer_control(rt, round, clock, allowance, key, cut, answer),
            None => None,
        }
    }

    /// Has a turn next, if there is room for that. Whether there was.
    pub(crate) fn go_on_now(&mut self, key: usize) -> bool
        ensures turn { MatchBool result (IsLast self.old key self.new) (self.new ≡ self.old) }
        ensures count { deque_len self.new.queue ≡ (if result then deque_len self.old.queue + 1 else deque_len self.old.queue) }
    {
        let has_room = self.queue.len() < self.queue.capacity();
        if has_room {
            self.queue.push_back_reserved(key);
        }
        has_room
    }

    /// Ends those that are overdue inside a frame, and those that were quiet for too long, by whether they have an association.
    pub(crate) fn end_overdue<D: Reception>(&mut self, door: &mut D, now: u64, settings: &Settings)
        ensures tends { PeersTend D.connected D.called D.left self.old.all door.old self.new.all door.new }
        ensures looks { LooksAll D.ties settings.now now self.old.all self.new.all }
        ensures turns { (self.new.queue ≡ self.old.queue) × (self.new.orders ≡ self.old.orders) }
    {
        for key in 0..self.all.capacity() {
            end_if_overdue(&mut self.all, door, key, now, settings);
        }
    }

    /// Whether one of them asked the server to end.
    pub(crate) fn is_to_stop(&self) -> bool
        ensures { result ≡ is_some self.now.orders.0 }
    {
        self.orders.stopper().is_some()
    }

    /// Where one comes from that did.
    pub(crate) fn source_of_stop(&self) -> Option<Source> {
        let peer = self.all.get(self.orders.stopper()?)?;
        Some(peer.source())
    }

    /// Hangs the session of one that asked the server to end up; its socket stays open until it is dropped.
    pub(crate) fn part_stopper<D: Reception>(&mut self, door: &mut D) -> Option<Socket>
        ensures tends { PeersTend D.connected D.called D.left self.old.all door.old self.new.all door.new }
        ensures parted { HasParted self.old result self.new }
    {
        part_in(&mut self.all, door, self.orders.stopper()?)
    }

    /// Ends all of them.
    pub(crate) fn end_all<D: Reception>(&mut self, door: &mut D)
        ensures { TendsForAll D.connected D.called D.left (sessions_of self.old.all) door.old nobody door.new }
    {
        for key in 0..self.all.capacity() {
            end_in(&mut self.all, door, key);
        }
    }
}

// Connects a session, for which it may wait.
fn connect<D: Reception>(clock: &mut LoopClock, door: &mut D) -> Result<u64, ConnectFault>
    ensures connected { D.connected door.old result door.new }
    ensures waited { clock.new ≡ after_wait clock.old }
{
    let connected = door.connect();
    clock.pass();
    connected
}

// The connection under this key waits for the order of this number.
fn wait_in(all: &mut Slab<Peer>, key: usize, number: u64)
    ensures { sessions_of all.new ≡ sessions_of all.old }
{
    if let Some(peer) = all.get_mut(key) {
        peer.wait_for(number);
    }
}

// Whether the connection that an event tells of is to be put into the queue.
fn notice_in(all: &mut Slab<Peer>, event: &Event) -> bool
    ensures same { (other : ℕ) → sessions_of all.new other ≡ sessions_of all.old other }
    ensures news { IsNews all.old event.now result all.new }
{
    match all.get_mut(event.token().0) {
        Some(peer) => peer.notice(event),
        None => false,
    }
}

fn turn_in<D: Reception, R: Clock>(
    all: &mut Slab<Peer>,
    rt: &R,
    round: Round<'_>,
    clock: &mut LoopClock,
    scratch: &mut [u8],
    door: &mut D,
    key: usize,
) -> Step
    ensures tends { PeersTend D.connected D.called D.left all.old door.old all.new door.new }
    ensures turned { HadTurn all.old key result all.new }
{
    match all.get_mut(key) {
        Some(peer) => peer.turn(rt, round, clock, door, scratch, key),
        None => Step::Waits,
    }
}

fn end_if_overdue<D: Reception>(
    all: &mut Slab<Peer>,
    door: &mut D,
    key: usize,
    now: u64,
    settings: &Settings,
)
    ensures tends { PeersTend D.connected D.called D.left all.old door.old all.new door.new }
    ensures looks { Looks (D.ties door.old) settings.now now key all.old all.new }
{
    let ends = match all.get(key) {
        Some(peer) => is_to_end(door, peer.session, peer.owes(), peer.quiet(now), settings),
        None => false,
    };
    if ends {
        end_in(all, door, key);
    }
}

// Hangs the session of the connection under this key up, if there is one, and gives its socket.
fn part_in<D: Reception>(all: &mut Slab<Peer>, door: &mut D, key: usize) -> Option<Socket>
    ensures tends { PeersTend D.connected D.called D.left all.old door.old all.new door.new }
    ensures updates { Updates all.old all.new key None }
    ensures socket { result ≡ option_map (λ p. p.socket) (get all.old key) }
{
    let peer = all.try_remove(key)?;
    door.hangup(peer.session);
    Some(peer.into_socket())
}

// Ends the connection under this key, if there is one, and hangs its session up.
pub(crate) fn end_in<D: Reception>(all: &mut Slab<Peer>, door: &mut D, key: usize)
    ensures tends { PeersTend D.connected D.called D.left all.old door.old all.new door.new }
    ensures updates { Updates all.old all.new key None }
    ensures others { (other : ℕ) → get all.old other ≡ None → get all.new other ≡ None }
    ensures slots { length all.new.slots ≡ length all.old.slots }
{
    if let Some(peer) = all.try_remove(key) {
        door.hangup(peer.session);
    }
}

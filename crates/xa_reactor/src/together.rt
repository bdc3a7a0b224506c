//! The turns of a round, with one call at the door for the requests that wait for no device, and another for the rest.
ghost use Rattle.std.specs.Prelude.{ℕ, ◌≡◌, ◌⊎◌, ◌+◌, ◌++◌, ◌<◌, ◌≤◌, List, [], ◌∷◌, All, IfSome, nat_lt};
ghost use Rattle.std.specs.{Vec.vec_capacity, Vec.vec_len, VecDeque.deque_len};
ghost use Rattle.xa_reactor.specs.Asking.{IsAnswered, IsLeft, IsLent, IsBrought, MayBeTold, PutsAll, PutsIf, TurnedAll, TurnedSome};
ghost use Rattle.xa_reactor.specs.Believed.Tending.{Table, sessions_of};
ghost use Rattle.xa_reactor.specs.ForAll.{PostsForAll};
ghost use Rattle.xa_reactor.specs.{Timing.after_wait, Together.HasLent, Together.HasRoomFor, Together.IsOver, Together.may_gather, Together.may_grow};
ghost use Rattle.xa_reactor.specs.declared.peer.Step.{Step};
ghost use Rattle.xa_reactor.specs.Together.{GoesOnAll, HasKept, HaveGone, KeepsTurns, turns_in};
ghost use Rattle.xa_reactor.specs.{Peers.IsLast, declared.peer.Step.TheVariants.Goes};
ghost use Rattle.xa_reactor.specs.ForAll.{PeersTend};

use crate::ask::Ask;
use crate::clock::LoopClock;
use crate::peer::{Opened, Step};
use crate::peers::Peers;
use crate::reception::Reception;
use crate::round::Round;
use std::alloc::Global;
use std::mem;
use std::rt::Clock;
use xa_waits::{COMPANY, MANY_TURNS, MOST_TURNS};

/// What the turns of a round came to, until all of them are over.
#[derive(Drop)]
pub(crate) struct Together {
    /// The requests that were brought in and wait for no device; once they were asked, those that have to wait for another
    /// loop's.
    quick: Vec<Ask>,
    /// Room for these, while the turns of the others are closed.
    left: Vec<Ask>,
    /// Those that may wait for one.
    waiting: Vec<Ask>,
    /// What comes after those turns that need no answer any more, by the connections' keys.
    over: Vec<(usize, Step)>,
}

impl Together {
    pub(crate) fn new(alloc: Global) -> Together
        ensures lent { (table : Table) → HasLent table result }
        ensures none { turns_in result ≡ 0 }
    {
        Together {
            quick: Vec::new(alloc),
            left: Vec::new(alloc),
            waiting: Vec::new(alloc),
            over: Vec::new(alloc),
        }
    }

    /// Begins a round with room for this many turns. Whether there was memory for it.
    pub(crate) fn begin(&mut self, turns: usize) -> bool
        ensures lent { (table : Table) → HasLent table self.new }
        ensures none { turns_in self.new ≡ 0 }
    {
        self.quick.clear();
        self.left.clear();
        self.waiting.clear();
        self.over.clear();
        self.reserve(turns)
    }

    // Makes room for this many turns more, and for what comes after all of them. Whether there was memory for it.
    fn reserve(&mut self, turns: usize) -> bool
        ensures lent { (table : Table) → HasLent table self.old → HasLent table self.new }
        ensures turns { turns_in self.new ≡ turns_in self.old }
    {
        let lent = self.quick.len() + self.waiting.len();
        self.quick.reserve(turns).is_ok()
            && self.waiting.reserve(turns).is_ok()
            && self.over.reserve(turns.saturating_add(lent)).is_ok()
    }

    /// Whether there are requests that wait for a device, or may, and the round may have more turns meanwhile.
    pub(crate) fn may_gather(&self) -> bool
        ensures { result ≡ may_gather (vec_len self.now.quick) (vec_len self.now.waiting) (vec_len self.now.over) }
    {
        (!self.quick.is_empty() || !self.waiting.is_empty()) && self.over.len() < MOST_TURNS
    }

    /// Whether there are requests among them that may have been posted.
    pub(crate) fn has_waiting(&self) -> bool
        ensures { result ≡ nat_lt 0 (vec_len self.now.waiting) }
    {
        !self.waiting.is_empty()
    }

    /// Whether more requests may come that share a sync with those that there are: some may wait for a device, some of so
    /// many connections have asked for none, and the round has had few turns.
    pub(crate) fn may_grow(&self, connections: usize) -> bool
        ensures { result ≡ may_grow (vec_len self.now.waiting) (vec_len self.now.over) connections }
    {
        !self.waiting.is_empty()
            && connections >= COMPANY
            && self.waiting.len() < connections
            && self.over.len() < MANY_TURNS
    }

    /// Opens the turns of those that have one, if there is memory for that.
    pub(crate) fn open_turns<D: Reception, R: Clock>(
        &mut self,
        rt: &R,
        peers: &mut Peers,
        round: Round<'_>,
        clock: &mut LoopClock,
        scratch: &mut [u8],
        door: &mut D,
    )
        requires { HasLent (sessions_of peers.old.all) self.old }
        ensures tends { PostsForAll D.connected D.called D.left D.posts
            (sessions_of peers.old.all) door.old (sessions_of peers.new.all) door.new }
        ensures lent { HasLent (sessions_of peers.new.all) self.new }
        ensures turns { KeepsTurns self.old peers.old self.new peers.new }
    {
        let turns = peers.queued();
        if !self.reserve(turns) {
            return;
        }
        for _ in 0..turns {
            self.open_turn(rt, peers, round, clock, scratch, door);
        }
    }

    // Opens the next turn, if there is room.
    fn open_turn<D: Reception, R: Clock>(
        &mut self,
        rt: &R,
        peers: &mut Peers,
        round: Round<'_>,
        clock: &mut LoopClock,
        scratch: &mut [u8],
        door: &mut D,
    )
        requires { HasLent (sessions_of peers.old.all) self.old }
        ensures tends { PostsForAll D.connected D.called D.left D.posts
            (sessions_of peers.old.all) door.old (sessions_of peers.new.all) door.new }
        ensures lent { HasLent (sessions_of peers.new.all) self.new }
        ensures turns { KeepsTurns self.old peers.old self.new peers.new }
    {
        let turns = self.over.len() + self.quick.len() + self.waiting.len();
        if turns == self.over.capacity()
            || self.quick.len() == self.quick.capacity()
            || self.waiting.len() == self.waiting.capacity()
        {
            return;
        }
        let Some(key) = peers.next() else {
            return;
        };
        match peers.open_turn(rt, round, clock, scratch, door, key) {
            Opened::Asks(ask) => {
                if may_wait(door, &ask) {
                    door.post(self.waiting.len(), &ask);
                    self.waiting.push_reserved(ask);
                } else {
                    self.quick.push_reserved(ask);
                }
            }
            Opened::Over(step) => go_on_or_keep(&mut self.over, peers, key, step),
        }
    }

    /// Answers the requests that wait for no device, and sends the replies. Those that have to wait for another loop's are
    /// left, and all of them if there is no memory.
    pub(crate) fn answer_quick<D: Reception, R: Clock + Eprint>(
        &mut self,
        rt: &R,
        peers: &mut Peers,
        round: Round<'_>,
        clock: &mut LoopClock,
        door: &mut D,
    )
        requires { HasLent (sessions_of peers.old.all) self.old }
        ensures tends { PeersTend D.connected D.called D.left peers.old.all door.old peers.new.all door.new }
        ensures same { sessions_of peers.new.all ≡ sessions_of peers.old.all }
        ensures lent { HasLent (sessions_of peers.new.all) self.new }
        ensures waiting { self.new.waiting ≡ self.old.waiting }
        ensures turns { KeepsTurns self.old peers.old self.new peers.new }
        ensures kept { HasKept peers.old self.old.over.items peers.new self.new.over.items }
    {
        if self.left.reserve(self.quick.len()).is_err() {
            return;
        }
        give_quick(
            rt,
            &mut self.quick,
            &mut self.left,
            &mut self.over,
            peers,
            round,
            clock,
            door,
        );
    }

    /// Answers the requests that were brought in, and closes their turns. The replies to those that wait for no device are
    /// sent before the others are answered; those that have to wait for another loop's come last. What comes after the turns
    /// comes after all: until then each session stays under its key.
    pub(crate) fn close_all<D: Reception, R: Clock + Eprint>(
        &mut self,
        rt: &R,
        peers: &mut Peers,
        round: Round<'_>,
        clock: &mut LoopClock,
        door: &mut D,
    )
        requires { HasLent (sessions_of peers.old.all) self.old }
        ensures tends { PeersTend D.connected D.called D.left peers.old.all door.old peers.new.all door.new }
        ensures over { IsOver self.new }
        ensures goes { HaveGone self.old peers.old peers.new }
        ensures settled { D.is_settled door.new }
    {
        self.answer_quick(rt, peers, round, clock, door);
        let (waiting, over) = (&mut self.waiting, &mut self.over);
        give_waiting(rt, waiting, over, peers, round, clock, door);
        give_waiting(rt, &mut self.quick, over, peers, round, clock, door);
        go_on_all(over, peers, door);
    }
}

// Whether the answer to an ask may wait for a device.
fn may_wait<D: Reception>(door: &D, ask: &Ask) -> bool
    ensures { IfSome ask.now.request (λ request. result ≡ D.waits request) }
{
    match &ask.request {
        Some(request) => door.may_wait(request),
        None => false,
    }
}

// Answers requests that wait for no device at a door, and sends the replies. What comes after their turns is put with the
// rest of that. Those that have to wait are left.
fn give_quick<D: Reception, R: Clock + Eprint>(
    rt: &R,
    asks: &mut Vec<Ask>,
    left: &mut Vec<Ask>,
    over: &mut Vec<(usize, Step)>,
    peers: &mut Peers,
    round: Round<'_>,
    clock: &mut LoopClock,
    door: &mut D,
)
    requires lent { All (IsLent (sessions_of peers.old.all)) asks.old.items }
    requires left { (left.old.items ≡ []) × (vec_len asks.old ≤ vec_capacity left.old) }
    requires room { HasRoomFor over.old asks.old }
    ensures tends { PeersTend D.connected D.called D.left peers.old.all door.old peers.new.all door.new }
    ensures same { sessions_of peers.new.all ≡ sessions_of peers.old.all }
    ensures lent { All (IsLent (sessions_of peers.new.all)) asks.new.items }
    ensures left { left.new.items ≡ [] }
    ensures turns { vec_len over.new + vec_len asks.new + deque_len peers.new.queue
        ≡ vec_len over.old + vec_len asks.old + deque_len peers.old.queue }
    ensures more { deque_len peers.old.queue ≤ deque_len peers.new.queue }
    ensures room { vec_capacity over.new ≡ vec_capacity over.old }
    ensures kept { HasKept peers.old over.old.items peers.new over.new.items }
{
    answer_quick(asks, clock, door);
    send_answered(rt, asks, left, over, peers, round, clock);
    mem::swap(asks, left);
}

// Answers all requests, also those that may wait for a device: none that was posted is left.
fn give_waiting<D: Reception, R: Clock + Eprint>(
    rt: &R,
    asks: &mut Vec<Ask>,
    over: &mut Vec<(usize, Step)>,
    peers: &mut Peers,
    round: Round<'_>,
    clock: &mut LoopClock,
    door: &mut D,
)
    requires lent { All (IsLent (sessions_of peers.old.all)) asks.old.items }
    requires room { HasRoomFor over.old asks.old }
    ensures tends { PeersTend D.connected D.called D.left peers.old.all door.old peers.new.all door.new }
    ensures same { sessions_of peers.new.all ≡ sessions_of peers.old.all }
    ensures none { asks.new.items ≡ [] }
    ensures turns { (vec_len over.new ≡ vec_len over.old + vec_len asks.old) × (peers.new.queue ≡ peers.old.queue) }
    ensures room { vec_capacity over.new ≡ vec_capacity over.old }
    ensures over { (later : List (ℕ × Step)) × (over.new.items ≡ over.old.items ++ later) }
    ensures settled { D.is_settled door.new }
{
    answer_all(asks, clock, door);
    send_all(rt, asks, over, peers, round, clock);
}

// Gives the connections of asks that were answered back, and sends their replies.
fn send_all<R: Clock + Eprint>(
    rt: &R,
    asks: &mut Vec<Ask>,
    over: &mut Vec<(usize, Step)>,
    peers: &mut Peers,
    round: Round<'_>,
    clock: &mut LoopClock,
)
    requires answered { All IsAnswered asks.old.items }
    requires room { HasRoomFor over.old asks.old }
    ensures same { sessions_of peers.new.all ≡ sessions_of peers.old.all }
    ensures none { asks.new.items ≡ [] }
    ensures turns { (vec_len over.new ≡ vec_len over.old + vec_len asks.old) × (peers.new.queue ≡ peers.old.queue) }
    ensures room { vec_capacity over.new ≡ vec_capacity over.old }
    ensures over { (later : List (ℕ × Step)) × (over.new.items ≡ over.old.items ++ later) }
{
    for ask in asks.drain(..) {
        let key = ask.key;
        let step = peers.close_turn(rt, round, clock, ask);
        over.push_reserved((key, step));
    }
}

// The same of those that were answered. The others are put with those that are left.
fn send_answered<R: Clock + Eprint>(
    rt: &R,
    asks: &mut Vec<Ask>,
    left: &mut Vec<Ask>,
    over: &mut Vec<(usize, Step)>,
    peers: &mut Peers,
    round: Round<'_>,
    clock: &mut LoopClock,
)
    requires asks { All (IsLeft (sessions_of peers.old.all)) asks.old.items }
    requires left { All (IsLent (sessions_of peers.old.all)) left.old.items }
    requires room { HasRoomFor over.old asks.old × HasRoomFor left.old asks.old }
    ensures same { sessions_of peers.new.all ≡ sessions_of peers.old.all }
    ensures none { asks.new.items ≡ [] }
    ensures lent { All (IsLent (sessions_of peers.new.all)) left.new.items }
    ensures turns { vec_len over.new + vec_len left.new + deque_len peers.new.queue
        ≡ vec_len over.old + vec_len left.old + vec_len asks.old + deque_len peers.old.queue }
    ensures more { deque_len peers.old.queue ≤ deque_len peers.new.queue }
    ensures room { vec_capacity over.new ≡ vec_capacity over.old }
    ensures kept { HasKept peers.old over.old.items peers.new over.new.items }
{
    for ask in asks.drain(..) {
        send_or_leave(rt, ask, left, over, peers, round, clock);
    }
}

// Closes the turn of an ask, if it was answered; else puts it with those that are left.
fn send_or_leave<R: Clock + Eprint>(
    rt: &R,
    ask: Ask,
    left: &mut Vec<Ask>,
    over: &mut Vec<(usize, Step)>,
    peers: &mut Peers,
    round: Round<'_>,
    clock: &mut LoopClock,
)
    requires ask { IsLeft (sessions_of peers.old.all) ask }
    requires left { All (IsLent (sessions_of peers.old.all)) left.old.items }
    requires room { (vec_len over.old < vec_capacity over.old) × (vec_len left.old < vec_capacity left.old) }
    ensures same { sessions_of peers.new.all ≡ sessions_of peers.old.all }
    ensures lent { All (IsLent (sessions_of peers.new.all)) left.new.items }
    ensures turns { vec_len over.new + vec_len left.new + deque_len peers.new.queue
        ≡ vec_len over.old + vec_len left.old + deque_len peers.old.queue + 1 }
    ensures more { (vec_len over.old ≤ vec_len over.new) × (vec_len left.old ≤ vec_len left.new)
        × (deque_len peers.old.queue ≤ deque_len peers.new.queue) }
    ensures room { (vec_capacity over.new ≡ vec_capacity over.old) × (vec_capacity left.new ≡ vec_capacity left.old) }
    ensures kept { HasKept peers.old over.old.items peers.new over.new.items }
{
    if ask.request.is_none() {
        let key = ask.key;
        let step = peers.close_turn(rt, round, clock, ask);
        go_on_or_keep(over, peers, key, step);
    } else {
        left.push_reserved(ask);
    }
}

// What comes after a turn is kept until all are over; but a turn more is had at once, if there is room for it.
fn go_on_or_keep(over: &mut Vec<(usize, Step)>, peers: &mut Peers, key: usize, step: Step)
    requires { vec_len over.old < vec_capacity over.old }
    ensures same { peers.new.all ≡ peers.old.all }
    ensures kept { ((step ≡ Goes) × IsLast peers.old key peers.new × (over.new.items ≡ over.old.items))
        ⊎ ((peers.new ≡ peers.old) × (over.new.items ≡ over.old.items ++ (key, step) ∷ [])) }
    ensures turns { vec_len over.new + deque_len peers.new.queue ≡ vec_len over.old + deque_len peers.old.queue + 1 }
    ensures more { (vec_len over.old ≤ vec_len over.new) × (deque_len peers.old.queue ≤ deque_len peers.new.queue) }
    ensures room { vec_capacity over.new ≡ vec_capacity over.old }
{
    if !(matches!(step, Step::Goes) && peers.go_on_now(key)) {
        over.push_reserved((key, step));
    }
}

// What comes after turns.
fn go_on_all<D: Reception>(over: &mut Vec<(usize, Step)>, peers: &mut Peers, door: &mut D)
    ensures goes { GoesOnAll peers.old over.old.items peers.new }
    ensures tends { PeersTend D.connected D.called D.left peers.old.all door.old peers.new.all door.new }
    ensures none { over.new.items ≡ [] }
{
    for (key, step) in over.drain(..) {
        peers.go_on(door, key, step);
    }
}

// Answers requests of which none was posted at a door, but for those that have to wait for another door, and puts the
// replies to their connections.
fn answer_quick<D: Reception>(asks: &mut [Ask], clock: &mut LoopClock, door: &mut D)
    requires { All IsBrought asks.old }
    ensures turned { TurnedSome D.called door.old asks.old asks.new door.new }
    ensures waited { clock.new ≡ after_wait clock.old }
{
    clock.pass();
    if asks.is_empty() {
        return;
    }
    door.call_quick(asks);
    put_replies(asks);
}

// Answers requests at a door, for which it may wait, and puts the replies to their connections: none that was posted is
// left.
fn answer_all<D: Reception>(asks: &mut [Ask], clock: &mut LoopClock, door: &mut D)
    requires { All IsBrought asks.old }
    ensures turned { TurnedAll D.called door.old asks.old asks.new door.new }
    ensures answered { All IsAnswered asks.new }
    ensures settled { D.is_settled door.new }
    ensures waited { clock.new ≡ after_wait clock.old }
{
    door.call_all(asks);
    clock.pass();
    put_replies(asks);
}

// Puts the replies of those asks that were answered to their connections.
fn put_replies(asks: &mut [Ask])
    requires { All MayBeTold asks.old }
    ensures { PutsAll asks.old asks.new }
{
    for ask in asks.iter_mut() {
        put_reply(ask);
    }
}

// Puts the reply of an ask to its connection, if it was answered.
fn put_reply(ask: &mut Ask)
    requires { MayBeTold ask.old }
    ensures { PutsIf ask.old ask.new }
{
    if ask.request.is_none() {
        let _answering = ask.connection.reply(ask.front, &ask.reply);
    }
}

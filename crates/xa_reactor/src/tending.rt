//! One loop.
ghost use Rattle.std.specs.Prelude.{◌≡◌, ◌≤◌, ◌&&◌, false, true, nat_le, nat_lt, length, IfOk, IsTrue, OnOk};
ghost use Rattle.mio.specs.Events.{capacity, items};
ghost use Rattle.xa_reactor.specs.Timing.{after_wait};
ghost use Rattle.xa_reactor.specs.Believed.Tending.{HasTended, TendsPosting, sessions_of};
ghost use Rattle.xa_reactor.specs.{ForAll.PostsForAll, Users.users_of};
ghost use Rattle.xa_reactor.specs.Together.{HasLent, IsOver};

use crate::acceptor::Acceptor;
use crate::attending::attend;
use crate::beside::{accept, begin, goes_on, look, stop, take_in, tell, wait_for};
use crate::clock::LoopClock;
use crate::common::Common;
use crate::noted::tell_left_out;
use crate::noticing::{note_all, notice_all};
use crate::peers::Peers;
use crate::reception::Reception;
use crate::round::Round;
use crate::socket::Socket;
use crate::ticking::keep_time;
use crate::timing::{gather_wait, looks_of};
use crate::tools::{Tools, give_each};
use crate::trimming::{begin_trims, keep_short};
use mio::{Events, Poll};
use std::io;
use std::random::RandomSource;
use std::rt::Clock;
use std::sync::Wait;
use std::thread::yield_now;
use std::time::Duration;
use xa_waits::{FEW_EVENTS, GATHERS, MORE_TURNS};

/// How many events one wait gives at most.
const MOST_EVENTS: usize = 256;

/// Serves the connections that are handed to a loop, at a door, until no more come, or all loops are stopped. The first
/// loop that begins accepts them. Whether nothing failed, else all loops are stopped; and the connection that asked the
/// server to end, if one of them did.
pub(crate) fn tend<D: Reception, R: AllocGlobal + Clock + Eprint + RandomSource + Wait>(
    rt: &R,
    common: &Common<'_>,
    index: usize,
    poll: Poll,
    door: &mut D,
) -> (bool, Option<Socket>)
    ensures { HasTended D.posts (users_of common.now) D.connected D.called D.left D.is_settled door.old door.new }
{
    let mut peers = Peers::new(rt.alloc());
    let is_whole = run(rt, common, index, poll, &mut peers, door).is_ok();
    if !is_whole {
        common.stop();
    }
    common.leave(peers.len() as u64);
    tell_left_out(rt, peers.allowance.left_out());
    let stopper = peers.part_stopper(door);
    peers.end_all(door);
    // no other loop waits for this one
    common.look(index, u64::MAX);
    (is_whole, stopper)
}

// Rounds one after another.
fn run<D: Reception, R: AllocGlobal + Clock + Eprint + RandomSource + Wait>(
    rt: &R,
    common: &Common<'_>,
    index: usize,
    poll: Poll,
    peers: &mut Peers,
    door: &mut D,
) -> io::Result<()>
    ensures tends { TendsPosting D.posts (users_of common.now) D.connected D.called D.left
        (sessions_of peers.old.all) door.old (sessions_of peers.new.all) door.new }
    ensures settled { D.is_settled door.old → D.is_settled door.new }
{
    begin_trims(rt, common, door);
    let mut this = Loop::new(rt, common, index, poll)?;
    for _ in rt.forever() {
        if !this.serve_round(rt, common, peers, door)? {
            return Ok(());
        }
    }
    unreachable!()
}

/// What a loop has beside its connections.
#[derive(Drop)]
struct Loop {
    index: usize,
    poll: Poll,
    events: Events,
    tools: Tools,
    clock: LoopClock,
    /// Where it is the one that accepts.
    acceptor: Option<Acceptor>,
    /// Whether the last wait gave events, and few.
    had_few: bool,
    /// After how many groups the requests of a round have their replies that were posted first.
    due: u64,
    /// When the manager is to be told the time next, by the loop's clock: at first at once.
    tick: u64,
}

impl Loop {
    fn new<R: AllocGlobal + Clock + Wait>(
        rt: &R,
        common: &Common<'_>,
        index: usize,
        poll: Poll,
    ) -> io::Result<Loop>
        ensures { IfOk result (λ this. (this.tick ≡ 0) × (this.index ≡ index) × (this.had_few ≡ false)) }
    {
        let acceptor = begin(rt, common, index, &poll)?;
        Ok(Loop {
            index,
            poll,
            events: Events::with_capacity(rt.alloc(), MOST_EVENTS)?,
            tools: Tools::new(rt.alloc())?,
            clock: LoopClock::new(rt)?,
            acceptor,
            had_few: false,
            due: 0,
            tick: 0,
        })
    }

    // Waits for events; then each connection that has a turn has it; then connections are accepted, and those that were
    // handed to the loop taken in. Whether it goes on.
    fn serve_round<D: Reception, R: AllocGlobal + Clock + Eprint + RandomSource + Wait>(
        &mut self,
        rt: &R,
        common: &Common<'_>,
        peers: &mut Peers,
        door: &mut D,
    ) -> io::Result<bool>
        ensures tends { TendsPosting D.posts (users_of common.now) D.connected D.called D.left
            (sessions_of peers.old.all) door.old (sessions_of peers.new.all) door.new }
        ensures settled { D.is_settled door.old → D.is_settled door.new }
    {
        self.wait(rt, common, peers)?;
        self.clock.read(rt)?;
        let woke = self.clock.now(rt);
        let is_look = self.is_look();
        let before = peers.len();
        let noticed = notice_all(peers, door, &self.events);
        self.tick = keep_time(rt, common, door, woke, self.tick);
        self.clock.pass();
        let gathered = self.give_turns(rt, common, peers, door);
        // what came in while turns were given isn't read yet: nobody is overdue by that time
        look(common, woke, peers, door, is_look);
        let round = Round::new(&self.poll, rt.alloc());
        attend(rt, common, self.index, round, &mut self.clock, peers, door);
        common.leave(before.saturating_sub(peers.len()) as u64);
        let accepts = noticed || gathered;
        let now = self.clock.now(rt);
        accept(rt, common, &mut self.acceptor, accepts, now);
        // read before what was handed is taken: what is handed later is no more
        let is_over = common.is_over();
        let round = Round::new(&self.poll, rt.alloc());
        take_in(rt, common, self.index, round, &mut self.clock, peers, door);
        tell(rt, common);
        stop(rt, common, peers, door, now);
        Ok(goes_on(common, is_over, peers))
    }

    // Whether a look for connections that are overdue is due, and the last wait gave all events that there were: what came in
    // on a connection is read before it is looked at.
    fn is_look(&mut self) -> bool
        ensures look { result ≡ (nat_lt (length (items self.old.events)) 256 && nat_le self.old.clock.looks self.old.clock.now) }
        ensures same { self.new ≡ record self.old { clock = self.new.clock } }
    {
        self.events.iter().len() < MOST_EVENTS && self.clock.is_look()
    }

    // The turns of those that have one: together, if there is memory for that, else one by one. After them the log is
    // trimmed, if that is due. Whether a connection waits to be accepted.
    fn give_turns<D: Reception, R: AllocGlobal + Clock + Eprint + Wait>(
        &mut self,
        rt: &R,
        common: &Common<'_>,
        peers: &mut Peers,
        door: &mut D,
    ) -> bool
        ensures tends { PostsForAll D.connected D.called D.left D.posts
            (sessions_of peers.old.all) door.old (sessions_of peers.new.all) door.new }
        ensures settled { D.is_settled door.old → D.is_settled door.new }
    {
        let turns = peers.queued();
        if turns > 0 && self.tools.together.begin(turns) {
            return self.give_together(rt, common, peers, door);
        }
        let round = Round::new(&self.poll, rt.alloc());
        let (clock, tools) = (&mut self.clock, &mut self.tools);
        give_each(rt, common, round, clock, tools, peers, door, turns);
        false
    }

    // The turns of those that have one, of those that have one while another loop holds up the answers, and of those that
    // come before the device is waited for. By then another loop may have gone there, and holds up the answers again.
    fn give_together<D: Reception, R: AllocGlobal + Clock + Eprint + Wait>(
        &mut self,
        rt: &R,
        common: &Common<'_>,
        peers: &mut Peers,
        door: &mut D,
    ) -> bool
        requires { HasLent (sessions_of peers.old.all) self.old.tools.together }
        ensures tends { PostsForAll D.connected D.called D.left D.posts
            (sessions_of peers.old.all) door.old (sessions_of peers.new.all) door.new }
        ensures over { IsOver self.new.tools.together }
        ensures settled { D.is_settled door.new }
        ensures waited { self.new.clock.is_past ≡ true }
    {
        self.due = door.due();
        self.open_turns(rt, peers, door);
        self.answer_quick(rt, peers, door);
        let gathered = self.gather(rt, peers, door);
        let lingered = self.linger(rt, peers, door);
        let given = self.give_more(rt, peers, door);
        let more = self.gather(rt, peers, door);
        let round = Round::new(&self.poll, rt.alloc());
        self.tools
            .together
            .close_all(rt, peers, round, &mut self.clock, door);
        keep_short(rt, common, door, &mut self.clock, &mut self.tools.seen);
        gathered | lingered | given | more
    }

    // Opens the turns of those that have one.
    fn open_turns<D: Reception, R: AllocGlobal + Clock>(
        &mut self,
        rt: &R,
        peers: &mut Peers,
        door: &mut D,
    )
        requires { HasLent (sessions_of peers.old.all) self.old.tools.together }
        ensures tends { PostsForAll D.connected D.called D.left D.posts
            (sessions_of peers.old.all) door.old (sessions_of peers.new.all) door.new }
        ensures lent { HasLent (sessions_of peers.new.all) self.new.tools.together }
    {
        let round = Round::new(&self.poll, rt.alloc());
        let scratch = &mut self.tools.scratch;
        self.tools
            .together
            .open_turns(rt, peers, round, &mut self.clock, scratch, door);
    }

    // Answers the requests that wait for no device.
    fn answer_quick<D: Reception, R: AllocGlobal + Clock + Eprint>(
        &mut self,
        rt: &R,
        peers: &mut Peers,
        door: &mut D,
    )
        requires { HasLent (sessions_of peers.old.all) self.old.tools.together }
        ensures tends { PostsForAll D.connected D.called D.left D.posts
            (sessions_of peers.old.all) door.old (sessions_of peers.new.all) door.new }
        ensures lent { HasLent (sessions_of peers.new.all) self.new.tools.together }
        ensures events { self.new.events ≡ self.old.events }
    {
        let round = Round::new(&self.poll, rt.alloc());
        self.tools
            .together
            .answer_quick(rt, peers, round, &mut self.clock, door);
    }

    // While requests wait for a device at which another loop is, answers those that don't, and opens the turns of those that
    // have one by then: what they ask of the device is answered with the rest. Whether a connection waits to be accepted.
    fn gather<D: Reception, R: AllocGlobal + Clock + Eprint>(
        &mut self,
        rt: &R,
        peers: &mut Peers,
        door: &mut D,
    ) -> bool
        requires { HasLent (sessions_of peers.old.all) self.old.tools.together }
        ensures tends { PostsForAll D.connected D.called D.left D.posts
            (sessions_of peers.old.all) door.old (sessions_of peers.new.all) door.new }
        ensures lent { HasLent (sessions_of peers.new.all) self.new.tools.together }
    {
        let mut accepts = false;
        for looks in 0..GATHERS {
            if !self.is_held_up(door) {
                return accepts;
            }
            let Ok(told) = self.linger_once(rt, peers, door, gather_wait(looks)) else {
                // the next wait fails too
                return accepts;
            };
            accepts |= told;
        }
        accepts
    }

    // Whether there are requests that may wait for the device, another loop is at it, and none that was posted can have been
    // answered yet; unless the round had too many turns. Those that weren't posted are asked again meanwhile.
    fn is_held_up<D: Reception>(&self, door: &D) -> bool {
        let together = &self.tools.together;
        together.may_gather()
            && !door.is_free()
            && !(together.has_waiting() && door.is_due(self.due))
    }

    // While requests are to be answered that may wait for a device, answers those that don't, and opens the turns of those
    // that have one by then: what they ask shares the device's sync. Whether a connection waits to be accepted.
    fn linger<D: Reception, R: AllocGlobal + Clock + Eprint>(
        &mut self,
        rt: &R,
        peers: &mut Peers,
        door: &mut D,
    ) -> bool
        requires { HasLent (sessions_of peers.old.all) self.old.tools.together }
        ensures tends { PostsForAll D.connected D.called D.left D.posts
            (sessions_of peers.old.all) door.old (sessions_of peers.new.all) door.new }
        ensures lent { HasLent (sessions_of peers.new.all) self.new.tools.together }
    {
        if !self.tools.together.may_grow(peers.len()) {
            return false;
        }
        let looks = self.tools.patience.looks();
        if looks == 0 {
            return false;
        }
        let (accepts, came) = self.look_on(rt, peers, door, looks);
        self.tools.patience.learn(came);
        accepts
    }

    // While requests are to be answered that may wait for a device, gives further turns to those that have more to do, but not
    // too often: what they ask needn't wait for the device. Whether a connection waits to be accepted.
    fn give_more<D: Reception, R: AllocGlobal + Clock + Eprint>(
        &mut self,
        rt: &R,
        peers: &mut Peers,
        door: &mut D,
    ) -> bool
        requires { HasLent (sessions_of peers.old.all) self.old.tools.together }
        ensures tends { PostsForAll D.connected D.called D.left D.posts
            (sessions_of peers.old.all) door.old (sessions_of peers.new.all) door.new }
        ensures lent { HasLent (sessions_of peers.new.all) self.new.tools.together }
    {
        let mut accepts = false;
        for _ in 0..MORE_TURNS {
            if peers.queued() == 0 || !self.tools.together.has_waiting() {
                return accepts;
            }
            let Ok(told) = self.linger_once(rt, peers, door, Duration::ZERO) else {
                // the next wait fails too
                return accepts;
            };
            accepts |= told;
        }
        accepts
    }

    // Looks for more requests so often. Whether a connection waits to be accepted, and whether there were events.
    fn look_on<D: Reception, R: AllocGlobal + Clock + Eprint>(
        &mut self,
        rt: &R,
        peers: &mut Peers,
        door: &mut D,
        looks: u32,
    ) -> (bool, bool)
        requires { HasLent (sessions_of peers.old.all) self.old.tools.together }
        ensures tends { PostsForAll D.connected D.called D.left D.posts
            (sessions_of peers.old.all) door.old (sessions_of peers.new.all) door.new }
        ensures lent { HasLent (sessions_of peers.new.all) self.new.tools.together }
    {
        let mut accepts = false;
        let mut came = false;
        for _ in 0..looks {
            if !self.tools.together.may_grow(peers.len()) {
                return (accepts, came);
            }
            let Ok(told) = self.linger_once(rt, peers, door, Duration::ZERO) else {
                // the next wait fails too
                return (accepts, came);
            };
            accepts |= told;
            came |= !self.events.is_empty();
        }
        (accepts, came)
    }

    // Looks for events once, for so long, if there is room for the turns that they make, and opens all that there are; and
    // answers the requests that wait for no device. Where there is a turn to open it waits for no event.
    fn linger_once<D: Reception, R: AllocGlobal + Clock + Eprint>(
        &mut self,
        rt: &R,
        peers: &mut Peers,
        door: &mut D,
        wait: Duration,
    ) -> io::Result<bool>
        requires { HasLent (sessions_of peers.old.all) self.old.tools.together }
        ensures tends { PostsForAll D.connected D.called D.left D.posts
            (sessions_of peers.old.all) door.old (sessions_of peers.new.all) door.new }
        ensures lent { HasLent (sessions_of peers.new.all) self.new.tools.together }
    {
        if !peers.reserve(self.events.capacity()) {
            return Ok(false);
        }
        let has_turn = peers.queued() > 0;
        let wait = if has_turn { Duration::ZERO } else { wait };
        look_for(
            &mut self.poll,
            &mut self.events,
            &mut self.clock,
            Some(wait),
        )?;
        if self.events.is_empty() && !has_turn {
            yield_now();
        }
        let accepts = note_all(peers, &self.events);
        self.open_turns(rt, peers, door);
        self.answer_quick(rt, peers, door);
        Ok(accepts)
    }

    // Waits for events, so long as there is nothing else to do.
    fn wait<R: Clock>(&mut self, rt: &R, common: &Common<'_>, peers: &Peers) -> io::Result<()>
        ensures { OnOk result (self.new.clock.is_past ≡ true) }
    {
        let now = self.clock.now(rt);
        let wait = wait_for(common, peers, &self.acceptor, now);
        let has_some = wait != Some(0) && self.had_few && self.look(looks_of(peers.len()))?;
        if !has_some {
            let wait = wait.map(Duration::from_millis);
            look_for(&mut self.poll, &mut self.events, &mut self.clock, wait)?;
        }
        let events = self.events.iter().len();
        self.had_few = 0 < events && events <= FEW_EVENTS;
        Ok(())
    }

    // Looks for events some times, and lets others run in between: whoever was answered may ask again sooner than a thread
    // that sleeps is woken. Whether there are some. Where none come the loop sleeps, and looks no more until it had some.
    fn look(&mut self, looks: usize) -> io::Result<bool>
        ensures { IfOk result (λ some. IsTrue some → self.new.clock.is_past ≡ true) }
    {
        for _ in 0..looks {
            let wait = Some(Duration::ZERO);
            look_for(&mut self.poll, &mut self.events, &mut self.clock, wait)?;
            if !self.events.is_empty() {
                return Ok(true);
            }
            yield_now();
        }
        Ok(false)
    }
}

// Looks for events once, for so long, or until one comes.
fn look_for(
    poll: &mut Poll,
    events: &mut Events,
    clock: &mut LoopClock,
    wait: Option<Duration>,
) -> io::Result<()>
    ensures count { length (items events.new) ≤ capacity events.old }
    ensures waited { clock.new ≡ after_wait clock.old }
{
    clock.pass();
    poll.poll(events, wait)
}

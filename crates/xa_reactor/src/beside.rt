//! What a loop does between its rounds.
ghost use Rattle.std.specs.Prelude.{◌≡◌, IfOk, IfSome, IsTrue, None, false, true};
ghost use Rattle.slab.specs.Slab.{slab_len};
ghost use Rattle.xa_reactor.specs.Accepting.{IsWait, KeepsFew, most_of};
ghost use Rattle.xa_reactor.specs.{Aside.IsAside, Since.LooksAll, Users.users_of};
ghost use Rattle.xa_reactor.specs.declared.trimming.TheConstants.{TRIM};
ghost use Rattle.xa_reactor.specs.ForAll.{PeersTend, PeersTendAs};

use crate::acceptor::Acceptor;
use crate::clock::LoopClock;
use crate::common::Common;
use crate::noticing::LISTENER;
use crate::peers::Peers;
use crate::reception::Reception;
use crate::round::Round;
use crate::timing::wait_of;
use crate::trimming::trim_last;
use mio::Poll;
use std::io;
use std::rt::Clock;
use std::sync::Wait;

/// The listener, if the loop is to accept.
pub(crate) fn begin<R: Wait>(
    rt: &R,
    common: &Common<'_>,
    index: usize,
    poll: &Poll,
) -> io::Result<Option<Acceptor>>
    ensures { IfOk result (λ one. IfSome one (λ a. (a.most ≡ most_of common.now.settings.connections) × (a.accepted ≡ 0))) }
{
    let Some(mut listener) = common.begin(rt, index) else {
        return Ok(None);
    };
    listener.register(poll.registry(), LISTENER)?;
    Ok(Some(Acceptor::new(listener, common.settings.connections)))
}

/// For how long to wait for events, in milliseconds, None until one comes.
pub(crate) fn wait_for(
    common: &Common<'_>,
    peers: &Peers,
    acceptor: &Option<Acceptor>,
    now: u64,
) -> Option<u64>
    ensures { IsWait peers.now acceptor.now now result }
{
    let (waits, pauses) = match acceptor {
        Some(acceptor) => (acceptor.waits(), acceptor.is_pausing(common, now)),
        None => (false, false),
    };
    wait_of(
        peers.queued() > 0 || waits && !pauses,
        pauses || peers.orders.len() > 0,
        peers.len() > 0,
    )
}

/// Ends those that are overdue at that time, if a look is due. By then what had come in must be read.
pub(crate) fn look<D: Reception>(
    common: &Common<'_>,
    now: u64,
    peers: &mut Peers,
    door: &mut D,
    is_look: bool,
)
    ensures tends { PeersTend D.connected D.called D.left peers.old.all door.old peers.new.all door.new }
    ensures looks { is_look ≡ true → LooksAll D.ties common.now.settings now peers.old.all peers.new.all }
    ensures none { is_look ≡ false → peers.new ≡ peers.old }
{
    if is_look {
        peers.end_overdue(door, now, &common.settings);
    }
}

/// Accepts connections, if the loop is to; `accepts` if an event told of some.
pub(crate) fn accept<R: Eprint + Wait>(
    rt: &R,
    common: &Common<'_>,
    acceptor: &mut Option<Acceptor>,
    accepts: bool,
    now: u64,
)
    ensures { KeepsFew acceptor.old acceptor.new }
{
    if let Some(acceptor) = acceptor {
        if accepts {
            acceptor.notice();
        }
        acceptor.accept_all(rt, common, now);
        acceptor.tell(rt, now);
    }
}

/// Takes in the connections that were handed to the loop.
pub(crate) fn take_in<D: Reception, R: Clock + Wait>(
    rt: &R,
    common: &Common<'_>,
    index: usize,
    round: Round<'_>,
    clock: &mut LoopClock,
    peers: &mut Peers,
    door: &mut D,
)
    ensures { PeersTendAs D.connected D.called D.left (users_of common.now) peers.old.all door.old peers.new.all door.new }
{
    for _ in 0..u32::MAX {
        let Some(guest) = common.take(rt, index) else {
            return;
        };
        if !peers.add(rt, round, clock, common, door, guest) {
            common.leave(1);
        }
    }
}

/// Tells that the manager went down, and why, if that is news, and ends all loops, if that is asked, unless a Restart
/// helped since.
pub(crate) fn tell<R: Eprint>(rt: &R, common: &Common<'_>) {
    let Some(cause) = common.watch.news() else {
        return;
    };
    let _ = eprintln!(rt; "xarm: manager down until a Restart or a restart of the server: {cause}");
    if common.settings.ends_when_down && common.watch.is_down() {
        common.watch.end();
        common.stop();
    }
}

/// Stops all loops, if a connection asked the server to end: no more is taken in of any, and what was asked is answered
/// by then. The log is trimmed, if that is quick.
pub(crate) fn stop<D: Reception, R: AllocGlobal + Clock + Eprint + Wait>(
    rt: &R,
    common: &Common<'_>,
    peers: &Peers,
    door: &mut D,
    now: u64,
)
    ensures aside { IsAside D.connected D.called D.left TRIM door.old door.new }
    ensures none { peers.now.orders.0 ≡ None → door.new ≡ door.old }
{
    if peers.is_to_stop() {
        common.stop();
        tell_stop(rt, peers);
        trim_last(rt, common, door, now);
    }
}

// Tells that the server ends, and from where that was asked.
fn tell_stop<R: Eprint>(rt: &R, peers: &Peers) {
    if let Some(source) = peers.source_of_stop() {
        let _ = eprintln!(rt; "xarm: {source}: shutdown");
    }
    let _ = eprintln!(rt; "xarm: shutdown");
}

/// Whether there is another round.
pub(crate) fn goes_on(common: &Common<'_>, is_over: bool, peers: &Peers) -> bool
    ensures { IsTrue is_over → slab_len peers.now.all ≡ 0 → result ≡ false }
{
    !common.is_stopped() && !(is_over && peers.len() == 0)
}

//! What events tell of the connections of a loop.
ghost use Rattle.std.specs.Prelude.{◌≡◌, length};
ghost use Rattle.mio.specs.Events.{items};
ghost use Rattle.xa_reactor.specs.{Believed.Tending.sessions_of};
ghost use Rattle.xa_reactor.specs.Peers.{HasRoom, NoticesAll, tells_of};
ghost use Rattle.xa_reactor.specs.declared.noticing.TheConstants.{LISTENER};
ghost use Rattle.xa_reactor.specs.ForAll.{PeersTend};

use crate::peers::Peers;
use crate::reception::Reception;
use mio::{Events, Token};

/// The tokens of the listener and of what wakes the loop. A connection's is its key, and none has these.
pub(crate) const LISTENER: Token = Token(usize::MAX);

pub(crate) const WAKER: Token = Token(usize::MAX - 1);

/// Whether a connection waits to be accepted. The others that events tell of have a turn, or end if there is no memory
/// for that.
pub(crate) fn notice_all<D: Reception>(peers: &mut Peers, door: &mut D, events: &Events) -> bool
    ensures accepts { result ≡ tells_of LISTENER (items events.now) }
    ensures noticed { NoticesAll peers.old (items events.now) peers.new }
    ensures tends { PeersTend D.connected D.called D.left peers.old.all door.old peers.new.all door.new }
{
    let mut accepts = false;
    for event in events.iter() {
        accepts |= event.token() == LISTENER;
        peers.notice(door, event);
    }
    accepts
}

/// The same while connections are lent: none ends, as there is room for their turns.
pub(crate) fn note_all(peers: &mut Peers, events: &Events) -> bool
    requires { HasRoom peers.old (length (items events.now)) }
    ensures accepts { result ≡ tells_of LISTENER (items events.now) }
    ensures noticed { NoticesAll peers.old (items events.now) peers.new }
    ensures same { sessions_of peers.new.all ≡ sessions_of peers.old.all }
{
    let mut accepts = false;
    for event in events.iter() {
        accepts |= event.token() == LISTENER;
        peers.note(event);
    }
    accepts
}

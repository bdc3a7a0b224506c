//! What an order to end a connection does to those of a loop.
ghost use Rattle.std.specs.Prelude.{◌≡◌, ◌≢◌, ◌↔◌, ℕ, IsTrue, length};
ghost use Rattle.slab.specs.Slab.{get};
ghost use Rattle.xa_reactor.specs.Cuts.{HasCut, Means, left_by};
ghost use Rattle.xa_reactor.specs.ForAll.{PeersTend};

use crate::cuts::Cut;
use crate::peer::Peer;
use crate::peers::{Peers, end_in};
use crate::reception::Reception;
use slab::Slab;

/// Ends the connections that an order means, and hangs their sessions up. Whether it means one.
pub(crate) fn cut_peers<D: Reception>(peers: &mut Peers, door: &mut D, cut: Cut) -> bool
    ensures tends { PeersTend D.connected D.called D.left peers.old.all door.old peers.new.all door.new }
    ensures cut { HasCut cut peers.old.all peers.new.all }
    ensures turns { (peers.new.queue ≡ peers.old.queue) × (peers.new.orders ≡ peers.old.orders) }
{
    let mut ends = false;
    for key in 0..peers.all.capacity() {
        ends |= cut_one(&mut peers.all, door, key, &cut);
    }
    ends
}

// Ends the connection under this key, if the order means it. Whether it does.
fn cut_one<D: Reception>(all: &mut Slab<Peer>, door: &mut D, key: usize, cut: &Cut) -> bool
    ensures tends { PeersTend D.connected D.called D.left all.old door.old all.new door.new }
    ensures left { get all.new key ≡ left_by cut.now (get all.old key) }
    ensures others { (other : ℕ) → other ≢ key → get all.new other ≡ get all.old other }
    ensures slots { length all.new.slots ≡ length all.old.slots }
    ensures means { IsTrue result ↔ Means cut.now (get all.old key) }
{
    let means = match all.get(key) {
        Some(peer) => cut.means(peer),
        None => false,
    };
    if means {
        end_in(all, door, key);
    }
    means
}

ghost use Rattle.std.specs.Prelude.{◌≡◌, ◌<◌, IfSome, length};
ghost use Rattle.xa_reactor.specs.Cuts.{is_meant};

use crate::peer::Peer;
use std::alloc::{AllocError, Global};
use std::sync::atomic::{AtomicU64, Ordering};
use std::sync::{Mutex, Wait};

/// An order to end the connection of a session. Numbers of sessions are reused, so it means none that was counted later.
#[derive(Clone, Copy, Debug, PartialEq, Eq)]
pub(crate) struct Cut {
    /// Which order it is, in the order in which they came.
    pub(crate) number: u64,
    pub(crate) session: u64,
    /// How many connections had been counted when it came.
    pub(crate) counted: u64,
    /// Whether a connection was ended.
    pub(crate) has_ended: bool,
}

impl Cut {
    /// Whether it means this connection.
    pub(crate) fn means(&self, peer: &Peer) -> bool
        ensures { result ≡ is_meant self.now peer.now }
    {
        peer.session == self.session && peer.serial < self.counted
    }
}

/// The orders to end connections that aren't answered yet, of which each loop learns.
#[derive(Drop)]
pub(crate) struct Cuts {
    /// How many connections were counted.
    counted: AtomicU64,
    /// How many orders came.
    given: AtomicU64,
    list: Mutex<Vec<Cut>>,
}

impl Cuts {
    pub(crate) fn new(alloc: Global) -> Cuts {
        Cuts {
            counted: AtomicU64::new(0),
            given: AtomicU64::new(0),
            list: Mutex::new(Vec::new(alloc)),
        }
    }

    /// Counts a connection: how many were before.
    pub(crate) fn count(&self) -> u64 {
        self.counted.fetch_add(1, Ordering::SeqCst)
    }

    /// How many orders came.
    pub(crate) fn given(&self) -> u64 {
        self.given.load(Ordering::SeqCst)
    }

    /// Gives an order; its number.
    pub(crate) fn give<R: Wait>(&self, rt: &R, session: u64) -> Result<u64, AllocError> {
        let mut list = self.list.lock(rt);
        list.reserve(1)?;
        let number = self.given.fetch_add(1, Ordering::SeqCst);
        list.push_reserved(Cut {
            number,
            session,
            counted: self.counted.load(Ordering::SeqCst),
            has_ended: false,
        });
        Ok(number)
    }

    /// The first order that isn't before this number.
    pub(crate) fn next<R: Wait>(&self, rt: &R, from: u64) -> Option<Cut> {
        let list = self.list.lock(rt);
        for cut in list.iter() {
            if cut.number >= from {
                return Some(*cut);
            }
        }
        None
    }

    /// A connection was ended by the order of this number.
    pub(crate) fn end<R: Wait>(&self, rt: &R, number: u64) {
        let mut list = self.list.lock(rt);
        for cut in list.iter_mut() {
            if cut.number == number {
                cut.has_ended = true;
            }
        }
    }

    /// Lets the order of this number go; whether a connection was ended by it.
    pub(crate) fn take<R: Wait>(&self, rt: &R, number: u64) -> bool {
        let mut list = self.list.lock(rt);
        let Some(index) = place_of(list.as_slice(), number) else {
            return false;
        };
        list.remove(index).has_ended
    }
}

// Where the order of this number is.
fn place_of(list: &[Cut], number: u64) -> Option<usize>
    ensures { IfSome result (λ place. place < length list.now) }
{
    for index in 0..list.len() {
        if list[index].number == number {
            return Some(index);
        }
    }
    None
}

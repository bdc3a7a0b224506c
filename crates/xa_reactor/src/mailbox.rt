use crate::place::Guest;
use mio::Waker;
use std::alloc::Global;
use std::collections::VecDeque;
use std::sync::atomic::{AtomicBool, AtomicU64, Ordering};
use std::sync::{Mutex, Wait};

/// The connections that were handed to a loop and that it hasn't yet taken.
#[derive(Drop)]
pub(crate) struct Mailbox {
    waker: Waker,
    guests: Mutex<VecDeque<Guest>>,
    /// Whether the loop has begun: one for which there is no thread may never.
    has_begun: AtomicBool,
    /// How many orders to end a connection the loop has looked at.
    looked: AtomicU64,
}

impl Mailbox {
    pub(crate) fn new(alloc: Global, waker: Waker) -> Mailbox {
        Mailbox {
            waker,
            guests: Mutex::new(VecDeque::new(alloc)),
            has_begun: AtomicBool::new(false),
            looked: AtomicU64::new(0),
        }
    }

    pub(crate) fn begin(&self) {
        self.has_begun.store(true, Ordering::SeqCst);
    }

    pub(crate) fn has_begun(&self) -> bool {
        self.has_begun.load(Ordering::SeqCst)
    }

    pub(crate) fn looked(&self) -> u64 {
        self.looked.load(Ordering::SeqCst)
    }

    pub(crate) fn look(&self, count: u64) {
        self.looked.store(count, Ordering::SeqCst);
    }

    /// Hands a connection to the loop. Whether there was memory for that; else it is closed.
    pub(crate) fn put<R: Wait>(&self, rt: &R, guest: Guest) -> bool {
        let is_put = self.guests.lock(rt).push_back(guest).is_ok();
        self.wake();
        is_put
    }

    pub(crate) fn take<R: Wait>(&self, rt: &R) -> Option<Guest> {
        self.guests.lock(rt).pop_front()
    }

    /// Ends a wait of the loop.
    pub(crate) fn wake(&self) {
        let _ = self.waker.wake();
    }
}

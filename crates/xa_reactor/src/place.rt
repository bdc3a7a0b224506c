use crate::socket::Socket;
use std::alloc::{AllocError, Global};
use std::sync::Arc;
use std::sync::atomic::{AtomicU64, Ordering};

/// How many connections have a place among those that haven't logged in yet.
#[derive(Drop)]
pub(crate) struct Strangers {
    count: Arc<AtomicU64>,
}

impl Strangers {
    /// None.
    pub(crate) fn new(alloc: Global) -> Result<Strangers, AllocError> {
        Ok(Strangers {
            count: Arc::new(alloc, AtomicU64::new(0))?,
        })
    }

    pub(crate) fn count(&self) -> u64 {
        self.count.load(Ordering::SeqCst)
    }

    /// One more has a place. None if more share the count than can be.
    pub(crate) fn take_place(&self) -> Option<Place> {
        let count = self.count.clone().ok()?;
        count.fetch_add(1, Ordering::SeqCst);
        Some(Place { count })
    }
}

/// A connection's place among those that haven't logged in yet. It is free again once this is dropped.
pub(crate) struct Place {
    count: Arc<AtomicU64>,
}

impl Drop for Place {
    fn drop(self) {
        self.count.fetch_sub(1, Ordering::SeqCst);
        let Place { count } = self;
        drop(count);
    }
}

/// A connection that was taken up, with its place, if it has to log in.
#[derive(Drop)]
pub(crate) struct Guest {
    pub(crate) socket: Socket,
    pub(crate) place: Option<Place>,
}

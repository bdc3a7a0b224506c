//! What a loop keeps of what it was told: nothing, as people run it, or a receipt of each event.
use xa_assoc::ConnectFault;
use xa_frame::{Reply, Request};

/// Is told of what a loop asks and is answered.
pub(crate) trait Keeps: Drop {
    /// One for another loop, which keeps nothing yet.
    fn another(&self) -> Self;

    /// A call of a session is about to take the lock, or to be posted. Told again before it was answered, it does nothing.
    fn enter(&self, session: u64);

    /// A copy of the request that is to be asked, if it keeps one.
    fn copied(&self, request: &Request) -> Option<Request>;

    /// A call of a session was answered. The request is what it copied, or the one that was asked.
    fn keep_call(&mut self, session: u64, request: Option<Request>, reply: &Reply);

    /// The lock is released since a call of the session was answered, if one was.
    fn leave(&self, session: u64);

    /// A session was connected, or wasn't, as the event with this place, if it is one.
    fn keep_connect(&mut self, session: Result<u64, ConnectFault>, place: u64);

    /// A session that was connected was hung up, as the event with this place.
    fn keep_hangup(&mut self, session: u64, place: u64);

    /// What both have kept.
    fn join(self, other: Self) -> Self;
}

/// Keeps nothing.
#[derive(Clone, Copy, Debug, Drop)]
pub(crate) struct Nothing;

impl Keeps for Nothing {
    fn another(&self) -> Nothing {
        Nothing
    }

    fn enter(&self, _session: u64) {}

    fn copied(&self, _request: &Request) -> Option<Request> {
        None
    }

    fn keep_call(&mut self, _session: u64, _request: Option<Request>, _reply: &Reply) {}

    fn leave(&self, _session: u64) {}

    fn keep_connect(&mut self, _session: Result<u64, ConnectFault>, _place: u64) {}

    fn keep_hangup(&mut self, _session: u64, _place: u64) {}

    fn join(self, _other: Nothing) -> Nothing {
        self
    }
}

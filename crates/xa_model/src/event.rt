use xa_frame::Request;

/// What is asked of a manager: that a session connects, that the session with a number is hung up, or a request of the
/// session with a number.
#[derive(Debug, Drop)]
pub enum Event {
    Connect,
    Hangup(u64),
    Call(u64, Request),
}

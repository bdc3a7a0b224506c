use crate::front::Front;
use xa_control::Control;
use xa_frame::{Question, Reply};

/// What the front of what came in asks for.
#[derive(Debug, Drop)]
pub enum Asked {
    /// Nothing to answer now: no whole frame came in, a reply has to be sent first, or the connection has to end.
    Idle,
    /// A question, which a door answers, in a content of this many bytes.
    One(usize, Question),
    /// Nothing for a door: this is at the front, and this reply is owed to it.
    Refused(Front, Reply),
    /// Something of the server itself, and nothing for a door, in a content of this many bytes: it stays at the front until
    /// the server has answered it.
    Control(usize, Control),
}

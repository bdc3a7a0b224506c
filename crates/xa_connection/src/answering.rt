/// What an answer came to.
#[derive(Clone, Copy, Debug, PartialEq, Eq)]
pub enum Answering {
    /// There is nothing to answer now: no whole frame came in, a reply has to be sent first, the connection has to end, or
    /// the server has.
    Idle,
    /// A frame was answered, and its reply has to be sent; or a length that is too great was.
    Answered,
    /// There was no memory for the reply: the call was made, nothing of its reply is sent, and the connection has to end.
    Memory,
}

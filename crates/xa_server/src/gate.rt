/// Is told of each call before it takes the lock of the sequencer, and after it released it. Connects and hang-ups pass no gate. It
/// may keep a call waiting, and with it all that its loop does: one that accepts accepts nobody meanwhile.
pub trait Gate {
    ghost use Rattle.std.specs.Prelude.{◌<◌};

    /// The session's call with this number is about to take the lock, or is posted to whoever has it. A session's calls are
    /// counted from 1.
    fn enter(&self, session: u64, number: u64)
        requires { 0 < number };

    /// The session's call with this number was answered, and the lock is released. One whose session is hung up before never
    /// comes here.
    fn leave(&self, session: u64, number: u64)
        requires { 0 < number };
}

/// Lets each call pass at once.
#[derive(Clone, Copy, Debug)]
pub struct OpenGate;

impl Gate for OpenGate {
    fn enter(&self, _session: u64, _number: u64) {}

    fn leave(&self, _session: u64, _number: u64) {}
}

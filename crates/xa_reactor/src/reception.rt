use crate::ask::Ask;
use std::alloc::{AllocError, Global};
use xa_assoc::ConnectFault;
use xa_desk::Door;
use xa_frame::Request;
use xa_xid::Xid;

/// A door at which sessions connect, too.
pub trait Reception: Door {
    ghost use Rattle.std.specs.Prelude.{ℕ, ◌≡◌, ◌⊎◌, All, Bool, IfOk, IsSomeAnd, List, Result};
    ghost use Rattle.xa_assoc.specs.declared.fault.ConnectFault.{ConnectFault};
    ghost use Rattle.xa_frame.specs.declared.request.Request.{Request};
    ghost use Rattle.xa_reactor.specs.{Asking.HasRequest, Asking.TellsAll, Asking.TellsSome, Reception.KeepsSettled, Timing.Ties};
    ghost use Rattle.xa_xid.specs.Triple.{Triple};

    /// A connect took it from one to the other, with this result.
    ghost connected: { Self → Result ℕ ConnectFault → Self → Type 0 };

    /// It was asked whether this session has an association with a branch, or with one that isn't marked, and what was
    /// answered.
    ghost ties: { Self → ℕ → Ties };

    /// It was asked which sessions have an association of their own with this branch, and these were answered.
    ghost attached: { Self → Triple → List ℕ → Type 0 };

    /// It was asked where the log ends, and this was answered.
    ghost ends: { Self → ℕ → Type 0 };

    /// This call of this session was posted between one and the other: it is to be answered yet.
    ghost posts: { ℕ → Request → Self → Self → Type 0 };

    /// Whether the answer to a request may wait for a device.
    ghost waits: { Request → Bool };

    /// How many calls there were that may have moved the log's end.
    ghost logs: { Self → ℕ };

    /// Nothing that was posted is left to be answered.
    ghost is_settled: { Self → Type 0 };

    /// Connects a session.
    fn connect(&mut self) -> Result<u64, ConnectFault>
        ensures { connected self.old result self.new };

    /// Answers requests, each once and as `call` does, in an order of its own: those that were posted are among them, and
    /// none of these is left.
    fn call_all(&mut self, asks: &mut [Ask])
        requires { All HasRequest asks.old }
        ensures told { TellsAll Self.called self.old asks.old asks.new self.new }
        ensures settled { is_settled self.new };

    /// The same of requests of which none was posted, but for those that have to wait for what another door has under way:
    /// each of these is left as it was. What was posted is left.
    fn call_quick(&mut self, asks: &mut [Ask])
        requires { All HasRequest asks.old }
        ensures { TellsSome Self.called self.old asks.old asks.new self.new };

    /// Whether the answer to a request may wait for a device. A hint: those of a round that don't are answered before the
    /// others, by `call_quick`, and aren't posted.
    fn may_wait(&self, request: &Request) -> bool
        ensures { result ≡ waits request.now };

    /// This ask will be at this place among those of the next `call_all`. From now on its request may be answered together
    /// with those of other doors, by whichever door comes first; its reply is given by that `call_all`. It may post
    /// nothing: a hint, as what wasn't posted is answered as well.
    fn post(&mut self, place: usize, ask: &Ask)
        requires { HasRequest ask.now }
        ensures { (self.new ≡ self.old)
            ⊎ IsSomeAnd ask.now.request (λ request. posts ask.now.session request self.old self.new) };

    /// Whether a request would be answered now, without waiting for other doors. A hint.
    fn is_free(&self) -> bool;

    /// After how many groups of requests of all doors a request has its reply that is posted now. A hint.
    fn due(&self) -> u64;

    /// Whether this many groups were answered. A hint.
    fn is_due(&self, groups: u64) -> bool;

    /// Whether a session has an association of its own with a branch: it is at work for it, or has suspended that.
    fn has_association(&self, session: u64) -> bool
        ensures { (ties self.now session).associated result };

    /// Whether one of these is with a branch that isn't marked.
    fn has_unmarked(&self, session: u64) -> bool
        ensures { (ties self.now session).unmarked result };

    /// The sessions that have an association of their own with this branch, ascending.
    fn sessions_of(&self, alloc: Global, xid: &Xid) -> Result<Vec<u64>, AllocError>
        ensures { IfOk result (λ v. attached self.now xid.now v.items) };

    /// Appends what was counted at all doors: each id, and how many.
    fn put_counts(&self, out: &mut Vec<u64>) -> Result<(), AllocError>;

    /// Where the log's next record begins, while the manager is up.
    fn log_end(&self) -> u64
        ensures { ends self.now result };

    /// How many calls at this door may have moved the log's end; after the greatest number 0 comes.
    fn logged(&self) -> u64
        ensures { result ≡ logs self.now };

    /// Law: a connect, a call and a hang-up leave nothing that was posted, if there was nothing.
    ghost keeps_settled: { KeepsSettled connected Self.called Self.left is_settled };
}

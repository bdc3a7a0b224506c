ghost use Rattle.std.specs.Prelude.{◌≡◌, None, IsSome, MatchResult, OnErr};
ghost use Rattle.xa_codes.specs.declared.codes.TheConstants.{XAER_PROTO};
ghost use Rattle.xa_model.specs.{State.limit_of, TimeLimits.timeout_by};
ghost use Rattle.xa_assoc.specs.{Company.company_of, Seats.opened_at, Seats.limit_at, Sessions.FollowsAlways, Sessions.InEach};

use crate::sessions::Sessions;
use xa_codes::{Code, XAER_PROTO};

/// The time limits of sessions: how long a branch that the session begins may be at work. Nothing here takes memory.
impl Sessions {
    /// From now on the branches that the session begins have this limit, in seconds; 0 is none. The limit outlasts a
    /// close and a restart, and ends with the connection. A session that isn't connected is refused with XAER_PROTO.
    #[tactic(auto, using(crate::proofs::Companies::set_company))]
    pub fn set_timeout(&mut self, session: u64, seconds: u32) -> Result<(), Code>
        ensures refused { MatchResult result (λ _. IsSome (opened_at self.old session))
            (λ code. (opened_at self.old session ≡ None) × (code ≡ XAER_PROTO)) }
        ensures err { OnErr result (self.new ≡ self.old) }
        ensures after { FollowsAlways self.old (λ s. (timeout_by s session seconds).after) self.new }
        ensures company { company_of self.new ≡ company_of self.old }
    {
        if !self.is_connected(session) {
            return Err(XAER_PROTO);
        }
        self.put_limit(session, seconds);
        Ok(())
    }

    /// The time limit, in seconds, of the branches that the session begins; 0 is none. A session that isn't connected
    /// has none.
    pub fn timeout(&self, session: u64) -> u32
        ensures seat { result ≡ limit_at self.now session }
        ensures state { InEach self.now (λ s. result ≡ limit_of s session) }
    {
        match self.seats.get(&session) {
            Some(seat) => seat.limit,
            None => 0,
        }
    }
}

ghost use Rattle.std.specs.Prelude.{◌≡◌, IfSome, false};
ghost use Rattle.xa_xid.specs.Triple.{Triple};
ghost use Rattle.xa_model.specs.State.{State, known_in};
ghost use Rattle.xa_assoc.specs.Refusals.{is_memory, IsBare};
ghost use Rattle.xa_assoc.specs.Sessions.{SessionsStandFor, InEach, InSound, TellsTaken, TellsUnknown, TellsLasting, TellsLoose};
ghost use Rattle.xa_assoc.specs.Sessions.{begin_refusal_of, join_refusal_of, resume_refusal_of, suspend_refusal_of, leave_refusal_of};

use crate::refusals::{end_refusal, join_refusal, resume_refusal, start_refusal};
use crate::sessions::Sessions;
use xa_frame::Reply;
use xa_xid::Xid;

/// How a start and an end are refused, from what the sessions' table knows and the facts of the branch that are handed
/// in.
impl Sessions {
    /// The refusal of the start of a new branch. The XID is taken, or `known` branches are known and `given` timestamps given.
    pub fn begin_refusal(
        &self,
        session: u64,
        taken: bool,
        known: usize,
        given: u64,
    ) -> Option<Reply>
        ensures value { (s : State) (xid : Triple) → SessionsStandFor self.now s → TellsTaken s xid taken
            → known_in s ≡ known → s.given ≡ given → result ≡ begin_refusal_of s session xid }
        ensures served { IfSome result (λ r. is_memory r.detail ≡ false) }
        ensures bare { IfSome result IsBare }
    {
        start_refusal(self.current(session).is_some(), taken, known, given)
    }

    /// The refusal of a start with TMJOIN. The XID is unknown, or its branch is prepared or completed.
    pub fn join_refusal(
        &self,
        session: u64,
        xid: &Xid,
        unknown: bool,
        lasting: bool,
    ) -> Option<Reply>
        ensures value { InSound self.now (λ s. TellsUnknown s xid.now unknown → TellsLasting s xid.now lasting
            → result ≡ join_refusal_of s session xid.now) }
        ensures served { IfSome result (λ r. is_memory r.detail ≡ false) }
        ensures bare { IfSome result IsBare }
    {
        let has_suspended = self.has_suspended(session, xid);
        join_refusal(
            self.current(session).is_some(),
            has_suspended,
            unknown,
            lasting,
        )
    }

    /// The refusal of a start with TMRESUME. The XID is unknown, or its branch has a loose association.
    pub fn resume_refusal(
        &self,
        session: u64,
        xid: &Xid,
        unknown: bool,
        has_loose: bool,
    ) -> Option<Reply>
        ensures value { InSound self.now (λ s. TellsUnknown s xid.now unknown → TellsLoose s xid.now has_loose
            → result ≡ resume_refusal_of s session xid.now) }
        ensures served { IfSome result (λ r. is_memory r.detail ≡ false) }
        ensures bare { IfSome result IsBare }
    {
        let has_suspended = self.has_suspended(session, xid);
        resume_refusal(
            self.current(session).is_some(),
            unknown,
            has_suspended,
            has_loose,
        )
    }

    /// The refusal of an end with TMSUSPEND: the session has to be at work for the branch.
    pub fn suspend_refusal(&self, session: u64, xid: &Xid, unknown: bool) -> Option<Reply>
        ensures value { InEach self.now (λ s. TellsUnknown s xid.now unknown
            → result ≡ suspend_refusal_of s session xid.now) }
        ensures served { IfSome result (λ r. is_memory r.detail ≡ false) }
        ensures bare { IfSome result IsBare }
    {
        end_refusal(unknown, self.works_in(session, xid))
    }

    /// The refusal of an end with TMSUCCESS or TMFAIL: of an association of the session's own, or of a loose one.
    pub fn leave_refusal(
        &self,
        session: u64,
        xid: &Xid,
        unknown: bool,
        has_loose: bool,
    ) -> Option<Reply>
        ensures value { InEach self.now (λ s. TellsUnknown s xid.now unknown → TellsLoose s xid.now has_loose
            → result ≡ leave_refusal_of s session xid.now) }
        ensures served { IfSome result (λ r. is_memory r.detail ≡ false) }
        ensures bare { IfSome result IsBare }
    {
        end_refusal(unknown, self.owns(session, xid) || has_loose)
    }
}

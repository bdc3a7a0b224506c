ghost use Rattle.std.specs.Prelude.{◌≡◌, false, OnOk, OnErr, IsSome};
ghost use Rattle.xa_model.specs.Associations.{begun, joined, resumed, not_resumed, suspended, not_suspended, ended, failed};
ghost use Rattle.xa_assoc.specs.{Seats.opened_at, Seats.owns_at, Changes.IsSameRoom, Company.company_of};
ghost use Rattle.xa_assoc.specs.Sessions.{CanResume, CanSuspend, Follows, FollowsIf, Stays};

use crate::sessions::Sessions;
use std::alloc::AllocError;
use xa_xid::Xid;

/// How a connected session comes to work for branches, and leaves them, once nothing is refused. For a marked branch
/// the caller answers the mark: nothing is joined, and what should have been resumed or suspended is left.
impl Sessions {
    /// Start of a new branch.
    pub fn begin(&mut self, session: u64, xid: Xid) -> Result<(), AllocError>
        requires { IsSome (opened_at self.old session) }
        ensures room { OnOk result (IsSameRoom self.old self.new) }
        ensures ok { OnOk result (Follows self.old (λ s. (begun s session xid).after) self.new) }
        ensures err { OnErr result (Stays self.old self.new) }
        ensures company { company_of self.new ≡ company_of self.old }
    {
        self.sit_down(session, xid)
    }

    /// Start with TMJOIN.
    pub fn join(&mut self, session: u64, xid: Xid) -> Result<(), AllocError>
        requires { IsSome (opened_at self.old session) }
        ensures ok { OnOk result (Follows self.old (λ s. (joined s session xid).after) self.new) }
        ensures err { OnErr result (Stays self.old self.new) }
        ensures company { company_of self.new ≡ company_of self.old }
    {
        self.sit_down(session, xid)
    }

    /// Start with TMRESUME: of the session's own suspended association, or of a loose one. Only the latter may need memory.
    pub fn resume(&mut self, session: u64, xid: Xid) -> Result<(), AllocError>
        requires { IsSome (opened_at self.old session) }
        ensures ok { OnOk result (FollowsIf self.old (CanResume session xid)
            (λ s. (resumed s session xid).after) self.new) }
        ensures err { OnErr result (Stays self.old self.new) }
        ensures absent { OnErr result (owns_at self.old session xid ≡ false) }
        ensures company { company_of self.new ≡ company_of self.old }
    {
        self.sit_down(session, xid)
    }

    /// End with TMSUSPEND, and with TMMIGRATE, by which the association becomes loose.
    #[tactic(auto, using(crate::proofs::Companies::room_company))]
    pub fn suspend(&mut self, session: u64, xid: &Xid, migrates: bool)
        requires { IsSome (opened_at self.old session) }
        ensures after { FollowsIf self.old (CanSuspend session xid.now)
            (λ s. suspended s session migrates xid.now) self.new }
        ensures company { company_of self.new ≡ company_of self.old }
    {
        if migrates {
            self.leave_seat(session, xid);
        } else {
            self.stand_up(session);
        }
    }

    /// The session's own association with the XID ends, if it has one: in an end with TMSUCCESS or TMFAIL, and if a
    /// marked branch should have been suspended or resumed.
    #[tactic(auto, using(crate::proofs::Companies::room_company))]
    pub fn leave(&mut self, session: u64, xid: &Xid)
        requires { IsSome (opened_at self.old session) }
        ensures ended { Follows self.old (λ s. ended s session xid.now) self.new }
        ensures failed { Follows self.old (λ s. (failed s session xid.now).after) self.new }
        ensures not_suspended { FollowsIf self.old (CanSuspend session xid.now)
            (λ s. not_suspended s session xid.now) self.new }
        ensures not_resumed { FollowsIf self.old (CanResume session xid.now)
            (λ s. not_resumed s session xid.now) self.new }
        ensures company { company_of self.new ≡ company_of self.old }
    {
        self.leave_seat(session, xid);
    }
}

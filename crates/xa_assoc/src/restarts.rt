ghost use Rattle.std.specs.Prelude.{◌≡◌, [], map};
ghost use Rattle.xa_model.specs.{State.State, Restarting.without_scan};
ghost use Rattle.xa_assoc.specs.{Company.company_of, Sessions.SessionsStandFor};

use crate::sessions::Sessions;

/// How a restart leaves the sessions.
impl Sessions {
    /// All associations are gone, and all scans. Sessions stay connected, opened as they were, and
    /// keep their time limits. Takes no memory.
    #[tactic(auto, using(crate::proofs::Companies::cleared_company))]
    pub fn restart(&mut self)
        ensures any { (s t : State) → t.sessions ≡ map without_scan s.sessions → t.associations ≡ []
            → SessionsStandFor self.old s → SessionsStandFor self.new t }
        ensures company { company_of self.new ≡ company_of self.old }
    {
        self.clear_seats();
    }
}

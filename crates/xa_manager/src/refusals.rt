ghost use Rattle.std.specs.Prelude.{◌≡◌, IfSome, IfOk, false};
ghost use Rattle.xa_record.specs.declared.record.Record.TheVariants as logged;
ghost use Rattle.xa_model.specs.{State.known_as, State.loose_of, Associations.loose_refusal};
ghost use Rattle.xa_model.specs.Phases.{unprepared_refusal, two_phase_refusal, rollback_refusal, doom_refusal, is_associated};
ghost use Rattle.xa_model.specs.Completions.{decide_refusal, forget_refusal};
ghost use Rattle.xa_assoc.specs.Refusals.{is_memory, IsBare};
ghost use Rattle.xa_assoc.specs.Sessions.{begin_refusal_of, join_refusal_of, resume_refusal_of, suspend_refusal_of, leave_refusal_of};
ghost use Rattle.xa_heur.specs.Answers.{refused, completion_refusal};
ghost use Rattle.xa_manager.specs.Tables.{TablesSay};

use crate::tables::Tables;
use xa_assoc::loose_refusal;
use xa_branch::{doom_refusal, rollback_refusal, two_phase_refusal, unprepared_refusal};
use xa_codes::{Call, Code, Direction, XAER_NOTA};
use xa_frame::Reply;
use xa_heur::{answer_completed, decide, forget};
use xa_record::Record;
use xa_xid::Xid;

/// How starts and ends are refused.
impl Tables {
    /// The refusal of the start of a new branch.
    pub fn begin_refusal(&self, session: u64, xid: &Xid) -> Option<Reply>
        ensures value { TablesSay self.now (λ s. result ≡ begin_refusal_of s session xid.now) }
        ensures served { IfSome result (λ r. is_memory r.detail ≡ false) }
        ensures bare { IfSome result IsBare }
    {
        let taken = self.is_taken(xid);
        self.sessions
            .begin_refusal(session, taken, self.branches.len(), self.branches.given())
    }

    /// The refusal of a start with TMJOIN.
    pub fn join_refusal(&self, session: u64, xid: &Xid) -> Option<Reply>
        ensures value { TablesSay self.now (λ s. result ≡ join_refusal_of s session xid.now) }
        ensures served { IfSome result (λ r. is_memory r.detail ≡ false) }
        ensures bare { IfSome result IsBare }
    {
        let unknown = self.is_unknown(xid);
        let lasting = self.is_lasting(xid);
        self.sessions.join_refusal(session, xid, unknown, lasting)
    }

    /// The refusal of a start with TMRESUME.
    pub fn resume_refusal(&self, session: u64, xid: &Xid) -> Option<Reply>
        ensures value { TablesSay self.now (λ s. result ≡ resume_refusal_of s session xid.now) }
        ensures served { IfSome result (λ r. is_memory r.detail ≡ false) }
        ensures bare { IfSome result IsBare }
    {
        let unknown = self.is_unknown(xid);
        let has_loose = self.has_loose(xid);
        self.sessions
            .resume_refusal(session, xid, unknown, has_loose)
    }

    /// The refusal of an end with TMSUSPEND.
    pub fn suspend_refusal(&self, session: u64, xid: &Xid) -> Option<Reply>
        ensures value { TablesSay self.now (λ s. result ≡ suspend_refusal_of s session xid.now) }
        ensures served { IfSome result (λ r. is_memory r.detail ≡ false) }
        ensures bare { IfSome result IsBare }
    {
        let unknown = self.is_unknown(xid);
        self.sessions.suspend_refusal(session, xid, unknown)
    }

    /// The refusal of an end with TMSUSPEND, of a branch that isn't marked: with TMMIGRATE, one more loose association.
    pub fn loose_refusal(&self, migrates: bool, xid: &Xid) -> Option<Reply>
        ensures value { TablesSay self.now (λ s. result ≡ loose_refusal migrates (loose_of s.associations xid.now)) }
        ensures served { IfSome result (λ r. is_memory r.detail ≡ false) }
        ensures bare { IfSome result IsBare }
    {
        loose_refusal(migrates, self.branches.loose(xid))
    }

    /// The refusal of an end with TMSUCCESS or TMFAIL.
    pub fn leave_refusal(&self, session: u64, xid: &Xid) -> Option<Reply>
        ensures value { TablesSay self.now (λ s. result ≡ leave_refusal_of s session xid.now) }
        ensures served { IfSome result (λ r. is_memory r.detail ≡ false) }
        ensures bare { IfSome result IsBare }
    {
        let unknown = self.is_unknown(xid);
        let has_loose = self.has_loose(xid);
        self.sessions
            .leave_refusal(session, xid, unknown, has_loose)
    }
}

/// How the completion of a branch is refused, and what the operator asks.
impl Tables {
    pub fn unprepared_refusal(&self, xid: &Xid) -> Option<Reply>
        ensures value { TablesSay self.now (λ s. result ≡ unprepared_refusal (known_as s xid.now)
            (is_associated s xid.now)) }
        ensures served { IfSome result (λ r. is_memory r.detail ≡ false) }
        ensures bare { IfSome result IsBare }
    {
        unprepared_refusal(self.branches.known(xid), self.branches.is_associated(xid))
    }

    pub fn two_phase_refusal(&self, xid: &Xid) -> Option<Reply>
        ensures value { TablesSay self.now (λ s. result ≡ two_phase_refusal (known_as s xid.now)) }
        ensures served { IfSome result (λ r. is_memory r.detail ≡ false) }
        ensures bare { IfSome result IsBare }
    {
        two_phase_refusal(self.branches.known(xid))
    }

    pub fn rollback_refusal(&self, xid: &Xid) -> Option<Reply>
        ensures value { TablesSay self.now (λ s. result ≡ rollback_refusal (known_as s xid.now)
            (is_associated s xid.now)) }
        ensures served { IfSome result (λ r. is_memory r.detail ≡ false) }
        ensures bare { IfSome result IsBare }
    {
        rollback_refusal(self.branches.known(xid), self.branches.is_associated(xid))
    }

    /// The refusal of a commit in two phases or a rollback of a branch that the operator completed.
    pub fn heuristic_refusal(&self, call: Call, xid: &Xid) -> Option<Reply>
        ensures value { TablesSay self.now (λ s. result ≡ completion_refusal call (known_as s xid.now)) }
        ensures served { IfSome result (λ r. is_memory r.detail ≡ false) }
        ensures bare { IfSome result IsBare }
    {
        let code = answer_completed(self.branches.state(xid)?, call)?;
        Some(Reply::plain(code))
    }

    /// The record of an operator's decision, or the code that refuses it: only a prepared branch is decided.
    pub fn decision(&self, direction: Direction, xid: &Xid) -> Result<Record, Code>
        ensures refusal { TablesSay self.now (λ s. refused result ≡ decide_refusal (known_as s xid.now)) }
        ensures logs { IfOk result (λ r. r ≡ logged.Decided xid.now direction) }
    {
        match self.branches.state(xid) {
            Some(state) => decide(state, xid, direction),
            None => Err(XAER_NOTA),
        }
    }

    /// The record of a Forget, or the code that refuses it: only what the operator completed is forgotten.
    pub fn forgetting(&self, xid: &Xid) -> Result<Record, Code>
        ensures refusal { TablesSay self.now (λ s. refused result ≡ forget_refusal (known_as s xid.now)) }
        ensures logs { IfOk result (λ r. r ≡ logged.Forgotten xid.now) }
    {
        match self.branches.state(xid) {
            Some(state) => forget(state, xid),
            None => Err(XAER_NOTA),
        }
    }

    pub fn doom_refusal(&self, xid: &Xid) -> Option<Reply>
        ensures value { TablesSay self.now (λ s. result ≡ doom_refusal (known_as s xid.now)) }
        ensures served { IfSome result (λ r. is_memory r.detail ≡ false) }
        ensures bare { IfSome result IsBare }
    {
        doom_refusal(self.branches.known(xid))
    }
}

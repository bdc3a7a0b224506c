ghost use Rattle.std.specs.Prelude.{◌≡◌, IfOk, OnErr, IsSome};
ghost use Rattle.xa_model.specs.Associations.{begin_by, join_by, resume_by, start_by, suspend_by, leave_by, end_by};
ghost use Rattle.xa_assoc.specs.{Seats.opened_at, Refusals.IsBare, Company.company_of};
ghost use Rattle.xa_manager.specs.{Replies.IsFresh, Tables.TablesFollow, Tables.TablesStay};
ghost use Rattle.xa_branch.specs.Room.{rooms_of};

use crate::tables::Tables;
use std::alloc::AllocError;
use xa_branch::Kind;
use xa_codes::{TMFAIL, TMJOIN, TMMIGRATE, TMRESUME, TMSUSPEND, XA_OK, XA_RBROLLBACK};
use xa_frame::{Body, Reply};
use xa_xid::Xid;

/// How a connected session comes to work for a branch.
impl Tables {
    pub fn start(&mut self, session: u64, flags: u32, xid: &Xid) -> Result<Reply, AllocError>
        requires connected { IsSome (opened_at self.old.sessions session) }
        ensures ok { IfOk result (λ r. TablesFollow self.old (λ s. start_by s session flags xid.now) r self.new) }
        ensures err { OnErr result (TablesStay self.old self.new) }
        ensures company { company_of self.new.sessions ≡ company_of self.old.sessions }
        ensures rooms { rooms_of self.new.branches ≡ rooms_of self.old.branches }
        ensures fresh { IfOk result IsFresh }
    {
        if flags & TMJOIN == TMJOIN {
            self.join(session, xid)
        } else if flags & TMRESUME == TMRESUME {
            self.resume(session, xid)
        } else {
            self.begin(session, xid)
        }
    }

    #[tactic(auto, using(crate::proofs::Replying::bare_fresh, crate::proofs::Replying::number_fresh))]
    fn begin(&mut self, session: u64, xid: &Xid) -> Result<Reply, AllocError>
        requires connected { IsSome (opened_at self.old.sessions session) }
        ensures ok { IfOk result (λ r. TablesFollow self.old (λ s. begin_by s session xid.now) r self.new) }
        ensures err { OnErr result (TablesStay self.old self.new) }
        ensures company { company_of self.new.sessions ≡ company_of self.old.sessions }
        ensures rooms { rooms_of self.new.branches ≡ rooms_of self.old.branches }
        ensures fresh { IfOk result IsFresh }
    {
        if let Some(reply) = self.begin_refusal(session, xid) {
            return Ok(reply);
        }
        let timestamp = self.begin_branch(session, xid)?;
        Ok(Reply::carrying(Body::Number(timestamp)))
    }

    #[tactic(auto, using(crate::proofs::Replying::bare_fresh, crate::proofs::Replying::number_fresh))]
    fn join(&mut self, session: u64, xid: &Xid) -> Result<Reply, AllocError>
        requires connected { IsSome (opened_at self.old.sessions session) }
        ensures ok { IfOk result (λ r. TablesFollow self.old (λ s. join_by s session xid.now) r self.new) }
        ensures err { OnErr result (TablesStay self.old self.new) }
        ensures company { company_of self.new.sessions ≡ company_of self.old.sessions }
        ensures rooms { rooms_of self.new.branches ≡ rooms_of self.old.branches }
        ensures fresh { IfOk result IsFresh }
    {
        if let Some(reply) = self.join_refusal(session, xid) {
            return Ok(reply);
        }
        if let Some(code) = self.mark_of(xid) {
            return Ok(Reply::plain(code));
        }
        let timestamp = self.branches.timestamp(xid);
        self.join_branch(session, xid)?;
        Ok(Reply::carrying(Body::Number(timestamp)))
    }

    /// What would be resumed of a marked branch ends.
    #[tactic(auto, using(crate::proofs::Replying::bare_fresh, crate::proofs::Replying::number_fresh))]
    fn resume(&mut self, session: u64, xid: &Xid) -> Result<Reply, AllocError>
        requires connected { IsSome (opened_at self.old.sessions session) }
        ensures ok { IfOk result (λ r. TablesFollow self.old (λ s. resume_by s session xid.now) r self.new) }
        ensures err { OnErr result (TablesStay self.old self.new) }
        ensures company { company_of self.new.sessions ≡ company_of self.old.sessions }
        ensures rooms { rooms_of self.new.branches ≡ rooms_of self.old.branches }
        ensures fresh { IfOk result IsFresh }
    {
        if let Some(reply) = self.resume_refusal(session, xid) {
            return Ok(reply);
        }
        let from = self.resumed_kind(session, xid);
        if let Some(code) = self.mark_of(xid) {
            self.leave_branch(session, xid, from);
            return Ok(Reply::plain(code));
        }
        let timestamp = self.branches.timestamp(xid);
        self.resume_branch(session, xid, from)?;
        Ok(Reply::carrying(Body::Number(timestamp)))
    }
}

/// How a connected session leaves its work for a branch.
impl Tables {
    pub fn end(&mut self, session: u64, flags: u32, xid: &Xid) -> Reply
        requires connected { IsSome (opened_at self.old.sessions session) }
        ensures follows { TablesFollow self.old (λ s. end_by s session flags xid.now) result self.new }
        ensures company { company_of self.new.sessions ≡ company_of self.old.sessions }
        ensures rooms { rooms_of self.new.branches ≡ rooms_of self.old.branches }
        ensures bare { IsBare result }
    {
        if flags & TMSUSPEND == TMSUSPEND {
            self.suspend(session, flags & TMMIGRATE == TMMIGRATE, xid)
        } else {
            self.leave(session, flags & TMFAIL == TMFAIL, xid)
        }
    }

    /// What would be suspended of a marked branch ends.
    fn suspend(&mut self, session: u64, migrates: bool, xid: &Xid) -> Reply
        requires connected { IsSome (opened_at self.old.sessions session) }
        ensures follows { TablesFollow self.old (λ s. suspend_by s session migrates xid.now) result self.new }
        ensures company { company_of self.new.sessions ≡ company_of self.old.sessions }
        ensures rooms { rooms_of self.new.branches ≡ rooms_of self.old.branches }
        ensures bare { IsBare result }
    {
        if let Some(reply) = self.suspend_refusal(session, xid) {
            return reply;
        }
        if let Some(code) = self.mark_of(xid) {
            self.leave_branch(session, xid, Kind::Active);
            return Reply::plain(code);
        }
        if let Some(reply) = self.loose_refusal(migrates, xid) {
            return reply;
        }
        self.suspend_branch(session, xid, migrates);
        Reply::plain(XA_OK)
    }

    fn leave(&mut self, session: u64, fails: bool, xid: &Xid) -> Reply
        requires connected { IsSome (opened_at self.old.sessions session) }
        ensures follows { TablesFollow self.old (λ s. leave_by s session fails xid.now) result self.new }
        ensures company { company_of self.new.sessions ≡ company_of self.old.sessions }
        ensures rooms { rooms_of self.new.branches ≡ rooms_of self.old.branches }
        ensures bare { IsBare result }
    {
        if let Some(reply) = self.leave_refusal(session, xid) {
            return reply;
        }
        let kind = self.ended_kind(session, xid);
        if let Some(code) = self.mark_of(xid) {
            self.leave_branch(session, xid, kind);
            return Reply::plain(code);
        }
        if fails {
            self.fail_branch(session, xid, kind);
            return Reply::plain(XA_RBROLLBACK);
        }
        self.leave_branch(session, xid, kind);
        Reply::plain(XA_OK)
    }
}

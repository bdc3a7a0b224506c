ghost use Rattle.std.specs.Prelude.{◌≡◌, ◌+◌, None, IfOk, OnOk, OnErr, IsSome};
ghost use Rattle.xa_model.specs.State.{timestamp_of};
ghost use Rattle.xa_model.specs.Associations.{begun, joined, resumed, not_resumed, suspended, not_suspended, ended, failed};
ghost use Rattle.xa_model.specs.{Phases.rolled_back, Phases.committed, Trimming.trimmed};
ghost use Rattle.xa_manager.specs.{Drained.GivesBack, Changes.fate_of};
ghost use Rattle.xa_assoc.specs.{Seats.opened_at, Sessions.begin_refusal_of, Company.company_of};
ghost use Rattle.xa_branch.specs.{Calls.marked_with, Room.rooms_of};
ghost use Rattle.xa_manager.specs.Tables.{TablesBecome, TablesMove, TablesSay, TablesStay, TablesStayDown};
ghost use Rattle.xa_manager.specs.Acts.{BranchBecomes, Decides, Ends, Forgets, Resumes, Settles, Suspends, SuspendsAs};

use crate::tables::Tables;
use mv_chain::Fate;
use std::alloc::AllocError;
use xa_branch::Kind;
use xa_codes::{Code, Direction, XA_RBROLLBACK};
use xa_xid::Xid;

/// How a session comes to work for a branch, in each table alike, once nothing is refused. What can fail comes first.
impl Tables {
    /// Begins a branch, for which the session is at work. Returns its timestamp.
    pub fn begin_branch(&mut self, session: u64, xid: &Xid) -> Result<u64, AllocError>
        requires connected { IsSome (opened_at self.old.sessions session) }
        requires free { TablesSay self.old (λ s. begin_refusal_of s session xid.now ≡ None) }
        ensures timestamp { IfOk result (λ t. TablesSay self.old (λ s. t ≡ timestamp_of s.boot (s.given + 1))) }
        ensures ok { OnOk result (TablesMove self.old (λ s. (begun s session xid.now).after) self.new) }
        ensures err { OnErr result (TablesStay self.old self.new) }
        ensures company { company_of self.new.sessions ≡ company_of self.old.sessions }
        ensures rooms { rooms_of self.new.branches ≡ rooms_of self.old.branches }
    {
        self.sessions.begin(session, xid.copied())?;
        let limit = self.sessions.timeout(session);
        match self.branches.begin(xid, limit) {
            Ok(timestamp) => Ok(timestamp),
            Err(_) => {
                self.sessions.leave(session, xid);
                Err(AllocError)
            }
        }
    }

    pub fn join_branch(&mut self, session: u64, xid: &Xid) -> Result<(), AllocError>
        requires connected { IsSome (opened_at self.old.sessions session) }
        ensures ok { OnOk result (TablesMove self.old (λ s. (joined s session xid.now).after) self.new) }
        ensures err { OnErr result (TablesStay self.old self.new) }
        ensures company { company_of self.new.sessions ≡ company_of self.old.sessions }
        ensures rooms { rooms_of self.new.branches ≡ rooms_of self.old.branches }
    {
        self.sessions.join(session, xid.copied())?;
        self.branches.join(xid);
        Ok(())
    }

    /// Resumes an association of this kind.
    pub fn resume_branch(&mut self, session: u64, xid: &Xid, from: Kind) -> Result<(), AllocError>
        requires connected { IsSome (opened_at self.old.sessions session) }
        ensures ok { OnOk result (TablesBecome self.old (Resumes session xid.now from)
            (λ s. (resumed s session xid.now).after) self.new) }
        ensures err { OnErr result (TablesStay self.old self.new) }
        ensures company { company_of self.new.sessions ≡ company_of self.old.sessions }
        ensures rooms { rooms_of self.new.branches ≡ rooms_of self.old.branches }
    {
        self.sessions.resume(session, xid.copied())?;
        self.branches.resume(xid, from);
        Ok(())
    }
}

/// How a session leaves a branch.
impl Tables {
    pub fn suspend_branch(&mut self, session: u64, xid: &Xid, migrates: bool)
        requires connected { IsSome (opened_at self.old.sessions session) }
        ensures becomes { TablesBecome self.old (Suspends session xid.now)
            (λ s. suspended s session migrates xid.now) self.new }
        ensures company { company_of self.new.sessions ≡ company_of self.old.sessions }
        ensures rooms { rooms_of self.new.branches ≡ rooms_of self.old.branches }
    {
        self.sessions.suspend(session, xid, migrates);
        self.branches.suspend(xid, migrates);
    }

    /// An association of this kind ends.
    pub fn leave_branch(&mut self, session: u64, xid: &Xid, kind: Kind)
        requires connected { IsSome (opened_at self.old.sessions session) }
        ensures ended { TablesBecome self.old (Ends session xid.now kind) (λ s. ended s session xid.now) self.new }
        ensures not_resumed { TablesBecome self.old (Resumes session xid.now kind)
            (λ s. not_resumed s session xid.now) self.new }
        ensures not_suspended { TablesBecome self.old (SuspendsAs session xid.now kind)
            (λ s. not_suspended s session xid.now) self.new }
        ensures company { company_of self.new.sessions ≡ company_of self.old.sessions }
        ensures rooms { rooms_of self.new.branches ≡ rooms_of self.old.branches }
    {
        self.sessions.leave(session, xid);
        self.branches.leave(xid, kind);
    }

    /// An association of this kind ends, and its branch is marked.
    pub fn fail_branch(&mut self, session: u64, xid: &Xid, kind: Kind)
        requires connected { IsSome (opened_at self.old.sessions session) }
        ensures becomes { TablesBecome self.old (Ends session xid.now kind)
            (λ s. (failed s session xid.now).after) self.new }
        ensures company { company_of self.new.sessions ≡ company_of self.old.sessions }
        ensures rooms { rooms_of self.new.branches ≡ rooms_of self.old.branches }
    {
        self.sessions.leave(session, xid);
        self.branches.leave(xid, kind);
        self.branches.mark(xid, XA_RBROLLBACK);
    }
}

/// How a branch is marked, and completed.
impl Tables {
    /// A branch at work is marked, unless it is: one table's change, said of all of them.
    pub fn mark_branch(&mut self, xid: &Xid, code: Code)
        ensures marks { TablesMove self.old (λ s. marked_with code s xid.now) self.new }
        ensures company { company_of self.new.sessions ≡ company_of self.old.sessions }
        ensures rooms { rooms_of self.new.branches ≡ rooms_of self.old.branches }
    {
        self.branches.mark(xid, code);
    }

    /// The fate of a branch at work or of a prepared one is decided, and it is no longer known.
    pub fn finish_branch(&mut self, xid: &Xid, fate: Fate)
        ensures rolled_back { fate ≡ Fate.RolledBack → BranchBecomes self.old xid.now rolled_back self.new }
        ensures committed { fate ≡ Fate.Committed → BranchBecomes self.old xid.now committed self.new }
        ensures company { company_of self.new.sessions ≡ company_of self.old.sessions }
    {
        let timestamp = self.branches.timestamp(xid);
        self.branches.finish(xid);
        self.records.settle(timestamp, fate);
    }

    /// What becomes of a branch for which nothing is logged.
    pub fn settle(&mut self, xid: &Xid, fate: Option<Fate>)
        ensures settles { Settles self.old fate xid.now self.new }
        ensures company { company_of self.new.sessions ≡ company_of self.old.sessions }
    {
        if let Some(fate) = fate {
            self.finish_branch(xid, fate);
        }
    }

    /// The operator completes a prepared branch.
    pub fn decide_branch(&mut self, xid: &Xid, direction: Direction)
        ensures becomes { Decides self.old direction xid.now self.new }
        ensures company { company_of self.new.sessions ≡ company_of self.old.sessions }
    {
        let timestamp = self.branches.timestamp(xid);
        self.branches.decide(xid, direction);
        self.records.settle(timestamp, fate_of(direction));
    }

    /// What the operator completed is forgotten: one table's change, said of all of them.
    pub fn forget_branch(&mut self, xid: &Xid)
        ensures becomes { Forgets self.old xid.now self.new }
        ensures company { company_of self.new.sessions ≡ company_of self.old.sessions }
    {
        self.branches.forget(xid);
    }
}

pub fn fate_of(direction: Direction) -> Fate
    ensures { result ≡ fate_of direction }
{
    match direction {
        Direction::Commit => Fate::Committed,
        Direction::Rollback => Fate::RolledBack,
    }
}

/// How a boot begins while all work goes on, and what is no longer needed of the versions.
impl Tables {
    /// The boot of this number begins, after all that were logged: one table's change, said of all of them.
    pub fn begin_boot(&mut self, boot: u32)
        ensures begun { TablesBecome self.old (λ s. s.logged_boot + 1 ≡ boot) (λ s. trimmed s boot) self.new }
        ensures company { company_of self.new.sessions ≡ company_of self.old.sessions }
    {
        self.branches.begin_boot(boot);
    }

    /// Gives the records the low water. Takes no memory.
    pub fn give_low_water(&mut self)
        ensures stays { TablesStay self.old self.new }
        ensures down { TablesStayDown self.old self.new }
        ensures drained { GivesBack self.new.branches self.new.records }
        ensures company { company_of self.new.sessions ≡ company_of self.old.sessions }
        ensures rooms { rooms_of self.new.branches ≡ rooms_of self.old.branches }
    {
        let low = self.branches.low_water();
        self.records.low_water(low);
    }
}

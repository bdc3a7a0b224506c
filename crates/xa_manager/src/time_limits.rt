ghost use Rattle.std.specs.Prelude.{◌≡◌, true, false, nat_lt, IsSome};
ghost use Rattle.xa_model.specs.TimeLimits.{timeout_by, tick_by};
ghost use Rattle.xa_assoc.specs.{Company.company_of, Seats.opened_at, Refusals.IsBare};
ghost use Rattle.xa_branch.specs.{Branches.moment_of, Branches.working_at, Room.rooms_of};
ghost use Rattle.xa_manager.specs.{Replies.IsFresh, Tables.TablesFollow};
ghost use Rattle.xa_manager.specs.Believed.Pending.{is_over_kept, MarksNoneOf};

use crate::tables::Tables;
use crate::together::Joining;
use xa_codes::XA_OK;
use xa_frame::{Body, Reply};
use xa_xid::Xid;

/// The time limits of branches. None of these takes memory.
impl Tables {
    /// The limit, in seconds, of the branches that the session begins from now on; 0 for none.
    pub fn timeout(&mut self, session: u64, seconds: u32) -> Reply
        requires connected { IsSome (opened_at self.old.sessions session) }
        ensures follows { TablesFollow self.old (λ s. timeout_by s session seconds) result self.new }
        ensures company { company_of self.new.sessions ≡ company_of self.old.sessions }
        ensures rooms { rooms_of self.new.branches ≡ rooms_of self.old.branches }
        ensures bare { IsBare result }
    {
        match self.sessions.set_timeout(session, seconds) {
            Ok(()) => Reply::plain(XA_OK),
            Err(code) => Reply::plain(code),
        }
    }

    /// The moment, in seconds, is not below the last one: branches whose limit is over are marked, and counted.
    pub fn tick(&mut self, moment: u64) -> Reply
        requires later { nat_lt moment (moment_of self.old.branches) ≡ false }
        ensures follows { TablesFollow self.old (λ s. tick_by s moment) result self.new }
        ensures company { company_of self.new.sessions ≡ company_of self.old.sessions }
        ensures rooms { rooms_of self.new.branches ≡ rooms_of self.old.branches }
        ensures fresh { IsFresh result }
    {
        match self.branches.tick(moment) {
            Ok(count) => Reply::carrying(Body::Number(count)),
            Err(code) => Reply::plain(code),
        }
    }

    /// Whether the moment marks the branch with this XID.
    fn is_over(&self, moment: u64, xid: &Xid) -> bool
        ensures { result ≡ is_over_kept moment (working_at self.now.branches xid.now) }
    {
        let Some(working) = self.branches.working_of(xid) else {
            return false;
        };
        if working.mark.is_some() || working.limit == 0 {
            return false;
        }
        match working.start.checked_add(u64::from(working.limit)) {
            Some(end) => moment >= end,
            None => false,
        }
    }

    /// Whether it marks the branch of none of these calls.
    pub fn marks_none(&self, moment: u64, members: &[Joining]) -> bool
        ensures is { result ≡ true → MarksNoneOf self.now.branches moment members.now }
        ensures all { MarksNoneOf self.now.branches moment members.now → result ≡ true }
    {
        'members: for member in members {
            if self.is_over(moment, &member.xid) {
                return false;
            }
        }
        true
    }
}

ghost use Rattle.std.specs.Prelude.{◌≡◌, ◌+◌, ◌<◌, None, Some, Err, IfOk, IfNone, IfSome, OnOk, OnErr};
ghost use Rattle.xa_model.specs.{State.timestamp_of, State.limit_of, Associations.begun};
ghost use Rattle.xa_branch.specs.Calls.{begin_fault_of, fault_of, marked_with};
ghost use Rattle.xa_limits.specs.declared.TheConstants.{MOST_GIVEN};
ghost use Rattle.xa_branch.specs.Branches.{BranchesStandFor, working_at, lasting_at};
ghost use Rattle.xa_branch.specs.Changes.{Keeps};
ghost use Rattle.xa_branch.specs.Follows.{FollowsAlways, InEach, InSoundOf, Stays};
ghost use Rattle.xa_branch.specs.Room.{rooms_of};

use crate::branches::Branches;
use crate::changes::{add, add_time, mark_working, take};
use crate::due::{add_due, take_due};
use crate::fault::BeginFault;
use crate::working::Working;
use std::alloc::AllocError;
use xa_codes::Code;
use xa_limits::{BOOT_TIMESTAMPS, MOST_BRANCHES, MOST_GIVEN};
use xa_xid::Xid;

/// How branches begin, and are marked.
impl Branches {
    /// A branch begins, with one active association, and is given the boot's next timestamp: the boot's number times
    /// 2^32, and how many timestamps the boot has given with this one. No number is given twice. It begins at the last
    /// moment that was told, and has this time limit, in seconds, or none if it is 0.
    pub fn begin(&mut self, xid: &Xid, limit: u32) -> Result<u64, BeginFault>
        ensures refused { InEach self.old (λ s. fault_of result ≡ begin_fault_of s xid.now) }
        ensures timestamp { InEach self.old (λ s. IfOk result (λ t. t ≡ timestamp_of s.boot (s.given + 1))) }
        ensures ok { OnOk result (InSoundOf self.old (λ s n. limit_of s n ≡ limit
            → BranchesStandFor self.new (begun s n xid.now).after)) }
        ensures err { OnErr result (Stays self.old self.new) }
        ensures rooms { rooms_of self.new ≡ rooms_of self.old }
    {
        if let Some(fault) = self.begin_fault(xid) {
            return Err(fault);
        }
        let timestamp = u64::from(self.boot) * BOOT_TIMESTAMPS + self.given + 1;
        let working = Working::new(timestamp, self.moment, limit);
        match self.keep(xid, working) {
            Err(_) => Err(BeginFault::Memory),
            Ok(()) => {
                self.given += 1;
                Ok(timestamp)
            }
        }
    }

    /// Why a branch can't begin, apart from lack of memory.
    fn begin_fault(&self, xid: &Xid) -> Option<BeginFault>
        ensures state { InEach self.now (λ s. result ≡ begin_fault_of s xid.now) }
        ensures lasting { IfNone result (lasting_at self.now xid.now ≡ None) }
        ensures working { IfNone result (working_at self.now xid.now ≡ None) }
        ensures given { IfNone result (self.now.given < MOST_GIVEN) }
        ensures served { IfSome result (λ fault. fault_of (Err fault) ≡ Some fault) }
    {
        if self.working_of(xid).is_some() || self.lasting_of(xid).is_some() {
            return Some(BeginFault::Duplicate);
        }
        if self.len() >= MOST_BRANCHES {
            return Some(BeginFault::Full);
        }
        if self.given >= MOST_GIVEN {
            return Some(BeginFault::Spent);
        }
        None
    }

    /// Keeps a branch at work that isn't known, all of it or nothing.
    fn keep(&mut self, xid: &Xid, working: Working) -> Result<(), AllocError>
        ensures ok { OnOk result (Keeps self.old xid.now working self.new) }
        ensures err { OnErr result (working_at self.old xid.now ≡ None → Stays self.old self.new) }
        ensures rooms { rooms_of self.new ≡ rooms_of self.old }
    {
        add_due(&mut self.due, xid, &working)?;
        match add(&mut self.working, xid.copied(), working) {
            Err(error) => {
                take_due(&mut self.due, xid, &working);
                Err(error)
            }
            Ok(()) => match add_time(&mut self.times, working.timestamp) {
                Err(error) => {
                    take(&mut self.working, xid);
                    take_due(&mut self.due, xid, &working);
                    Err(error)
                }
                Ok(()) => Ok(()),
            },
        }
    }

    /// Marks a branch at work, unless it is marked: then it is rollback-only. For any other XID nothing changes.
    pub fn mark(&mut self, xid: &Xid, code: Code)
        ensures marks { FollowsAlways self.old (λ s. marked_with code s xid.now) self.new }
        ensures rooms { rooms_of self.new ≡ rooms_of self.old }
    {
        if let Some(working) = self.working_of(xid) {
            take_due(&mut self.due, xid, &working);
            mark_working(&mut self.working, xid, code);
        }
    }
}

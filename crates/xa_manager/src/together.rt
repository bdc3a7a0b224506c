//! Calls that are asked together: those that log, on XIDs of their own, share one write and one sync.
ghost use Rattle.std.specs.Prelude.{◌≡◌, ◌≢◌, ◌≤◌, length, map, [], IfOk, vec_capacity};
ghost use Rattle.std.specs.List.{AllByRecursion};
ghost use Rattle.xa_assoc.specs.Company.{company_of};
ghost use Rattle.xa_model.specs.Events.{IsAsked};
ghost use Rattle.xa_manager.specs.{Acts.GiveRoomsBack, GroupAnswers.TakeAnswers};
ghost use Rattle.xa_manager.specs.{GroupAnswers.told, Believed.Together.IsGroup};

use crate::done::Done;
use crate::manager::Manager;
use crate::row::Row;
use crate::tables::Tables;
use std::alloc::AllocError;
use xa_disk::Disk;
use xa_frame::{Reply, Request};
use xa_model::Appending;
use xa_xid::Xid;

/// A call of a session.
#[derive(Debug, Drop)]
pub struct Asked {
    pub session: u64,
    pub request: Request,
}

/// The calls of a group, in the order in which their records are appended: the prepares first, so that what each keeps
/// gets its room beside the others', and is used before any other table's change.
#[derive(Debug, Drop)]
pub(crate) struct Together {
    pub members: Vec<Joining>,
    pub bodies: Vec<Vec<u8>>,
    /// How many bytes their records have.
    pub bytes: usize,
    /// The XIDs of the prepares.
    pub prepares: Vec<Xid>,
}

/// A call of a group: which of those that were asked it is, its row and its XID.
#[derive(Debug, Drop)]
pub(crate) struct Joining {
    pub at: usize,
    pub row: Row,
    pub xid: Xid,
}

impl<D: Disk> Manager<D> {
    // The calls that form a group. Nothing changes.
    pub(crate) fn group_of(&self, calls: &[Asked]) -> Result<Together, AllocError>
        requires asked { AllByRecursion (λ c. IsAsked c.request) calls.now }
        ensures { IfOk result (IsGroup D.Disk self.now calls.now) }
    {
        let alloc = self.tables.alloc;
        let mut together = Together {
            members: Vec::new(alloc),
            bodies: Vec::new(alloc),
            bytes: 0,
            prepares: Vec::new(alloc),
        };
        self.gather(calls, true, &mut together)?;
        self.gather(calls, false, &mut together)?;
        Ok(together)
    }
}

impl Tables {
    /// What the device's answer makes of a group's branches, whose prepares have their rooms.
    pub(crate) fn take_together(&mut self, together: &Together, answer: Appending)
        ensures took { answer ≢ Appending.Lost → TakeAnswers self.old together.now.members.items answer self.new }
        ensures gave { answer ≡ Appending.Lost → GiveRoomsBack self.old together.now.prepares.items self.new }
        ensures company { company_of self.new.sessions ≡ company_of self.old.sessions }
    {
        match answer {
            Appending::Lost => self.give_rooms_back(&together.prepares),
            Appending::Kept | Appending::Refused => self.take_answers(&together.members, answer),
        }
    }
}

// What each call of a group is replied, if this became of their records.
pub(crate) fn tell(members: &[Joining], answer: Appending, replies: &mut Vec<(usize, Reply)>)
    requires none { replies.old.items ≡ [] }
    requires room { length members.now ≤ vec_capacity replies.old }
    ensures { replies.new.items ≡ map (told answer) members.now }
{
    'members: for member in members {
        let done = Done::appended(answer, member.row.refused_code());
        replies.push_reserved((member.at, done.reply));
    }
}

//! What the device's answer to a group makes of the branches.
ghost use Rattle.std.specs.Prelude.{◌≡◌};
ghost use Rattle.xa_assoc.specs.Company.{company_of};
ghost use Rattle.xa_manager.specs.GroupAnswers.{TakeAnswers};

use crate::tables::Tables;
use crate::together::Joining;
use xa_model::Appending;

impl Tables {
    /// What the answer makes of each, one after another. If the records were lost, nothing is said: their rooms have to
    /// be given back.
    pub fn take_answers(&mut self, members: &[Joining], answer: Appending)
        ensures takes { TakeAnswers self.old members.now answer self.new }
        ensures company { company_of self.new.sessions ≡ company_of self.old.sessions }
    {
        'members: for member in members {
            self.take_answer(member.row, &member.xid, answer);
        }
    }
}

ghost use Rattle.std.specs.Prelude.{◌≡◌, nat_lt, is_err, IfOk, IfErr, OnOk, OnErr};
ghost use Rattle.xa_codes.specs.declared.codes.TheConstants.{XAER_INVAL};
ghost use Rattle.xa_model.specs.{State.count, TimeLimits.runs_out, TimeLimits.ticked};
ghost use Rattle.xa_branch.specs.Follows.{Follows, InEach, InSound};
ghost use Rattle.xa_branch.specs.Room.{rooms_of};

use crate::branches::Branches;
use crate::changes::mark_working;
use crate::due::next_due;
use xa_codes::{Code, XA_RBTIMEOUT, XAER_INVAL};

/// How time passes: no clock is read, and moments are told in seconds.
impl Branches {
    /// Tells the moment: each unmarked branch at work with a limit that is as old as that is marked XA_RBTIMEOUT. The
    /// number of these is returned. A moment below the last one is refused with XAER_INVAL, and changes nothing.
    /// Branches that don't run out of time aren't visited. Takes no memory.
    pub fn tick(&mut self, moment: u64) -> Result<u64, Code>
        ensures early { InEach self.old (λ s. is_err result ≡ nat_lt moment s.moment) }
        ensures code { IfErr result (λ code. code ≡ XAER_INVAL) }
        ensures err { OnErr result (self.new ≡ self.old) }
        ensures number { InSound self.old (λ s. IfOk result (λ n. n ≡ count (runs_out moment) s.branches)) }
        ensures ok { OnOk result (Follows self.old (λ s. ticked s moment) self.new) }
        ensures rooms { rooms_of self.new ≡ rooms_of self.old }
    {
        if moment < self.moment {
            return Err(XAER_INVAL);
        }
        let mut number: u64 = 0;
        while let Some(xid) = next_due(&mut self.due, moment) {
            mark_working(&mut self.working, &xid, XA_RBTIMEOUT);
            number = number.saturating_add(1);
        }
        self.moment = moment;
        Ok(number)
    }
}

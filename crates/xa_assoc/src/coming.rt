ghost use Rattle.std.specs.Prelude.{◌≡◌, false, pos, IfOk, IfErr, OnOk, OnErr};
ghost use Rattle.xa_frame.specs.declared.body.Body.TheVariants as body;
ghost use Rattle.xa_codes.specs.declared.detail.Detail.TheVariants as detail;
ghost use Rattle.xa_codes.specs.declared.codes.TheConstants.{XAER_RMERR};
ghost use Rattle.xa_model.specs.Answer.{plain, carrying, detailed};
ghost use Rattle.xa_model.specs.Associations.{connect_by, open_by, close_by, hang_up_by};
ghost use Rattle.xa_assoc.specs.Company.{company_of, Gains, Loses};
ghost use Rattle.xa_assoc.specs.{Refusals.is_memory, Refusals.IsBare, Seats.seat_at};
ghost use Rattle.xa_assoc.specs.Sessions.{Follows, Refuses, Replies, Stays};

use crate::fault::ConnectFault;
use crate::free::first_free;
use crate::refusals::{close_refusal, connect_refusal};
use crate::seat::Seat;
use crate::sessions::Sessions;
use xa_frame::Reply;

/// How sessions come and go.
impl Sessions {
    /// The number of a new session: the least that is free.
    pub fn connect(&mut self) -> Result<u64, ConnectFault>
        ensures number { IfOk result (λ n. Replies self.old connect_by (carrying (body.Number n))) }
        ensures ok { OnOk result (Follows self.old (λ s. (connect_by s).after) self.new) }
        ensures full { result ≡ Err ConnectFault.Full → Refuses self.old connect_by (detailed XAER_RMERR detail.Limit) }
        ensures err { OnErr result (Stays self.old self.new) }
        ensures came { IfOk result (λ n. Gains (company_of self.old) n (company_of self.new)) }
        ensures same { OnErr result (company_of self.new ≡ company_of self.old) }
    {
        if connect_refusal(self.seats.len()).is_some() {
            return Err(ConnectFault::Full);
        }
        let index = match first_free(&self.free) {
            Some(index) if !self.is_connected(index + 1) => index,
            // Fewer than 1,024 are connected, so one is free; and no number is given twice, whatever the bits say.
            _ => return Err(ConnectFault::Full),
        };
        if self.add_seat(index).is_err() {
            return Err(ConnectFault::Memory);
        }
        Ok(index + 1)
    }

    /// Takes the session's seat away, if it is connected, and gives it back: its associations are gone.
    pub fn hangup(&mut self, session: u64) -> Option<Seat>
        ensures seat { result ≡ seat_at self.old session }
        ensures after { Follows self.old (λ s. (hang_up_by s session).after) self.new }
        ensures gone { Loses (company_of self.old) session (company_of self.new) }
    {
        self.take_seat(session)
    }

    #[tactic(auto, using(crate::proofs::Companies::set_company))]
    pub fn open(&mut self, session: u64)
        ensures after { Follows self.old (λ s. (open_by s session).after) self.new }
        ensures company { company_of self.new ≡ company_of self.old }
    {
        self.set_opened(session);
    }

    /// A session with an association of its own isn't closed. With a session that is closed its scan ends.
    #[tactic(auto, using(crate::proofs::Companies::set_company))]
    pub fn close(&mut self, session: u64) -> Result<(), Reply>
        ensures refused { IfErr result (Refuses self.old (λ s. close_by s session)) }
        ensures served { IfErr result (λ reply. is_memory reply.detail ≡ false) }
        ensures bare { IfErr result IsBare }
        ensures closed { OnOk result (Replies self.old (λ s. close_by s session) (plain (pos 0))) }
        ensures after { Follows self.old (λ s. (close_by s session).after) self.new }
        ensures company { company_of self.new ≡ company_of self.old }
    {
        if let Some(reply) = close_refusal(self.holds_any(session)) {
            return Err(reply);
        }
        self.set_closed(session);
        Ok(())
    }
}

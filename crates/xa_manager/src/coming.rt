ghost use Rattle.std.specs.Prelude.{◌≡◌, ◌≢◌, Result, Err, ℕ, pos, IfOk, OnErr};
ghost use Rattle.xa_model.specs.Answer.{plain};
ghost use Rattle.xa_model.specs.Associations.{connect_by, open_by, close_by, hang_up_by};
ghost use Rattle.xa_manager.specs.Believed.Answered.{connect_reply};
ghost use Rattle.xa_assoc.specs.Company.{company_of, Gains, Loses};
ghost use Rattle.xa_assoc.specs.Refusals.{IsBare};
ghost use Rattle.xa_branch.specs.Room.{rooms_of};
ghost use Rattle.xa_manager.specs.Tables.{TablesFollow, TablesFollowDown, TablesStay, TablesStayDown};

use crate::tables::Tables;
use xa_assoc::ConnectFault;
use xa_codes::XA_OK;
use xa_frame::Reply;

/// How sessions come and go: the rows of the association table without a branch, which a manager answers also while it
/// is down.
impl Tables {
    /// The number of a new session, the least that is free.
    pub fn connect(&mut self) -> Result<u64, ConnectFault>
        ensures ok { result ≢ Err ConnectFault.Memory
            → TablesFollow self.old (λ s. connect_by s) (connect_reply result) self.new }
        ensures memory { result ≡ Err ConnectFault.Memory → TablesStay self.old self.new }
        ensures down { result ≢ Err ConnectFault.Memory
            → TablesFollowDown self.old (λ s. connect_by s) (connect_reply result) self.new }
        ensures memory_down { result ≡ Err ConnectFault.Memory → TablesStayDown self.old self.new }
        ensures came { IfOk result (λ n. Gains (company_of self.old.sessions) n (company_of self.new.sessions)) }
        ensures same { OnErr result (company_of self.new.sessions ≡ company_of self.old.sessions) }
        ensures rooms { rooms_of self.new.branches ≡ rooms_of self.old.branches }
    {
        self.sessions.connect()
    }

    /// The session is no longer connected, its associations end, and their branches are marked.
    pub fn hangup(&mut self, session: u64)
        ensures up { TablesFollow self.old (λ s. hang_up_by s session) (plain (pos 0)) self.new }
        ensures down { TablesFollowDown self.old (λ s. hang_up_by s session) (plain (pos 0)) self.new }
        ensures gone { Loses (company_of self.old.sessions) session (company_of self.new.sessions) }
        ensures rooms { rooms_of self.new.branches ≡ rooms_of self.old.branches }
    {
        if let Some(seat) = self.sessions.hangup(session) {
            self.branches.hang_up(&seat.own, seat.active.as_ref());
        }
    }

    pub fn open(&mut self, session: u64) -> Reply
        ensures up { TablesFollow self.old (λ s. open_by s session) result self.new }
        ensures down { TablesFollowDown self.old (λ s. open_by s session) result self.new }
        ensures company { company_of self.new.sessions ≡ company_of self.old.sessions }
        ensures rooms { rooms_of self.new.branches ≡ rooms_of self.old.branches }
        ensures bare { IsBare result }
    {
        self.sessions.open(session);
        Reply::plain(XA_OK)
    }

    /// A session with an association of its own isn't closed.
    pub fn close(&mut self, session: u64) -> Reply
        ensures up { TablesFollow self.old (λ s. close_by s session) result self.new }
        ensures down { TablesFollowDown self.old (λ s. close_by s session) result self.new }
        ensures company { company_of self.new.sessions ≡ company_of self.old.sessions }
        ensures rooms { rooms_of self.new.branches ≡ rooms_of self.old.branches }
        ensures bare { IsBare result }
    {
        match self.sessions.close(session) {
            Err(reply) => reply,
            Ok(()) => Reply::plain(XA_OK),
        }
    }
}

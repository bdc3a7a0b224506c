ghost use Rattle.std.specs.Prelude.{◌≡◌};
ghost use Rattle.xa_manager.specs.Turns.{reply_to};

use xa_codes::{Code, Detail, XA_OK, XAER_RMFAIL};
use xa_frame::Reply;
use xa_model::{Appending, Outcome};

/// What a call comes to: its reply, and what the device did.
#[derive(Debug, Drop)]
pub struct Done {
    pub reply: Reply,
    pub outcome: Outcome,
}

impl Done {
    /// For a call that made no device call.
    pub fn now(reply: Reply) -> Done
        ensures { result ≡ record { reply = reply; outcome = Outcome.Quiet } }
    {
        Done {
            reply,
            outcome: Outcome::Quiet,
        }
    }

    /// For a call that appended a record: the code of one that was refused is the call's own.
    pub fn appended(answer: Appending, refused: Code) -> Done
        ensures { result ≡ record { reply = reply_to refused answer; outcome = Outcome.Appended answer } }
    {
        let reply = match answer {
            Appending::Kept => Reply::plain(XA_OK),
            Appending::Refused => Reply::detailed(refused, Detail::Device),
            Appending::Lost => Reply::detailed(XAER_RMFAIL, Detail::Device),
        };
        Done {
            reply,
            outcome: Outcome::Appended(answer),
        }
    }
}

ghost use Rattle.std.specs.Prelude.{◌≡◌};
ghost use Rattle.xa_codes.specs.declared.detail.Detail.TheVariants as detail;
ghost use Rattle.xa_frame.specs.Limits.{IsReply};
ghost use Rattle.xa_manager.specs.Believed.Answered.{connect_reply, memory_code};
ghost use Rattle.xa_model.specs.Answer.{detailed};

use xa_assoc::ConnectFault;
use xa_codes::{Code, Detail, TMONEPHASE, XA_RETRY, XAER_RMERR, XAER_RMFAIL};
use xa_frame::{Body, Reply, Request};

/// The reply that a connect's result stands for. Takes no memory.
pub fn connect_reply(connected: Result<u64, ConnectFault>) -> Reply
    ensures value { result ≡ connect_reply connected }
    ensures limits { IsReply result }
{
    match connected {
        Ok(number) => Reply::carrying(Body::Number(number)),
        Err(ConnectFault::Full) => Reply::detailed(XAER_RMERR, Detail::Limit),
        Err(ConnectFault::Memory) => Reply::detailed(XAER_RMFAIL, Detail::Memory),
    }
}

/// The reply to a request for which there was no memory. Takes none.
pub fn memory_reply(request: &Request) -> Reply
    ensures value { result ≡ detailed (memory_code request.now) detail.Memory }
    ensures limits { IsReply result }
{
    Reply::detailed(memory_code(request), Detail::Memory)
}

/// The code that says that there was no memory. A commit in two phases, for which only a room may need memory, is
/// asked again, since its branch stays in doubt.
pub(crate) fn memory_code(request: &Request) -> Code
    ensures { result ≡ memory_code request.now }
{
    match request {
        Request::Commit { flags, .. } => {
            if flags & TMONEPHASE == TMONEPHASE {
                XAER_RMFAIL
            } else {
                XA_RETRY
            }
        }
        _ => XAER_RMFAIL,
    }
}

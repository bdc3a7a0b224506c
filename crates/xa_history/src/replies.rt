ghost use Rattle.std.specs.Prelude.{◌≡◌};
ghost use Rattle.xa_assoc.specs.Refusals.{is_memory};
ghost use Rattle.xa_history.specs.Believed.Book.{placed};

use xa_codes::Detail;
use xa_frame::Reply;

/// Whether it says that there was no memory.
pub fn is_memory(reply: &Reply) -> bool
    ensures { result ≡ is_memory reply.now.detail }
{
    match reply.detail {
        Detail::Memory => true,
        _ => false,
    }
}

/// The reply, with its place in a history.
pub fn placed(reply: Reply, place: u64) -> Reply
    ensures { result ≡ placed place reply }
{
    Reply { place, ..reply }
}

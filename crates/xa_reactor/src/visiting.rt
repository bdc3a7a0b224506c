//! A call that a loop makes by a session of its own.
ghost use Rattle.xa_reactor.specs.Aside.{HasVisited};

use crate::reception::Reception;
use std::alloc::Global;
use xa_assoc::ConnectFault;
use xa_desk::answer;
use xa_frame::Reply;

/// Connects a session, asks for what the content of a frame asks for, and hangs the session up.
pub(crate) fn visit<D: Reception>(
    alloc: Global,
    door: &mut D,
    content: &[u8],
) -> Result<Reply, ConnectFault>
    ensures { HasVisited D.connected D.called D.left content.now door.old result door.new }
{
    let session = door.connect()?;
    let reply = answer(alloc, door, session, content);
    door.hangup(session);
    Ok(reply)
}

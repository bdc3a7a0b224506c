//! A room: a manager that keeps a receipt of each event that its own manager answered, and answers just what that does. So a
//! sequencer over a room, `Sequencer<Room<M, S>, S>`, is one whose history can be audited: against the receipts that those who
//! asked were given. What a receipt is, and what is asked of a manager, is said in `xa_history` and `xa_sequencer`.
//!
//! - `room`: `Room`; `manages`: what it does as a manager
//! - `receipts`: what is kept; `copying`: `copied_reply`, the copy of a reply
//! - `auditing`: `audit`, whether the receipts that were told are the room's, and `AuditFault`; `comparing`: two receipts
//! - `uptime`: `Uptime`, for how long a server is up
#![tactic(auto)]

mod auditing;
mod comparing;
mod copying;
mod manages;
mod receipts;
mod room;
mod uptime;

pub use auditing::{AuditFault, audit};
pub use copying::copied_reply;
pub use room::Room;
pub use uptime::Uptime;

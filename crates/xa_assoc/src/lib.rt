//! The session's part of the association table (X/Open C193): which sessions are connected and opened, the branches
//! that they are associated with, and where their recovery scans stand. What is known of the branches is `xa_branch`'s;
//! if both are asked, its facts are handed in.
//!
//! - `sessions`: `Sessions`, the table, and what is asked of it; `seat`: `Seat`, what it keeps of one session
//! - `refusing`: how a start and an end are refused, by the table and the facts of the branch
//! - `refusals`: the same by facts alone, as `connect_refusal`, `close_refusal`, `start_refusal`, `join_refusal`,
//!   `resume_refusal`, `end_refusal` and `loose_refusal`
//! - what changes, once nothing is refused: `coming`, how sessions come and go, with `ConnectFault` of `fault`; `work`,
//!   how they come to work for branches and leave them; `scans`, their recovery scans; `timeouts`, their time limits;
//!   `restarts`, what a restart leaves
//! - below these: `acts`, a seat changes; `free`, the numbers that no session has, a bit each
#![tactic(auto)]

mod acts;
mod coming;
mod fault;
mod free;
mod refusals;
mod refusing;
mod restarts;
mod scans;
mod seat;
mod sessions;
mod timeouts;
mod work;

pub use fault::ConnectFault;
pub use refusals::{
    close_refusal, connect_refusal, end_refusal, join_refusal, loose_refusal, resume_refusal,
    start_refusal,
};
pub use seat::Seat;
pub use sessions::Sessions;

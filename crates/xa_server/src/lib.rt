//! A server: each connection of a listener is a session of one manager, by event loops.
//!
//! - `serving`: `serve`, which opens a manager over two files and serves it, by a `Service`; `ready`: the manager and what listens
//! - `users_file`: the file that says who may log in; `UnreadUsers`, why it says nobody
//! - `socket_access`: `SocketAccess`, who may connect to its Unix socket; `group`: a group's number
//! - `listening`: what listens where a server is to; `listens`: `Listens`, what listens on the ports of a machine and at
//!   its paths
//! - `engine`: `loop_manager`, which has event loops serve a manager's sessions, each at its `post`, by a handle of the
//!   sequencer that they share: what they were told is the history, each entry once; `door`: the post as its connections'
//!   door; `asking`: what an ask asks; `logging`: which calls may move the log's end; `Looped`, what they tell
//! - `workers`: `run_workers`, the same over a room, with an audit at the end, and `Worked`; `keeping`: what a loop keeps of what
//!   it was told: `Nothing`, or `Receipts` (`receipts`), which come to a `Report` (`report`); `gate`: `Gate`, which is told of each
//!   call, and `OpenGate`; `audited`: `Audited`, what it tells of the history, and `audited_lines`, the lines that show it;
//!   `history`: the history as a script, and its replies, in two files; `history_file`: `HistoryFile`, one of them
//! - `serve_fault`: `ServeFault`, why nothing was served; `log_file`: `LogFile`, a file that it names; `fault`:
//!   `ServerFault`, why nothing is told of it
//! - `laws`: `looped_promises`, `audited_promises`, what is promised of what was served; `serves_at_each_moment`, of what was
//!   served by then
#![tactic(auto)]

mod asking;
mod audited;
mod door;
mod engine;
mod fault;
mod gate;
mod group;
mod history;
mod history_file;
mod keeping;
mod laws;
mod listening;
mod listens;
mod log_file;
mod logging;
mod post;
mod ready;
mod receipts;
mod report;
mod serve_fault;
mod serving;
mod socket_access;
mod users_file;
mod workers;

pub use audited::{Audited, audited_lines};
pub use engine::{Looped, loop_manager};
pub use fault::ServerFault;
pub use gate::{Gate, OpenGate};
pub use history_file::HistoryFile;
pub use laws::{audited_promises, looped_promises, serves_at_each_moment};
pub use listens::Listens;
pub use log_file::LogFile;
pub use report::Report;
pub use serve_fault::ServeFault;
pub use serving::serve;
pub use socket_access::SocketAccess;
pub use users_file::UnreadUsers;
pub use workers::{Worked, run_workers};

//! The manager: what a session asks is answered, and acts, as one step of the sequential resource manager.
//!
//! The modules:
//!
//! - `manager`: `Manager`, its calls; `calls`, the way of a request; `early`, the refusals before its row; `replies`:
//!   `connect_reply` and `memory_reply`, those to a connect and to a lack of memory
//! - the rows, by table: of sessions in `coming`, of associations in `work`, of branches in `completion`, of the
//!   operator in `operator`, of gets and puts in `data`, of recovery scans in `recovery`, of time limits in `time_limits`,
//!   of the list of known branches in `known_list`
//! - `tables`: what a manager keeps; `facts` and `refusals`, what rows ask of it, `acts`, what they change
//! - rows that log: `row`, `Row`; `plan`, `Plan`, what one comes to before its append; `logging`, its way, `journal`, how
//!   its record comes into the log, and `answered`, what the tables make of the device's answer; `log_space`, the room
//!   that the log keeps free; `doubt`: `Doubt`, what is kept of a record that was lost; `done`, what a call comes to
//! - calls that are asked together, and share one append: `together`, `Asked`, and how a group is answered; `gathering`,
//!   which calls form one; `prepares`, the rooms of its prepares; `answers`, what becomes of its branches
//! - a group whose sync is made apart: `pending`, `PendingGroup`, whose records are written; `beside`, what is answered
//!   meanwhile (`working`, the rows of calls that log nothing); `finish`, how its calls are answered
//! - a boot: `settings`, `Settings`; `opening`, `restarting` or `trimming`, how it begins; `boots`, what is made
//!   ready for it, and `rebuilding` its tables, of writes that are freed many together (`spent`); `first_records`, how an
//!   opening logs it; `fault`: `ManagerFault`, why there is no manager, and `refused`: `RefusedOpening`, with the disks
//! - `laws`: `read_leaves`, `read_stands`, `crash_leaves` and `pending_leaves`, that a read and a crash leave the records
//!   of the state;
//!   `files_last`, what these come to; `reached_promises`, `one_promises` and `begun_is_reached`, what is promised of
//!   histories; `memory_is_trusted`, that disks in memory meet the premises
//! - `status`: how a manager is doing; `planning`: planned faults in memory
#![tactic(auto)]

mod acts;
mod answered;
mod answers;
mod beside;
mod boots;
mod calls;
mod checkpointed;
mod coming;
mod completion;
mod data;
mod done;
mod doubt;
mod early;
mod facts;
mod fault;
mod finish;
mod first_records;
mod gathering;
mod journal;
mod known_list;
mod laws;
mod log_space;
mod logging;
mod manager;
mod opening;
mod operator;
mod pending;
mod plan;
mod planning;
mod prepares;
mod rebuilding;
mod recovery;
mod refusals;
mod refused;
mod replies;
mod restarting;
mod row;
mod settings;
mod spent;
mod status;
mod tables;
mod time_limits;
mod together;
mod trimming;
mod work;
mod working;

pub use doubt::Doubt;
pub use fault::ManagerFault;
pub use laws::{
    begun_is_reached, crash_leaves, files_last, memory_is_trusted, one_promises, pending_leaves,
    reached_promises, read_leaves, read_stands,
};
pub use manager::Manager;
pub use pending::PendingGroup;
pub use refused::RefusedOpening;
pub use replies::{connect_reply, memory_reply};
pub use settings::Settings;
pub use together::Asked;

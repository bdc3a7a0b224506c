//! Histories: what a manager promises of each event, and of which history the event is an entry. Whoever asks a manager
//! keeps its history: a room of `xa_room` each entry, a sequencer of `xa_sequencer` how many there are.
//!
//! - `start`: `Start`, where a history begins
//! - `entry`: `Entry`, one event of a history; `receipt`: `Receipt`, what whoever asked gets of it
//! - `replies`: `is_memory`, whether a reply says that there was no memory; `placed`, a reply with its place
#![tactic(auto)]

mod entry;
mod receipt;
mod replies;
mod start;

pub use entry::Entry;
pub use receipt::Receipt;
pub use replies::{is_memory, placed};
pub use start::Start;

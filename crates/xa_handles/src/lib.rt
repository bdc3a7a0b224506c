//! Handles: threads share one sequencer behind a lock, and each asks at a handle of its own. What is asked is carried out
//! at most once, also if one thread leaves it for another, by tokens of the history.
//!
//! - `shared`: `SharedSequencer`, a sequencer behind a lock; `locked`: what it protects; `held`: `Held`, the lock while a
//!   thread has it
//! - `handle`: `Handle`, a thread's door; `asker`: `Asker`, its share of the history, by which it asks; `noting`: what became
//!   of asks
//! - `letter`: `Letter`, a call that a thread posted for whichever of them has the lock, or what became of it; `mail`: the
//!   letters of a group; `trays`: letters that came back, until their threads take them
//! - `tally`: `Tally`, what a thread counts of that; `put_counts`, what all have counted
//!
//! What the lock protects stands for a history whose entries are the keeper's, at each release: so nothing is carried out
//! there that nobody asked for. A letter holds a ticket, or the entry that it became: so none is carried out twice.
#![tactic(auto)]

mod asker;
mod handle;
mod held;
mod letter;
mod locked;
mod mail;
mod noting;
mod shared;
mod tally;
mod trays;

pub use asker::Asker;
pub use handle::Handle;
pub use held::Held;
pub use letter::{Content, Letter};
pub use shared::SharedSequencer;
pub use tally::{Tally, put_counts};

//! A sequencer: a manager whose events are numbered, one after another, as entries of one history. The history exists in
//! proofs alone: what is kept of it is how many entries it has, so that an event takes no memory for it.
//!
//! - `manages`: `Manages`, a manager with group commit, whose sync may be made apart; `manager`: that the one
//!   over a log does it
//! - `sequencer`: `Sequencer`, which asks its manager and numbers each event
//! - `together`: calls that are asked together, as a group; `numbers`: whether there are numbers left
//! - `laws`: `goes_on_twice`, that histories go on with the entries of one event and of another
//!
//! What an event promises, and of which history, is said in `xa_history`. A room of `xa_room` asks the same of a manager,
//! and keeps each entry. Threads share a sequencer by the handles of `xa_handles`.
#![tactic(auto)]

mod laws;
mod manager;
mod manages;
mod numbers;
mod sequencer;
mod together;

pub use laws::goes_on_twice;
pub use manages::Manages;
pub use sequencer::Sequencer;

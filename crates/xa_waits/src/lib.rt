//! How the server's threads wait: for the lock of a sequencer, for a group's sync, and for events. Each way is one of a few
//! numbers, all of which stand in `waits` with what they are for (docs/DECISIONS.md, "How threads wait").
//!
//! - `waits`: the numbers
//! - `taking`: `take`, how a thread takes a lock that is released soon
//! - `patience`: `Patience`, whether it is worth a loop's time to look for more requests before it logs
#![tactic(auto)]

mod patience;
mod taking;
mod waits;

pub use patience::Patience;
pub use taking::take;
pub use waits::{
    COMPANY, FEW_EVENTS, GATHERS, LETS, LOOKS, LOOKS_AHEAD, MANY_TURNS, MORE_TURNS, MOST_SKIPS,
    MOST_TRIES, MOST_TURNS, PAUSES, QUICK_GATHERS, REST, TRIES, YIELDS,
};

//! Event loops: few threads that serve the connections of a listener, each those that it is handed, at a door of its own.
//!
//! - `reception`: `Reception`, a door at which sessions connect, and calls are posted before they are answered; `watch`:
//!   `Watch`, whether replies told that the manager behind the doors went down, `seen`: `Seen`, the same of one loop;
//!   `cause`: why it did
//! - `loops`: `run_loops`, a thread for each door; `LoopFault`, why it didn't, or not to the end
//! - `socket`, `listener`: a connection's socket, and what connections come from
//! - `peer`: a connection with its socket, and its turn; `wishing`: one that asks something of the server itself; `peers`:
//!   those of a loop, whose turns come one after another
//! - `logging_in`: a connection that logs in, at most `MOST_TRIES` times; `failures`: how many failed, by where they came from;
//!   `place`: at most `MOST_STRANGERS` haven't logged in
//! - `ask`: a request that a connection brought in; `together`: the turns of a round, with one call at the door for all
//!   requests that wait for no device, whose replies are sent then, and another for the rest, which are posted before
//! - `tending`: a loop, round by round (`round`, `timing`, `clock`, `tools`): while another loop holds up its answers, it
//!   takes in more requests, and for a while before it waits for a device; `beside`: what it does between
//!   rounds; `noticing`: what events tell it; `acceptor`: the one that accepts, `admission`: whom; `common`: what the loops
//!   share, with a `mailbox` for each
//! - `noted`: an operator's order, which is told of once it is answered; `allowance`: how many lines a loop may tell of them
//! - `trims`: when the log is trimmed, and `trimming` it; `ticks`: when the manager is told the time, and `ticking`;
//!   `visiting`: by a session of the loop's own; `visited`: what became of it
//! - `laws`: `places_are_kept`, `lines_are_few`, `ticks_are_due`, `trims_are_due`, `visits_are_told`, worked rows; of an allowance laws, too
#![tactic(auto)]

mod acceptor;
mod admission;
mod allowance;
mod ask;
mod attending;
mod beside;
mod cause;
mod clock;
mod common;
mod cuts;
mod cutting;
mod failures;
mod laws;
mod listener;
mod logging_in;
mod loops;
mod mailbox;
mod noted;
mod noticing;
mod orders;
mod peer;
mod peers;
mod place;
mod reception;
mod round;
mod seen;
mod socket;
mod tending;
mod ticking;
mod ticks;
mod timing;
mod together;
mod tools;
mod trimming;
mod trims;
mod visited;
mod visiting;
mod watch;
mod wishing;

pub use admission::{KEPT_OPEN, MOST_OPEN, MOST_STRANGERS};
pub use ask::Ask;
pub use common::Settings;
pub use laws::{lines_are_few, places_are_kept, ticks_are_due, trims_are_due, visits_are_told};
pub use listener::Listener;
pub use loops::{Ended, LoopFault, run_loops};
pub use reception::Reception;
pub use seen::Seen;
pub use socket::Socket;
pub use watch::Watch;

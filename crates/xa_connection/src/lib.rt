//! One connection without its socket: the bytes that come in are fed to it, it answers their frames one after another
//! at a door, and hands out the bytes of the replies, all in whatever cuts.
//!
//! - `connection`: `Connection`, and `MOST_INPUT`, the most bytes that it keeps of what came in
//! - `asked`: `Asked`, what the front asks for; `answering`: `Answering`, what an answer came to
//! - `front`: `Front`, what is at the front of the bytes that came in
//! - `buffer`: bytes that come at one end and go at the other
//! - `laws`: `carries`, of which frames what was fed and sent is made; `has_talked`, that with a door of its own a
//!   connection does what `serve` of `xa_desk` does over a reader and a writer
//!
//! Whose socket it is, and when that is ready, is for a caller to know: see `Connection` for the turns that it takes.
#![tactic(auto)]

mod answering;
mod asked;
mod buffer;
mod connection;
mod front;
mod laws;

pub use answering::Answering;
pub use asked::Asked;
pub use connection::{Connection, MOST_INPUT};
pub use front::Front;
pub use laws::{carries, has_talked};

//! One connection: a peer's frames go to a door, and the frames of its replies back.
//!
//! - `door`: the trait `Door`, what a connection's requests, its questions for the status and its hang-up go to
//! - `connection`: `serve`, which reads frames, asks the door and writes the replies until the connection ends, and
//!   hangs the session up; `serve_upto`, the same for a given number of frames; `MOST_FRAMES`; `answer`, the reply to
//!   a content; `make_frame`, the bytes of a reply's frame
//! - `served`: `Served`, how a connection ended
//!
//! docs/PROTOCOL.md has the format of frames and what ends a connection.
#![tactic(auto)]

mod connection;
mod door;
mod served;

pub use connection::{MOST_FRAMES, answer, make_frame, serve, serve_upto};
pub use door::Door;
pub use served::Served;

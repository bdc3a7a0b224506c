//! What a server is to serve, and where it is to listen: plain data, which whoever reads a command line makes, and a
//! server takes.
//!
//! - `at`: `At`, where it listens
//! - `service`: `Service`, what is to be served; `MOST_LOOPS`, `MOST_SERVED`
#![tactic(auto)]

mod at;
mod service;

pub use at::At;
pub use service::{MOST_LOOPS, MOST_SERVED, Service};

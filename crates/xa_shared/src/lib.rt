//! Bytes that several values have at once: the body of a record that a log will begin with, and the values in it.
//!
//! - `shared_bytes`: `SharedBytes`
#![tactic(auto)]

mod shared_bytes;

pub use shared_bytes::SharedBytes;

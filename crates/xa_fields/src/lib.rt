//! What frames and records are made of, in bytes: byte strings after their length, keys, values, directions, XIDs.
//! Each is spelled once here, and read once; numbers alone are `xa_bytes`'.
//!
//! - `reading`: `take_short`, `take_key`, `take_value`, `take_direction` and `take_xid`, the field at the front of some
//!   bytes, and the bytes after it; `MOST_SHORT`, the longest byte string with a length of one byte
//! - `fault`: `FieldFault`, why none stands there
//! - `key`: `Key`, which takes no memory
//! - `writing`: `put_short`, `put_value`, `put_direction` and `put_xid`, a field after what a vector holds;
//!   `put_length`, a length of two bytes
//! - `laws`: `one_field`, what is read is spelled there, and what is spelled is read
#![tactic(auto)]

mod fault;
mod key;
mod laws;
mod reading;
mod writing;

pub use fault::FieldFault;
pub use key::Key;
pub use laws::one_field;
pub use reading::{MOST_SHORT, take_direction, take_key, take_short, take_value, take_xid};
pub use writing::{put_direction, put_length, put_short, put_value, put_xid};

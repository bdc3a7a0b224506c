//! Who may ask for what: the role that a connection has shown, and what each role may ask.
//!
//! - `role`: `Role`, from the least to the most, and its name
//! - `asking`: `may_ask` and `may_order`, whether a connection may ask a manager, or the server itself, for this
//! - `laws`: `roles_are_told_apart`, worked rows, and that each role may ask what a lesser one may
#![tactic(auto)]

mod asking;
mod laws;
mod role;

pub use asking::{may_ask, may_order};
pub use laws::roles_are_told_apart;
pub use role::Role;

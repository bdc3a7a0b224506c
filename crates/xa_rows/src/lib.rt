//! What the tests of several crates have in common.
//!
//! - `table`: `first_wrong`, the first row of a table that isn't right; `are_alike`, whether a list is what is wanted
//! - `parts`: `Line`, `Play`, and the parts that many plays have
//! - `limits`: the greatest lengths and counts, as the documents state them
#![tactic(auto)]

mod limits;
mod parts;
mod table;

pub use limits::{
    BRANCHES, INFO_BYTES, KEY_BYTES, LEAST_LOG_BYTES, LOG_BYTES, LOOSE, PART_BYTES, SESSIONS,
    VALUE_BYTES, WRITES, XIDS,
};
pub use parts::{Line, NONE_LISTED, OK, P1, Play, RESTART};
pub use table::{are_alike, first_wrong};

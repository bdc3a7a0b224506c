//! XIDs: the names of transaction branches (X/Open C193), their order, their bytes and their text. Nothing here takes
//! memory.
//!
//! - `xid`: `Xid`, at most `XID_BYTES` bytes of its own, which contracts see as three parts; its order; and
//!   `XidFault`, why parts are no XID
//! - `bytes`: `Xid::put` and `Xid::take`, for the bytes that stand in frames and records
//! - `text`: `Xid::put_text` and `Xid::take_text`, for the text that stands in scripts and in the lines of a log
//! - `laws`: `one_spelling`, bytes and text determine the XID; `equal_is_same`, XIDs are equal if their parts are
//!
//! docs/PROTOCOL.md, "XIDs", has the same in words.
#![tactic(auto)]

mod bytes;
mod laws;
mod text;
mod xid;

pub use laws::{equal_is_same, one_spelling};
pub use text::MOST_TEXT;
pub use xid::{NULL_FORMAT, Xid, XidFault};

//! Texts are written whole, or it is known that they weren't: what `xa_play`, `xa_scan` and `xa_talk` print goes this
//! way, and the frames that `xa_desk` and `xa_talk` send.
//!
//! - `output`: `write_text`, which says of a writer that failed that what it had taken is a part of the text
#![tactic(auto)]

mod output;

pub use output::write_text;

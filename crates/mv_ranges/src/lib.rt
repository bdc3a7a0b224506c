//! Which keys scans have walked, absent ones too: over each key, the greatest timestamp of a scan that walked it. An
//! absent key has no versions that a read could mark, so under multiversion timestamp ordering (Bernstein, Hadzilacos
//! and Goodman, Concurrency Control and Recovery in Database Systems, 5.3) what was walked is kept by ranges.
//!
//! - `ranges`: `Ranges`, with its calls: the mark over a key, a scan of a range, and the low water, which gives back
//!   what matters to no branch above it
//! - `marks`: the boundaries of ranges, each with the mark of the keys from it on up to the next; `notes`: which
//!   boundaries each reader's ranges have
//! - `laws`: `worked_rows`, what the definitions make of a few ranges
#![tactic(auto)]

mod laws;
mod marks;
mod notes;
mod ranges;
#[cfg(test)]
mod tests;

pub use laws::worked_rows;
pub use ranges::Ranges;

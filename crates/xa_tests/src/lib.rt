//! Tests of what no clause says and the program doesn't show, of the crates below the manager: faults, records, versions,
//! logins, and readers, writers and clocks that fail. What is asked of the program is in tests/ (its README.md).
//!
//! - `faults`: the first fault of contents
//! - `records`: bodies of records; `record_limits`: those at their limits
//! - `chains`, `versions`: one key's versions, and all keys'
//! - `connections`: one connection whose reader or writer breaks; `doors`: what it is served by
//! - `ticks`: a clock that can't be read
//! - `logins`: a client logs in, or doesn't, over a reader and a writer
//! - `scram`: exchanges of SCRAM-SHA-256, and rows of the RFCs that it stands on
//! - `users`: documents of users, their faults, and logins
//! - `rows`: `none_wrong`
#![tactic(auto)]

mod doors;
#[cfg(test)]
mod tests;

//! Tests of what no clause says, of rooms, sequencers, handles and servers: what many sessions are answered, what an audit
//! finds, and connections that break.
//!
//! - `desks`: a manager to begin with
//! - `callers`: who asks at a new room, by handles; `told`: the receipts of what they were told
//! - `rooms`: what a room keeps, and what audits find; `crews`: callers at once; `broken`: a connection that breaks
//! - `meetings`: sessions at once, over connections that loops serve; `clients`: frames, and who sends them
//! - `posted`: calls that two handles post; `pending`: what a sequencer answers while a group is synced
//! - `rows`: `none_wrong`
#![tactic(auto)]

mod desks;
#[cfg(test)]
mod tests;

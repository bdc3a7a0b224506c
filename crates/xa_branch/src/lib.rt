//! The known branches: their timestamps, their marks, and how many associations each has, which of them are prepared or
//! were completed by the operator, and the states that follow from these (X/Open C193's branch table). Whose the
//! associations are is `xa_assoc`'s.
//!
//! What is kept, and what is asked of it:
//!
//! - `branches`: `Branches`, the table by XID, with how many timestamps this boot gave; and what is asked of it
//! - `working`: `Working`, a branch at work; `kind`: `Kind`, of one association
//! - `lasting`: `Lasting`, what of a branch outlives the boot: it is in doubt, or was completed by the operator
//! - `known`: `Known`, what is known of an XID; `state`: `State`, the state that follows
//! - `refusals`: `unprepared_refusal`, `two_phase_refusal`, `rollback_refusal` and `doom_refusal`, by what is known of a
//!   branch alone
//! - `low_water`: `Branches::low_water`, the timestamp below which nobody works
//! - `recovery`: `Branches::list_after`, what recovery lists; `known_list`: `Branches::known_after`, the known branches
//! - `checkpointed`: `Branches::in_doubt` and `decided`, what a checkpoint writes of branches
//!
//! What changes:
//!
//! - `acts`: a branch begins, or is marked; `fault`: `BeginFault`, why it doesn't begin
//! - `ticking`: the moment is told, and branches run out of time; `due`: when they do, in order
//! - `associations`: joins, suspensions, resumes, ends, and what a broken session leaves behind
//! - `completion`: a branch is prepared, completed, forgotten. Room is made first, for one or for several at once, so
//!   that what follows the log can't fail
//! - `restoring`: what lasted is put into new branches
//! - `changes`: how the maps change, below all of these
//! - `laws`: `restored_stand`, what is restored stands for what lasted; `worked_states`, worked rows
#![tactic(auto)]

mod acts;
mod associations;
mod branches;
mod changes;
mod checkpointed;
mod completion;
mod due;
mod fault;
mod kind;
mod known;
mod known_list;
mod lasting;
mod laws;
mod low_water;
mod recovery;
mod refusals;
mod restoring;
mod state;
mod ticking;
mod working;

pub use branches::Branches;
pub use fault::BeginFault;
pub use kind::Kind;
pub use known::Known;
pub use lasting::Lasting;
pub use laws::{restored_stand, worked_states};
pub use refusals::{doom_refusal, rollback_refusal, two_phase_refusal, unprepared_refusal};
pub use state::State;
pub use working::Working;

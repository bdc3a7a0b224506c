//! What the operator may do with a branch, by its state alone: decide it if it is in doubt, and have it forgotten
//! if he completed it; and what a commit or a rollback is answered after his decision (X/Open C193: heuristic
//! completion).
//!
//! - `heuristics`: `decide` and `forget`, which give the record to log or the code that refuses, and `answer_completed`
//!
//! They keep nothing and take no memory: `xa_branch` tells which state a branch is in, and what becomes of the
//! record that they give is the manager's.
#![tactic(auto)]

mod heuristics;

pub use heuristics::{answer_completed, decide, forget};

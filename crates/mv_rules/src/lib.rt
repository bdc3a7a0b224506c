//! The versions of all keys under multiversion timestamp ordering (Bernstein, Hadzilacos and Goodman,
//! Concurrency Control and Recovery in Database Systems, 5.3): what a branch reads at a key, when its write
//! comes too late, and what becomes of its writes.
//!
//! Contracts speak of a history: a list of writes with their fates and a list of answered reads. `StandsFor`
//! says which histories a [`Records`] stands for, and each call's clauses hold for every one of them.
//!
//! - `records`: `Records`, with its calls: get, put, settle, and the low water, which gives back what no read will see;
//!   `rebuilding`: how they are rebuilt from what lasted, `place`: where a value stands in its record's body;
//!   `committed`: what of them lasts
//! - `answers`: `Got` and `Put`, what a get and a put answer
//! - `own`: `Own`, a key of a branch, and the notes of what each branch has written and read; `own_key`: `OwnKey`, the
//!   copy of a key there; `writes`: what a branch leaves, key by key
//! - `verdict`: what a put has to do; `steps`: what a read, a write and a settling do to one chain
//! - `laws`: `one_history`, that the histories of `xa_model` say the same; `committed_lasts`, that what is committed is
//!   what lasts; `restoring`, what is rebuilt from a log; `reads_leave_nothing`, that branches which only read absent
//!   keys leave nothing
#![tactic(auto)]

mod answers;
mod committed;
mod laws;
mod own;
mod own_key;
mod place;
mod rebuilding;
mod records;
mod steps;
mod verdict;
mod writes;

pub use answers::{Got, Put};
pub use laws::{committed_lasts, one_history, reads_leave_nothing, restoring};
pub use own::Own;
pub use own_key::OwnKey;
pub use records::Records;

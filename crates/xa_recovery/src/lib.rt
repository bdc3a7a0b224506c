//! What the log's records come to when a resource manager starts, and what follows from it: the next boot's number, the
//! records that a new file begins with, and the XIDs that recovery lists. In reading order:
//!
//! - `durable`: `Durable`, what lasts, with `InDoubt`, a branch of it; and `next_boot`
//! - `rebuilding`: `Rebuilding`, what was read so far, to which one more record is added. `order` says whether it may
//!   stand there, `acts` does what it says, and `last` keeps of the committed branches the last writes of keys; `fault`
//!   has `AddFault` and `RebuildFault`
//! - `bodies`: `rebuild_log`, of the bodies of a log, with `LogFault` of `log_fault`; `records`: `rebuild`, of records
//! - `snapshots`: `snapshot`, the bodies that a new file begins with, and `begin_snapshot`, `put_base`, `put_held` and
//!   `put_decided`, by which they are put one by one; `copies`: records and writes are copied
//! - `listing`: `list_after`, the XIDs that recovery lists of what lasts. A manager that is up asks its branches for
//!   them (`xa_branch`)
//! - `laws`: `begins_with_boot`
//!
//! docs/LOG.md, "A boot", says when each of these is asked.
#![tactic(auto)]

mod acts;
mod bodies;
mod copies;
mod durable;
mod fault;
mod last;
mod laws;
mod listing;
mod log_fault;
mod order;
mod rebuilding;
mod records;
mod snapshots;

pub use bodies::rebuild_log;
pub use durable::{Durable, InDoubt, next_boot};
pub use fault::{AddFault, RebuildFault};
pub use laws::begins_with_boot;
pub use listing::list_after;
pub use log_fault::LogFault;
pub use rebuilding::Rebuilding;
pub use records::rebuild;
pub use snapshots::{begin_snapshot, put_base, put_decided, put_held, snapshot};

//! The records of the log: what one says, and the bytes of its body. A log takes any bodies (`xa_log`); these are the
//! resource manager's.
//!
//! - `record`: `Record`, of nine kinds: six say what happened, three make up a snapshot; `Writes`, a list
//! - `writing`: `write`, a record's body; `write_short`, that of a record without writes, and `write_small`, which
//!   takes no memory for it; `write_base` and `write_held`, of writes that are borrowed
//! - `reading`: `read`, the record whose body some bytes are; `fault`: `RecordFault`, why they gave none
//! - `laws`: `one_record`, a body is one record's at most, and is read as it was written; `body_sizes`, how long bodies
//!   are
//!
//! Reading looks at one body alone. Whether a record may follow others is for `xa_recovery`. docs/LOG.md, "The
//! bodies", has the format.
#![tactic(auto)]

mod fault;
mod laws;
mod reading;
mod record;
mod writing;

pub use fault::RecordFault;
pub use laws::{body_sizes, one_record};
pub use reading::read;
pub use record::{Record, Writes};
pub use writing::{write, write_base, write_held, write_short, write_small};

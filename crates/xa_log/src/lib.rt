//! An append-only log on two disks, of which one is current: records that chain by SHA-256, so that a log ends where
//! its bytes say so. A checkpoint writes a new log to the other one.
//!
//! - `log`: `Log`, with `append` and `checkpoint`; `reserving` has `reserve`, for long records; `making` has `create`
//!   and `open`, `rescanning` has `rescan` and `into_disks`, `planning` has planned faults in memory
//! - `log_group`: `append_group`, several records by one write and one sync, of which an append is the case of one; its two
//!   parts, `write_group` and `settle`, between which whoever has a `syncer` makes the sync; `written`: `Written`, a group
//!   that has to be settled; `group`: `Group`, what is appended together; `appending`: how it goes to the disk, and
//!   `Appended`, what became of it
//! - `ahead`: how far a file is made ready ahead of its log, by pieces of `READY_BYTES`
//! - `checkpointing`: how a checkpoint goes to the other disk, in its three parts; `end_of`, whether it fits; `shortening`: how
//!   its file is cut if it reaches more than `SPARE_BYTES` beyond it
//! - `opening`: making and reading a log on disks that are lent: `create_on`, `open_on`, `read_log`,
//!   `read_log_damage`
//! - `opened`: `Opened`, a log that was made or read like that, without its disks; `leaving`: `PassedOver`, what it passed over
//! - `looking`: which of two files is the current one, by the number in its first body, `heads`; `generation`: that
//!   number, of bodies; `finding`: `find_damage`, where two files are damaged
//! - `ending`: `end_damage`, a damaged log is ended before what isn't as it was written
//! - `standing`: what stands in a file, by its beginning; `unfit`: `unfit_file`, which of two files is missing or is no
//!   log's, with what a crash makes of two that fit, `fit_has_no_stray`, `fit_has_none_missing`, `interrupted_stays_fit`,
//!   `interrupted_is_no_stray`; `missing`: which of two that were read is empty and shouldn't be
//! - `reading`, `window`: reading a file record by record, and in pieces; `found`: one record, by way of a window or
//!   straight into its body; `chaining`: whether it chains; `behind`: what stands after the last one
//! - `contents`: `read_contents`, what stands in one of the files, whichever is the current one
//! - `damage`: whether a log breaks off, in the records that a checkpoint wrote (`LEAST_APPENDED`, `MOST_APPENDED`) or after
//!   them; `left_out`: what chains after a record that doesn't, and the bound of groups, `MOST_GROUP`; `mending`: the length
//!   with which the latter was written
//! - `format`: `Format`, a file's first bytes and its limit of bodies; `record`: the bytes of a record
//! - `fault`: `OpenFault`, why a file's bytes aren't taken as a log
//! - `laws`: `pair_is_current`, `pair_is_current_or_new` and `opened_is_pair`, which log two files have;
//!   `memory_without_chance`, `memory_without_chance_beside` and `plain_by_body`, what is without chance;
//!   `stray_is_possible`, what isn't; `no_stale_record`, what a checkpoint leaves after its records, and `torn_append_is_whole`,
//!   what a torn append leaves there
//! - `worked`: `worked_pairs`, worked rows
//!
//! docs/LOG.md has the format and what each device fault leaves.
#![tactic(auto)]

mod ahead;
mod appending;
mod behind;
mod chaining;
mod checkpointing;
mod contents;
mod damage;
mod ending;
mod fault;
mod finding;
mod format;
mod found;
mod generation;
mod group;
mod heads;
mod laws;
mod leaving;
mod left_out;
mod log;
mod log_group;
mod looking;
mod making;
mod mending;
mod missing;
mod opened;
mod opening;
mod planning;
mod reading;
mod record;
mod rescanning;
mod reserving;
mod shortening;
mod standing;
mod unfit;
mod window;
mod worked;
mod written;

pub use ahead::READY_BYTES;
pub use appending::Appended;
pub use checkpointing::{CLEARED_BYTES, end_of};
pub use contents::{Contents, LogContents, read_contents};
pub use damage::{BOOT_RECORD, LEAST_APPENDED, MOST_APPENDED};
pub use ending::{LeftOut, end_at, end_damage};
pub use fault::OpenFault;
pub use finding::{Damage, find_damage};
pub use format::{Format, PREAMBLE_BYTES};
pub use generation::{generation_of_bodies, generation_of_snapshot};
pub use group::Group;
pub use laws::{
    memory_without_chance, memory_without_chance_beside, no_stale_record, opened_is_pair,
    pair_is_current, pair_is_current_or_new, plain_by_body, stray_is_possible,
    torn_append_is_whole,
};
pub use leaving::PassedOver;
pub use left_out::MOST_GROUP;
pub use log::Log;
pub use looking::{NUMBER_END, NUMBER_OFFSET};
pub use opened::Opened;
pub use opening::{create_on, open_on, read_log, read_log_damage};
pub use record::{MOST_RECORD, SHORT_RECORD};
pub use shortening::SPARE_BYTES;
pub use standing::{Standing, interrupted_is_no_stray};
pub use unfit::{Unfit, fit_has_no_stray, fit_has_none_missing, interrupted_stays_fit, unfit_file};
pub use window::{LEAST_READ, WINDOW};
pub use worked::worked_pairs;
pub use written::Written;

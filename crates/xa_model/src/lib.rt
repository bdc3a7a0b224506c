//! The sequential resource manager: its states, its one step, and histories. It answers by the
//! tables of C193, and orders reads and writes by multiversion timestamp ordering (Bernstein,
//! Hadzilacos and Goodman, 5.3). What the contracts of the layers above speak of stands in `specs/`;
//! the program's part is the types of events and outcomes.
//!
//! The definitions, in reading order; docs/MODEL.md retells them:
//!
//! - `State`, the state; `Source`, which version of a key a timestamp reads
//! - `Early`, the refusals before a call's row. The rows: `Associations`, `TimeLimits`, `Phases`, `Data`,
//!   `Recovering`
//! - `Turn`, what is asked of the device, and what comes of its answers; `Completions` and `Logging`, of the calls that
//!   log
//! - `Fold` and `Durable`, what lasts; `Restarting`, restarts and openings; `Trimming`, trims
//! - `Step`, the one step; `History`; and what is promised of histories: `OneCopy`, `ListedLaw`, `UnlistedLaw` and
//!   `ScanLaw`; `Crash`, what a crash may leave at any moment
//!
//! What is proved of them, and needn't be believed:
//!
//! - `Invariants`: `Sound`, `Loggable`, `Backing`, `Restored` and `Room`, what every state of a history has; `LowWater`,
//!   timestamps below which no known branch stands, and none works
//! - `Laws`: `Total`, which outcomes fit, `Groups`, what is lost together, `Together`, what is asked together, and
//!   others; `Worked`: rows that compute
//!
//! The modules:
//!
//! - `event`: `Event`, what is asked; `outcome`: `Outcome` and `Appending`, what the device did
//! - `laws`: functions that do nothing, and whose contracts are theorems on the definitions. Of histories
//!   `one_history`, `total`, `restart_leads`, `sound`, `recoverable`, `low_water`, `work_floor`, `moments`, `one_copy`,
//!   `listed_until_asked`, `unlisted_until_prepared` and `scan_lists_all`; of groups `lost_together`, `refused_together`
//!   and `asked_together`; of crashes `crash_at_any_moment`, `crash_in_history` and `crash_keeps_promises`; of what lasts
//!   `lasting`, `sound_lasting`, `logged_lasts`, `backed`, `restored` and `roomy`; of a trim `trim`
//! - `examples`: such functions too, of worked rows: replies that the definitions compute
#![tactic(auto)]

mod event;
mod examples;
mod laws;
mod outcome;

pub use event::Event;
pub use examples::{
    worked_associations, worked_copies, worked_groups, worked_known_branches, worked_limits,
    worked_logs, worked_low_water, worked_marks, worked_recovery, worked_refusals, worked_rows,
    worked_time_limits, worked_trims, worked_turns, worked_versions, worked_walks,
};
pub use laws::{
    asked_together, backed, crash_at_any_moment, crash_in_history, crash_keeps_promises, lasting,
    listed_until_asked, logged_lasts, lost_together, low_water, moments, one_copy, one_history,
    recoverable, refused_together, restart_leads, restored, roomy, scan_lists_all, sound,
    sound_lasting, total, trim, unlisted_until_prepared, work_floor,
};
pub use outcome::{Appending, Outcome};

//! What an operator asks of a running server, one task at a time: how it is doing, which branches it knows, that one of them
//! be decided, and the like.
//!
//! - `task`: `Task`, what is asked; `opens_session`, `decides`
//! - `name`: `is_name`, whether a script can name a resource manager so
//! - `preview`: `preview_of`, what is shown before it is asked whether a task is to be done; `question`: how that is asked
//! - `asking`: `Asking`, one question of a server; `agenda`: the questions of a task, and those that an answer leads to; `PAGE`
//! - `answer`: whether a reply is what was asked for
//! - `listed`: which branches are shown, and of which it is asked who is at work for them
//! - `shown`: what is printed of an answer, in a `format`: `Format`; `line`, `sessions`: the lines of branches
//! - `metrics`: a server's numbers for Prometheus; `counted`: what it has counted, by `family` and `histogram`; `told`: the count
//!   of an id
//! - `run`: `operate_run`, which asks a server; `print_text`; `fault`: `OperateFault`, why the task isn't done
//! - `confirm`: `confirm_run`, which asks back before it asks a server
//! - `status`: `operate_status`, the program's status by that end
//! - `script`: `script_text`, the script of `xarm talk` that asks the same; `laws`: `talk_reads`, it is read so;
//!   `previews_look_only`, what is shown before changes nothing; `buckets_rise`, buckets are cumulative; `worked_rows`
#![tactic(auto)]

mod agenda;
mod answer;
mod asking;
mod confirm;
mod counted;
mod family;
mod fault;
mod format;
mod histogram;
mod laws;
mod line;
mod listed;
mod metrics;
mod name;
mod preview;
mod question;
mod run;
mod script;
mod sessions;
mod shown;
mod status;
mod task;
mod told;

pub use agenda::PAGE;
pub use confirm::confirm_run;
pub use fault::OperateFault;
pub use format::Format;
pub use laws::{buckets_rise, previews_look_only, talk_reads, worked_rows};
pub use name::is_name;
pub use run::{operate_run, print_text};
pub use script::script_text;
pub use status::operate_status;
pub use task::Task;

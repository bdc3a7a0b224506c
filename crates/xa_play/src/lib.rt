//! A script is played: each line that asks something is answered by a manager on two disks in memory, and its reply is
//! written.
//!
//! - `play`: `play_run`, the settings, the whole script, then line by line
//! - `script`: what a reader gives, of `MOST_SCRIPT` bytes at most
//! - `answer`: what one line does to the manager; `opening`: the manager is opened, at first and again
//! - `fault`: `PlayFault`, why a script wasn't played to its end
//! - `laws`: what holds of every manager on disks in memory, and of every run of the sequential resource manager
//!
//! docs/SCRIPT.md has the lines of a script, and what each prints.
#![tactic(auto)]

mod answer;
mod fault;
mod laws;
mod opening;
mod play;
mod script;

pub use fault::PlayFault;
pub use play::play_run;
pub use script::MOST_SCRIPT;

//! The commands of the program that serve nobody, and the statuses in which all of them end.
//!
//! - `playing`: `play`, a script from standard input is played
//! - `scanning`: `scan`, the records of a log are printed; `scanning_fault`: `ScanningFault`, why they aren't
//! - `checking`: `check`, it is told what a log's two files are; `checking_fault`: `CheckingFault`, why it isn't
//! - `copying`: `copy`, a log whose server may run is copied; `copying_fault`: `CopyingFault`, why it isn't
//! - `accepting`: `accept_damage`, what stands of a damaged log is made ready to be opened; `accepting_fault`:
//!   `AcceptingFault`, why it isn't; `keeping`: copies of its files
//! - `enrolling`: `add_user`, a user is added to a file of users; `enrolling_fault`: `EnrollingFault`, why nobody is; `entries`:
//!   `with_user`, a text of users with one more; `entry_fault`: `EntryFault`, why there is none
//! - `talking`: `talk`, a script goes to a server; `server`: `Server`, one at a `Reach`; `stream`: `Stream`, a connection to
//!   it; `mistakes`: `Mistakes`, standard error, which is told of lines that ask nothing
//! - `client`: who logs in to a server; `unlogged`: `Unlogged`, why nobody has; `secret`: the secret in a file, or on standard
//!   input; `secret_fault`: `SecretFault`, why there is none
//! - `ticking`: `tick`, a server is told what the clock says; `Watch`, the clock and standard error
//! - `shutting`: `shutdown`, a server is asked to end
//! - `operating`: `operate`, a server is asked what an operator wants; `confirm`, the same once a line has said yes;
//!   `show_script`, the script that asks the same is printed; `errors`: standard error as a writer
//! - `ending`: `ended`, `ended_at`, `served`, `checked`, `operated` and `words_fault`, the status of an end, and its line on standard error
#![tactic(auto)]

mod accepting;
mod accepting_fault;
mod checking;
mod checking_fault;
mod client;
mod copying;
mod copying_fault;
mod ending;
mod enrolling;
mod enrolling_fault;
mod entries;
mod entry_fault;
mod errors;
mod keeping;
mod mistakes;
mod operating;
mod playing;
mod scanning;
mod scanning_fault;
mod secret;
mod secret_fault;
mod server;
mod shutting;
mod stream;
mod talking;
mod ticking;
mod unlogged;
mod unopened;

pub use accepting::accept_damage;
pub use accepting_fault::AcceptingFault;
pub use checking::check;
pub use checking_fault::CheckingFault;
pub use copying::copy;
pub use copying_fault::{CopyingFault, Side};
pub use ending::{checked, ended, ended_at, operated, served, words_fault};
pub use enrolling::add_user;
pub use enrolling_fault::EnrollingFault;
pub use entries::with_user;
pub use entry_fault::EntryFault;
pub use mistakes::Mistakes;
pub use operating::{confirm, operate, show_script};
pub use playing::play;
pub use scanning::scan;
pub use scanning_fault::ScanningFault;
pub use secret_fault::SecretFault;
pub use server::{Reach, Server};
pub use shutting::shutdown;
pub use stream::Stream;
pub use talking::talk;
pub use ticking::{Watch, tick};
pub use unlogged::Unlogged;

//! What the words of the command line ask for, and what is done of it.
//!
//! - `line`: `command_line`, the commands as `clap` reads them, by their `arguments`, `operator_arguments` and
//!   `login_arguments`
//! - `words`: `read_words`, what words ask for; `asked`: `Asked`, that
//! - `given`: which arguments the words themselves give; `mode`: which permissions a word spells
//! - `laws`: worked rows: `worked_services`, what a server is asked for; `worked_logins`; `worked_modes`
//! - `verb`: `Verb`, the commands that ask a running server one thing; `operator`: what their words ask for; `malformed`:
//!   `Malformed`, which of them isn't as it has to be
//! - `command`: `given_words`, those of the command line; `run`, which does what they ask for, but that it serves;
//!   `asking`: what a server is asked; `terminals`: `Terminals`, which streams somebody sits at
//! - `ran`: `Ran`, what that came to: a status, or a server that is to run
#![tactic(auto)]

mod arguments;
mod asked;
mod asking;
mod command;
mod given;
mod laws;
mod line;
mod login_arguments;
mod malformed;
mod mode;
mod operator;
mod operator_arguments;
mod ran;
mod terminals;
mod verb;
mod words;

pub use asked::Asked;
pub use command::{given_words, run};
pub use laws::{worked_logins, worked_modes, worked_services};
pub use line::command_line;
pub use malformed::Malformed;
pub use ran::Ran;
pub use terminals::Terminals;
pub use verb::Verb;
pub use words::read_words;

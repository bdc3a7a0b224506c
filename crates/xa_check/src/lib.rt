//! What is told of a log's two files: `check_run`, which reads both, writes a line for each, and finds whether a server
//! opens them.
//!
//! - `check`: both files are read, and the lines are written
//! - `lines`: the line of a file, and the one that tells which of the two isn't a log's
//! - `fit`: which file is the current one, whether the two fit, and whether a server opens them
//! - `told`: `Told`, what is told of a file; `prepared`: how many branches are prepared in records
//! - `fault`: `CheckFault`, why nothing is told
//! - `laws`: `told_as_opened`, what an opening makes of two files with these lines
#![tactic(auto)]

mod check;
mod fault;
mod fit;
mod laws;
mod lines;
mod prepared;
mod told;

pub use check::check_run;
pub use fault::CheckFault;
pub use laws::told_as_opened;

//! The printed lines of a log: `scan_run`, which reads one file of a log and writes a line for each record.
//!
//! - `scan`: a log is read, and its lines are written
//! - `lines`: the line of a record, and the line after the last one
//! - `records`: the text of a record; `objects`: its line as a JSON object; `format`: `Format`
//! - `fault`: `ScanFault`, why a log wasn't printed to its end
//! - `laws`: `worked_scans`, worked rows; `offsets_in_the_file`, that a line's offset is where its record begins
#![tactic(auto)]

mod fault;
mod format;
mod laws;
mod lines;
mod objects;
mod records;
mod scan;

pub use fault::ScanFault;
pub use format::Format;
pub use laws::{offsets_in_the_file, worked_scans};
pub use scan::scan_run;

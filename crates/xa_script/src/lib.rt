//! The script of `xarm play`: what each line of it asks, and the line that shows a reply.
//!
//! A line is `connect`, or the number of a session and what it asks: a hang-up, a request of any kind, how the server is
//! doing, or a control of the server, as that it end; or it speaks of the log's disks: a device call that is to fail, a
//! stop, a reopening, a crash. Any other is `Line::Unknown`.
//!
//! - `line`: `Line` and `read_line`
//! - `verb`: the call that a word names; `request`: the request of a call and the words after it
//! - `parts`: where a text is cut, with `first_part`; `words`: the words of a line, of which text in quotes is one
//! - what words say: `numbers`; `flags`; `hexadecimal`, bytes by their digits; `text`, bytes as text in quotes
//! - `log_file`: `LogFile`, which file such a line speaks of; `call_effect`: `CallEffect`, what a device call that is to
//!   fail does all the same
//! - `mistake`: `mistake_text`, what is told of a line that asks nothing; `teller`: `Teller`, who is told
//! - `reply`: `reply_line`; `styled_line`, the same in a `Style`; `answer`: `answer_line`, the line of a control's answer
//! - `asking`: `request_line`, the other way round: the line that asks something of a session
//! - `laws`: `reader_exists`, the texts of XIDs can be read, so that the contract of `read_line` says something;
//!   `texts_are_read`, text in quotes is read as the bytes that it was made of; `requests_are_read`, the line of a
//!   request is read as that request
//!
//! Nothing here calls a manager, so whoever sends requests by other ways can read the same lines. docs/SCRIPT.md has
//! the format.
#![tactic(auto)]

mod answer;
mod asking;
mod call_effect;
mod flags;
mod hexadecimal;
mod laws;
mod line;
mod log_file;
mod mistake;
mod numbers;
mod parts;
mod reply;
mod request;
mod style;
mod teller;
mod text;
mod verb;
mod words;

pub use answer::answer_line;
pub use asking::request_line;
pub use call_effect::CallEffect;
pub use laws::{reader_exists, requests_are_read, texts_are_read};
pub use line::{Line, read_line};
pub use log_file::LogFile;
pub use mistake::mistake_text;
pub use parts::first_part;
pub use reply::{reply_line, styled_line};
pub use style::Style;
pub use teller::Teller;
pub use text::{Stage, push_quoted, read_text};
pub use words::Place;

//! The lines of a script against a live server, moments that it is told, and its end.
//!
//! - `talk`: `talk_run`, which reads a script line by line, sends each line's question over a connection, and writes the
//!   line of its reply as soon as it is there; `read_next`, one line; `without_end`
//! - `manner`: `Manner`, how a script is talked; `prompter`: `Prompter`, who is told that a line is awaited; `help`: the calls, as
//!   who types a script is shown them
//! - `answer`: what one line is answered; `MOST_CONNECTIONS`; `controlling`: the same of what asks the server itself; `answered`:
//!   `Answered`, an answer, and how it is shown
//! - `connections`: the script's connections by their numbers
//! - `exchanging`: `exchange`, a question that goes over a connection, and its reply that comes back; `ask_control`, the same
//!   of what asks a server something; `ask_end`, what asks it to end
//! - `dial`: `Dial`, what opens connections, and `Connection`
//! - `fault`: `TalkFault`, why a script wasn't talked to its end
//!
//! - `tick`: `tick_run`, which tells a server each moment that a ticker gives; `MOST_EVERY`
//! - `ticker`: `Ticker`, what gives moments and tells refusals; `refusal`: `refusal_text`, what a refusal comes to
//! - `tick_fault`: `TickFault`, why no more moments are told
//!
//! - `logging_in`: `log_in`, by which a client logs in over a connection; `login_fault`: `LoginFault`, why it isn't
//!
//! - `shutdown`: `shutdown_run`, which asks a server to end; `shutdown_fault`: `ShutdownFault`, why it isn't known to have
#![tactic(auto)]

mod answer;
mod answered;
mod connections;
mod controlling;
mod dial;
mod exchanging;
mod fault;
mod help;
mod logging_in;
mod login_fault;
mod manner;
mod prompter;
mod refusal;
mod shutdown;
mod shutdown_fault;
mod talk;
mod tick;
mod tick_fault;
mod ticker;

pub use answer::MOST_CONNECTIONS;
pub use answered::Answered;
pub use dial::{Connection, Dial};
pub use exchanging::{ask_control, ask_end, exchange};
pub use fault::TalkFault;
pub use logging_in::log_in;
pub use login_fault::LoginFault;
pub use manner::Manner;
pub use prompter::Prompter;
pub use refusal::refusal_text;
pub use shutdown::shutdown_run;
pub use shutdown_fault::ShutdownFault;
pub use talk::{read_next, talk_run, without_end};
pub use tick::{MOST_EVERY, tick_run};
pub use tick_fault::TickFault;
pub use ticker::Ticker;

//! Tokens of one history: whoever asks for an event gets a ticket, by which it is carried out at most once, and whoever
//! carries it out gets the one entry that it became. Whatever threads do with tokens, what they know fits together. Thus
//! a token tells by its type what happened, also one that another thread left under a lock or in a mailbox.
//!
//! Tokens have no bytes, and a request or a reply stays where it is: to a contract a ticket is an `Ask`, and what was
//! told is a `Receipt`.
//!
//! - `ask`: `Ask`, an event that is asked for; `receipt`: `Receipt`, an entry of the history: an ask with its reply
//! - `book`: `Book`, which names a history; `opened`: `Opened`, an empty one that has no name yet
//! - `tokens`: `Tokens`, by which the others change: an ask, its answer, and what becomes of both
//! - `keeper`: `Keeper`, the one that knows the whole history; `share`: `Share`, what one who asks has asked, was told
//!   and gave up
//! - `ticket`: `Ticket`, the right to carry an ask out, once; `told`: `Told`, one entry of the history, nobody else's
//! - `posted`: `Posted`, an ask with its ticket, and `answered`: `Answered`, a receipt with its token, as threads leave
//!   them for one another
//! - `view`: what a token knows, and the rule of all tokens; `steps`: what becomes of that; `moves`: these steps, each a
//!   load
//!
//! The rule is `Kept` in `specs/Rule.antt`. At the end `audit` tells what it comes to: whoever has all shares, and owes
//! nothing, has every entry of the history, each once, at the places from 1 on. Nothing says that an ask is answered.
#![tactic(auto)]

mod answered;
mod ask;
mod book;
mod keeper;
mod moves;
mod opened;
mod posted;
mod receipt;
mod share;
mod steps;
mod ticket;
mod tokens;
mod told;
mod view;

pub use answered::Answered;
pub use ask::Ask;
pub use book::Book;
pub use keeper::Keeper;
pub use opened::Opened;
pub use posted::Posted;
pub use receipt::Receipt;
pub use share::Share;
pub use ticket::Ticket;
pub use tokens::Tokens;
pub use told::Told;

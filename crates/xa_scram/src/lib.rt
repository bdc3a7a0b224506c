//! SCRAM-SHA-256 (RFC 5802, RFC 7677) without channel binding, both sides, as functions of their arguments: nonces and
//! salts are given, and nothing here takes memory, reads a clock or a device. A secret is its bytes, taken as they are:
//! SASLprep (RFC 4013) isn't applied.
//!
//! - `keyed`: `hmac` and `hi`, by `Keyed`, the hashers after a padded key; `keys`: the keys of a secret
//! - `name`, `nonce`: `Name` and `Nonce`, which contracts see as bytes; `limits`: how long they are, and other numbers
//! - `opening`: `Opening`, the first message of a client; `put_opening`
//! - `verifier`: `Verifier`, what a server keeps of a secret; `verifier_text`: PostgreSQL's text of it
//! - `exchange`: `Exchange`, the server's side; `response` and `challenge_reader`: `Response`, the client's
//! - `laws`: `mutual`, who has the secret is let in, and accepts the server; `short_messages` and `worked_rows`
//! - `bytes`, `fields`, `number`: the parts of messages
#![tactic(auto)]

mod bytes;
mod challenge_reader;
mod exchange;
mod fields;
mod keyed;
mod keys;
mod laws;
mod limits;
mod name;
mod nonce;
mod number;
mod opening;
mod response;
mod signing;
mod verifier;
mod verifier_text;

pub use exchange::Exchange;
pub use keyed::{hi, hmac};
pub use laws::{mutual, short_messages, worked_rows};
pub use limits::{
    LEAST_ITERATIONS, MOST_ITERATIONS, MOST_MESSAGE, MOST_NAME, MOST_NONCE, MOST_SALT, OWN_BYTES,
};
pub use name::Name;
pub use nonce::Nonce;
pub use opening::{Binding, Opening, put_opening};
pub use response::Response;
pub use verifier::Verifier;

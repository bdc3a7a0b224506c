//! Who may log in: the users of a server, as a TOML document says them, and the server's side of a login.
//!
//! - `users`: `Users`, and `Users::read`, by `document`, which reads members of a document; `user`: `User`
//! - `fault`: `UsersFault`, why a text says no users, by `misfit`, why a member is no user; `place`: `line_of`
//! - `login`: `Login`, which has begun; `logins`: `Users::begin`, `Users::finish`, and `Welcome`
//! - `same`: whether two verifiers are one
//! - `entry`: `user_text`, the lines of a user, and `put_user`, which puts them
//! - `laws`: `entries_say`, those lines alone say that user; `worked_entries`, worked rows
#![tactic(auto)]

mod document;
mod entry;
mod fault;
mod laws;
mod login;
mod logins;
mod misfit;
mod place;
mod same;
mod user;
mod users;

pub use entry::{put_user, user_text};
pub use fault::UsersFault;
pub use laws::{entries_say, worked_entries};
pub use login::Login;
pub use logins::Welcome;
pub use place::line_of;
pub use user::User;
pub use users::{MOST_USERS, Users};

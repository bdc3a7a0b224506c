//! What a server is asked and no manager, and what it answers: one content for each, as for a session's calls.
//!
//! - `control`: `Control`, what it is asked; `control_of`, `put_control` and `control_content`, its content
//! - `answer`: `Answer`, what it answers; `put_answer` and, in `answer_reader`, `answer_of`, its content
//! - `hello`: `Hello`, which protocol a side speaks, and what this one does; `numbers`: `Numbers`, the numbers of an answer
//! - `message`: `Message`, a message of a login, which is carried as it is
//! - `whole`: a number and an XID that are all of some bytes; `shutdown`: `SHUTDOWN`, the content that asks a server to end
//! - `laws`: `one_control` and `one_answer`, one value and one content; `worked_contents`, worked rows
#![tactic(auto)]

mod answer;
mod answer_reader;
mod control;
mod hello;
mod laws;
mod message;
mod numbers;
mod shutdown;
mod whole;

pub use answer::{Answer, put_answer};
pub use answer_reader::answer_of;
pub use control::{Control, control_content, control_of, put_control};
pub use hello::{DISCONNECTS, FEATURES, Hello, LISTS, LOGINS, MEASURES, REVISION};
pub use laws::{one_answer, one_control, worked_contents};
pub use message::{MOST_MESSAGE, Message};
pub use numbers::{MOST_NUMBERS, Numbers};
pub use shutdown::SHUTDOWN;

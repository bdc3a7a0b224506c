//! What a session asks for and what it is answered, and the content of a frame that spells it: one spelling for each
//! value within the limits, and for all other bytes a fault.
//!
//! The values:
//!
//! - `request`: `Request`, with what each call is given
//! - `reply`: `Reply`; `body`: `Body`, what a reply carries
//! - `known_branch`: `KnownBranch`, what is told of a branch, with its `BranchState` and `AssociationCounts`
//! - `question`: `Question`, a request or a question for the status; `status`: `Status`, how a server is doing
//! - `making`: `Reply::plain`, `detailed`, `carrying` and `bad_frame`; `copying`: `Request::copied` and
//!   `KnownBranch::copied`, and `hold`, what a request's parts hold
//!
//! Their bytes:
//!
//! - `numbers`: the numbers that stand for calls, details and states; `Request::call`
//! - `encode`: `encode_request`, `encode_reply` and `put_reply`, of values within the limits
//! - `fields`: what a content is made of, read from the front: numbers, codes, details, known branches; keys, values and
//!   XIDs are `xa_fields`'
//! - `listed`: `Listed`, what a reply lists: XIDs, known branches
//! - `request_decoder`: `decode_request`; `reply_decoder`: `decode_reply`; `question`: `decode_question`, of all that may
//!   stand in a frame, and `encode_question`
//! - `fault`: `FrameFault`, the first fault of a content, read from left to right
//! - `laws`: `one_request`, `one_question` and `one_reply`, one value and one content; `worked_contents`, worked rows
//!
//! A content is what stands in a frame after its length; the latter is `xa_desk`'s. docs/PROTOCOL.md has the format,
//! from "Frames" on.
#![tactic(auto)]

mod body;
mod copying;
mod encode;
mod fault;
mod fields;
mod known_branch;
mod laws;
mod listed;
mod making;
mod numbers;
mod question;
mod reply;
mod reply_decoder;
mod request;
mod request_decoder;
mod status;

pub use body::{Body, KnownBranches, Xids};
pub use encode::{encode_reply, encode_request, put_reply};
pub use fault::FrameFault;
pub use known_branch::{AssociationCounts, BranchState, KnownBranch};
pub use laws::{one_question, one_reply, one_request, worked_contents};
pub use question::{Question, decode_question, encode_question};
pub use reply::Reply;
pub use reply_decoder::decode_reply;
pub use request::Request;
pub use request_decoder::decode_request;
pub use status::Status;

//! The numbers and names of the XA interface (X/Open C193), and the small types
//! that the layers above share. In reading order:
//!
//! - `codes`: `Code`, the code of a reply, and each by its name, from `XA_OK` to `XAER_OUTSIDE`; `names`: `code_name`
//! - `flags`: each flag by its name, from `TMNOFLAGS` to `TMMIGRATE`; `legal_flags`, which of them a call may have; and
//!   `worked_flags`, worked rows of that
//! - `call`: `Call`, the nineteen calls of a session
//! - `detail`: `Detail`, what a refusal is about, besides its code
//! - `direction`: `Direction`, how a branch is to end
//! - `listing`: `Listing`, values that contracts see as a list; `bytes`: `Bytes`, a byte string that they see like
//!   that; `write`: `Write`, what a branch leaves at a key
//!
//! docs/PROTOCOL.md says what codes and flags mean.
#![tactic(auto)]

mod bytes;
mod call;
mod codes;
mod detail;
mod direction;
mod flags;
mod listing;
mod names;
mod write;

pub use bytes::Bytes;
pub use call::Call;
pub use codes::{
    Code, XA_HEURCOM, XA_HEURHAZ, XA_HEURMIX, XA_HEURRB, XA_NOMIGRATE, XA_OK, XA_RBCOMMFAIL,
    XA_RBDEADLOCK, XA_RBINTEGRITY, XA_RBOTHER, XA_RBPROTO, XA_RBROLLBACK, XA_RBTIMEOUT,
    XA_RBTRANSIENT, XA_RDONLY, XA_RETRY, XAER_ASYNC, XAER_DUPID, XAER_INVAL, XAER_NOTA,
    XAER_OUTSIDE, XAER_PROTO, XAER_RMERR, XAER_RMFAIL,
};
pub use detail::Detail;
pub use direction::Direction;
pub use flags::{
    TMASYNC, TMENDRSCAN, TMFAIL, TMJOIN, TMMIGRATE, TMMULTIPLE, TMNOFLAGS, TMNOWAIT, TMONEPHASE,
    TMRESUME, TMSTARTRSCAN, TMSUCCESS, TMSUSPEND, legal_flags, worked_flags,
};
pub use listing::Listing;
pub use names::code_name;
pub use write::Write;

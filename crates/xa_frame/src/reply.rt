use crate::body::Body;
use xa_codes::{Code, Detail};

/// What a session is answered: a code of C193 (0, or an `XA_` or `XAER_` code), a detail that says more, and a body.
/// The place is that of the call in its room's history, from 1, or 0.
#[derive(Debug, Drop)]
pub struct Reply {
    pub code: Code,
    pub detail: Detail,
    pub place: u64,
    pub body: Body,
}

ghost use Rattle.std.specs.Prelude.{◌≡◌};
ghost use Rattle.xa_frame.specs.Made.{plain, detailed, carrying, bad_frame};

use crate::body::Body;
use crate::reply::Reply;
use xa_codes::{Code, Detail, XA_OK, XAER_INVAL};

/// Replies with place 0. None takes memory.
impl Reply {
    /// A code alone.
    pub fn plain(code: Code) -> Reply
        ensures { result ≡ plain code }
    {
        Reply::detailed(code, Detail::Nothing)
    }

    /// A code and a detail. It carries nothing.
    pub fn detailed(code: Code, detail: Detail) -> Reply
        ensures { result ≡ detailed code detail }
    {
        Reply {
            code,
            detail,
            place: 0,
            body: Body::Nothing,
        }
    }

    /// A success that carries a body.
    pub fn carrying(body: Body) -> Reply
        ensures { result ≡ carrying body }
    {
        Reply {
            code: XA_OK,
            detail: Detail::Nothing,
            place: 0,
            body,
        }
    }

    /// No request was read: a frame's content doesn't decode or is too long, or a line isn't in the grammar.
    pub fn bad_frame() -> Reply
        ensures { result ≡ bad_frame }
    {
        Reply::detailed(XAER_INVAL, Detail::Frame)
    }
}

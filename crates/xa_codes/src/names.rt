ghost use Rattle.std.specs.Prelude.{◌≡◌};
ghost use Rattle.xa_codes.specs.Names.{name_of};

use crate::codes::{
    Code, XA_HEURCOM, XA_HEURHAZ, XA_HEURMIX, XA_HEURRB, XA_NOMIGRATE, XA_OK, XA_RBCOMMFAIL,
    XA_RBDEADLOCK, XA_RBINTEGRITY, XA_RBOTHER, XA_RBPROTO, XA_RBROLLBACK, XA_RBTIMEOUT,
    XA_RBTRANSIENT, XA_RDONLY, XA_RETRY, XAER_ASYNC, XAER_DUPID, XAER_INVAL, XAER_NOTA,
    XAER_OUTSIDE, XAER_PROTO, XAER_RMERR, XAER_RMFAIL,
};

/// C193's name of a code, or `?` for any other number. Takes no memory.
pub fn code_name(code: Code) -> &'static str
    ensures { result.now ≡ name_of code }
{
    match code {
        XA_RBROLLBACK => "XA_RBROLLBACK",
        XA_RBCOMMFAIL => "XA_RBCOMMFAIL",
        XA_RBDEADLOCK => "XA_RBDEADLOCK",
        XA_RBINTEGRITY => "XA_RBINTEGRITY",
        XA_RBOTHER => "XA_RBOTHER",
        XA_RBPROTO => "XA_RBPROTO",
        XA_RBTIMEOUT => "XA_RBTIMEOUT",
        XA_RBTRANSIENT => "XA_RBTRANSIENT",
        XA_NOMIGRATE => "XA_NOMIGRATE",
        XA_HEURHAZ => "XA_HEURHAZ",
        XA_HEURCOM => "XA_HEURCOM",
        XA_HEURRB => "XA_HEURRB",
        XA_HEURMIX => "XA_HEURMIX",
        XA_RETRY => "XA_RETRY",
        XA_RDONLY => "XA_RDONLY",
        XA_OK => "XA_OK",
        XAER_ASYNC => "XAER_ASYNC",
        XAER_RMERR => "XAER_RMERR",
        XAER_NOTA => "XAER_NOTA",
        XAER_INVAL => "XAER_INVAL",
        XAER_PROTO => "XAER_PROTO",
        XAER_RMFAIL => "XAER_RMFAIL",
        XAER_DUPID => "XAER_DUPID",
        XAER_OUTSIDE => "XAER_OUTSIDE",
        _ => "?",
    }
}

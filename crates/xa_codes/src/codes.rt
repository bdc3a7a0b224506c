/// The number that answers a call, with C193's names and values.
pub type Code = i32;

pub const XA_OK: Code = 0;
/// The branch did no work that has to be committed, and is gone.
pub const XA_RDONLY: Code = 3;
/// Nothing was done; the call may be asked again.
pub const XA_RETRY: Code = 4;

pub const XA_HEURMIX: Code = 5;
/// The branch was heuristically rolled back.
pub const XA_HEURRB: Code = 6;
/// The branch was heuristically committed.
pub const XA_HEURCOM: Code = 7;

pub const XA_HEURHAZ: Code = 8;

pub const XA_NOMIGRATE: Code = 9;

pub const XA_RBROLLBACK: Code = 100;

pub const XA_RBCOMMFAIL: Code = 101;

pub const XA_RBDEADLOCK: Code = 102;

pub const XA_RBINTEGRITY: Code = 103;

pub const XA_RBOTHER: Code = 104;

pub const XA_RBPROTO: Code = 105;

pub const XA_RBTIMEOUT: Code = 106;

pub const XA_RBTRANSIENT: Code = 107;

pub const XAER_ASYNC: Code = -2;

pub const XAER_RMERR: Code = -3;

pub const XAER_NOTA: Code = -4;

pub const XAER_INVAL: Code = -5;

pub const XAER_PROTO: Code = -6;

pub const XAER_RMFAIL: Code = -7;

pub const XAER_DUPID: Code = -8;

pub const XAER_OUTSIDE: Code = -9;

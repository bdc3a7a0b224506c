use crate::known_branch::KnownBranch;
use crate::status::Status;
use xa_codes::{Bytes, Listing};
use xa_xid::Xid;

/// XIDs that contracts see as a list.
pub type Xids = Listing<Xid>;

/// Known branches that contracts see as a list.
pub type KnownBranches = Listing<KnownBranch>;

/// What a reply carries besides its code. A value has at most `MOST_VALUE` bytes; there are at most `MOST_XIDS` XIDs
/// or branches.
#[derive(Debug, Drop)]
pub enum Body {
    Nothing,
    /// Of a Connect the session's number, of a Start the branch's timestamp.
    Number(u64),
    /// What a Get found.
    Value(Bytes),
    /// What a Get answers if the key has no value.
    Absent,
    /// What a Recover lists.
    Xids(Xids),
    /// What a Branches lists.
    Branches(KnownBranches),
    /// How the server is doing.
    Status(Status),
}

use xa_codes::Code;
use xa_xid::Xid;

/// Where a known branch stands.
#[derive(Clone, Copy, Debug, PartialEq, Eq)]
pub enum BranchState {
    /// It is at work: not prepared.
    Working = 1,
    /// It is in doubt.
    Prepared = 2,
    /// The operator committed it.
    Committed = 3,
    /// The operator rolled it back.
    RolledBack = 4,
}

/// How many associations a branch has, by who holds them: sessions at work, sessions that have suspended theirs, and
/// nobody.
#[derive(Clone, Copy, Debug, PartialEq, Eq)]
pub struct AssociationCounts {
    pub active: u16,
    pub suspended: u16,
    pub loose: u16,
}

/// What a list of the known branches tells of one: its XID, where it stands, its mark, or XA_OK if it has none, its
/// timestamp, 0 of one that the operator completed, and its associations.
#[derive(Debug, Drop)]
pub struct KnownBranch {
    pub xid: Xid,
    pub state: BranchState,
    pub mark: Code,
    pub timestamp: u64,
    pub associations: AssociationCounts,
}

use xa_codes::Code;

/// The state of a known branch.
#[derive(Clone, Copy, Debug, PartialEq, Eq)]
pub enum State {
    /// Not prepared, and marked: it can only be rolled back, and the mark's code says why.
    RollbackOnly(Code),
    /// Some session is at work for it.
    Active,
    /// No session is at work for it, but some association is suspended or loose.
    Suspended,
    /// It has no association, and isn't prepared.
    Idle,
    /// In doubt: it may be committed or rolled back.
    Prepared,
    /// The operator committed it.
    HeurCommitted,
    /// The operator rolled it back.
    HeurRolledBack,
}

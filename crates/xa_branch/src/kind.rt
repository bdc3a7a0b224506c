ghost use Rattle.std.specs.Prelude.{◌≡◌, option_copied};
ghost use Rattle.xa_branch.specs.Kinds.{own_kind};

use xa_xid::Xid;

/// Who holds an association of a branch: a session at work, a session that has suspended it, or nobody.
#[derive(Clone, Copy, Debug, PartialEq, Eq)]
pub enum Kind {
    Active,
    Suspended,
    Loose,
}

impl Kind {
    /// The kind of a session's own association with the XID, if the session is at work for `active`, or for none.
    pub(crate) fn of_own(xid: &Xid, active: Option<&Xid>) -> Kind
        ensures { result ≡ own_kind (option_copied active.entry) xid.now }
    {
        match active {
            Some(active) if *active == *xid => Kind::Active,
            _ => Kind::Suspended,
        }
    }
}

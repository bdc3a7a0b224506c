ghost use Rattle.std.specs.Prelude.{◌≡◌, Some, None};
ghost use Rattle.std.specs.List.{list_any};
ghost use Rattle.xa_model.specs.State.{known_as, is_loose_with};
ghost use Rattle.xa_model.specs.Associations.{is_unknown, is_lasting, is_taken, mark_in};
ghost use Rattle.xa_assoc.specs.Sessions.{resume_refusal_of, leave_refusal_of};
ghost use Rattle.xa_branch.specs.Kinds.{resumed_kind, ended_kind};
ghost use Rattle.xa_manager.specs.{View.view_of, View.own_at, Tables.TablesSay, Unmarked.is_of_unmarked, Unmarked.is_unmarked};

use crate::tables::Tables;
use std::collections::BTreeSet;
use xa_branch::{Kind, Known, Working};
use xa_codes::Code;
use xa_xid::Xid;

/// What rows ask of the tables.
impl Tables {
    /// Whether the XID isn't known.
    pub fn is_unknown(&self, xid: &Xid) -> bool
        ensures { TablesSay self.now (λ s. is_unknown (known_as s xid.now) ≡ result) }
    {
        match self.branches.known(xid) {
            Known::Unknown => true,
            Known::AtWork(_) | Known::InDoubt | Known::Completed(_) => false,
        }
    }

    /// Whether the XID is known, so that no branch begins with it.
    pub fn is_taken(&self, xid: &Xid) -> bool
        ensures { TablesSay self.now (λ s. is_taken (known_as s xid.now) ≡ result) }
    {
        match self.branches.known(xid) {
            Known::Unknown => false,
            Known::AtWork(_) | Known::InDoubt | Known::Completed(_) => true,
        }
    }

    /// Whether the branch is prepared, or was completed by the operator.
    pub fn is_lasting(&self, xid: &Xid) -> bool
        ensures { TablesSay self.now (λ s. is_lasting (known_as s xid.now) ≡ result) }
    {
        match self.branches.known(xid) {
            Known::InDoubt | Known::Completed(_) => true,
            Known::Unknown | Known::AtWork(_) => false,
        }
    }

    /// The mark of a branch at work.
    pub fn mark_of(&self, xid: &Xid) -> Option<Code>
        ensures { TablesSay self.now (λ s. mark_in (known_as s xid.now) ≡ result) }
    {
        match self.branches.known(xid) {
            Known::AtWork(mark) => mark,
            Known::Unknown | Known::InDoubt | Known::Completed(_) => None,
        }
    }

    /// Whether the session has an association of its own with a branch that isn't marked.
    pub fn has_unmarked(&self, session: u64) -> bool
        ensures { TablesSay self.now (λ s. list_any (is_of_unmarked session s) s.associations ≡ result) }
    {
        match self.sessions.own_of(session) {
            Some(own) => self.is_any_unmarked(own),
            None => false,
        }
    }

    // Whether any of these branches isn't marked.
    fn is_any_unmarked(&self, own: &BTreeSet<Xid>) -> bool
        ensures { TablesSay self.now (λ s. list_any (is_unmarked s) own.now.keys ≡ result) }
    {
        for xid in own {
            if self.mark_of(xid).is_none() {
                return true;
            }
        }
        false
    }

    /// Whether the branch has a loose association.
    pub fn has_loose(&self, xid: &Xid) -> bool
        ensures { TablesSay self.now (λ s. list_any (is_loose_with xid.now) s.associations ≡ result) }
    {
        self.branches.loose(xid) > 0
    }

    /// The kind of the association that a start with TMRESUME takes, if it isn't refused.
    pub fn resumed_kind(&self, session: u64, xid: &Xid) -> Kind
        ensures { TablesSay self.now (λ s. resume_refusal_of s session xid.now ≡ None
            → resumed_kind s.associations session xid.now ≡ Some result) }
    {
        if self.sessions.has_suspended(session, xid) {
            Kind::Suspended
        } else {
            Kind::Loose
        }
    }

    /// The kind of the association that an end with TMSUCCESS or TMFAIL takes, if it isn't refused.
    pub fn ended_kind(&self, session: u64, xid: &Xid) -> Kind
        ensures { TablesSay self.now (λ s. leave_refusal_of s session xid.now ≡ None
            → ended_kind s.associations session xid.now ≡ Some result) }
    {
        if self.sessions.works_in(session, xid) {
            Kind::Active
        } else if self.sessions.owns(session, xid) {
            Kind::Suspended
        } else {
            Kind::Loose
        }
    }

    /// The branch that the session is at work for.
    pub fn own_branch(&self, session: u64) -> Option<(Xid, Working)>
        ensures { result ≡ own_at (view_of self.now) session }
    {
        let xid = self.sessions.current(session)?;
        let working = self.branches.working_of(xid)?;
        Some((xid.copied(), working))
    }
}

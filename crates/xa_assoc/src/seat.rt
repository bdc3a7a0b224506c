ghost use Rattle.std.specs.Prelude.{◌≡◌, None, Some, [], cond, true, false, OnOk, OnErr};
ghost use Rattle.std.specs.BTreeSet.{contains};
ghost use Rattle.xa_xid.specs.Triple.{xid_cmp};
ghost use Rattle.xa_model.specs.State.{is_with};
ghost use Rattle.xa_assoc.specs.Own.{SetsOne};

use std::alloc::AllocError;
use std::collections::BTreeSet;
use xa_xid::Xid;

/// What is kept of a connected session: whether it is opened, the branch that it is at work for, and all branches that
/// it is associated with. Those that it isn't at work for are suspended. `scan` is the cursor of its recovery scan: no
/// scan is open, or it stands before all XIDs (None), or at one. `limit` is the time limit, in seconds, of the branches
/// that it begins, 0 for none.
#[derive(Debug, Drop)]
pub struct Seat {
    pub opened: bool,
    pub active: Option<Xid>,
    pub own: BTreeSet<Xid>,
    pub scan: Option<Option<Xid>>,
    pub limit: u32,
}

impl Seat {
    /// The session comes to work for a branch. An association of its own takes no memory.
    pub(crate) fn sit_down(&mut self, xid: Xid) -> Result<(), AllocError>
        ensures opened { self.new.opened ≡ self.old.opened }
        ensures active { OnOk result (self.new.active ≡ Some xid) }
        ensures own { OnOk result (SetsOne self.old.own xid true self.new.own) }
        ensures scan { self.new.scan ≡ self.old.scan }
        ensures limit { self.new.limit ≡ self.old.limit }
        ensures err { OnErr result (self.new ≡ self.old) }
        ensures absent { OnErr result (contains xid_cmp self.old.own xid ≡ false) }
    {
        let active = xid.copied();
        self.own.insert(xid)?;
        self.active = Some(active);
        Ok(())
    }

    /// The session is at work for no branch. What it was at work for is suspended.
    pub(crate) fn stand_up(&mut self)
        ensures opened { self.new.opened ≡ self.old.opened }
        ensures active { self.new.active ≡ None }
        ensures own { self.new.own ≡ self.old.own }
        ensures scan { self.new.scan ≡ self.old.scan }
        ensures limit { self.new.limit ≡ self.old.limit }
    {
        self.active = None;
    }

    /// The session's association with the XID ends.
    pub(crate) fn leave(&mut self, xid: &Xid)
        ensures opened { self.new.opened ≡ self.old.opened }
        ensures active { self.new.active ≡ cond (is_with xid.now self.old.active) None self.old.active }
        ensures own { SetsOne self.old.own xid.now false self.new.own }
        ensures scan { self.new.scan ≡ self.old.scan }
        ensures limit { self.new.limit ≡ self.old.limit }
    {
        self.own.remove(xid);
        if is_for(&self.active, xid) {
            self.active = None;
        }
    }

    /// The session's associations end, and its scan. It stays opened, if it was, and keeps its time limit.
    pub(crate) fn clear(&mut self)
        ensures opened { self.new.opened ≡ self.old.opened }
        ensures active { self.new.active ≡ None }
        ensures own { self.new.own.keys ≡ [] }
        ensures scan { self.new.scan ≡ None }
        ensures limit { self.new.limit ≡ self.old.limit }
    {
        self.active = None;
        self.own.clear();
        self.scan = None;
    }
}

/// Whether this is the XID.
fn is_for(active: &Option<Xid>, xid: &Xid) -> bool
    ensures { result ≡ is_with xid.now active.now }
{
    match active {
        Some(active) => *active == *xid,
        None => false,
    }
}

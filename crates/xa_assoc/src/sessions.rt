ghost use Rattle.std.specs.Prelude.{◌≡◌, [], IfNone, IfSome, is_some, option_copied};
ghost use Rattle.xa_model.specs.State.{State, is_with};
ghost use Rattle.xa_assoc.specs.Company.{company_of};
ghost use Rattle.xa_assoc.specs.Seats.{connected_in, opened_at, active_at, owns_at, own_keys_at, suspends_at, holds_any_at};
ghost use Rattle.xa_assoc.specs.Sessions.{SessionsStandFor};

use crate::free::WORDS;
use crate::seat::Seat;
use std::alloc::Global;
use std::collections::{BTreeMap, BTreeSet};
use xa_xid::Xid;

/// The connected sessions by their numbers, and the numbers from 1 to `MOST_SESSIONS` that are free, a bit each.
#[derive(Debug, Drop)]
pub struct Sessions {
    pub(crate) alloc: Global,
    pub(crate) seats: BTreeMap<u64, Seat>,
    pub(crate) free: [u64; WORDS],
}

impl Sessions {
    /// No session is connected.
    pub fn new(alloc: Global) -> Sessions
        ensures { (s : State) → s.sessions ≡ [] → s.associations ≡ [] → SessionsStandFor result s }
    {
        Sessions {
            alloc,
            seats: BTreeMap::new(alloc),
            free: [u64::MAX; WORDS],
        }
    }

    /// How many sessions are connected.
    pub fn connected(&self) -> usize
        ensures count { result ≡ connected_in self.now }
        ensures company { result ≡ (company_of self.now).count }
    {
        self.seats.len()
    }

    /// Whether the session is opened, if it is connected.
    pub fn opened_of(&self, session: u64) -> Option<bool>
        ensures { result ≡ opened_at self.now session }
    {
        self.seats.get(&session).map(|seat| seat.opened)
    }

    /// Whether the session is connected.
    pub fn is_connected(&self, session: u64) -> bool
        ensures opened { result ≡ is_some (opened_at self.now session) }
        ensures company { result ≡ (company_of self.now).has session }
    {
        self.opened_of(session).is_some()
    }

    /// The XID of the branch that the session is at work for.
    pub fn current(&self, session: u64) -> Option<&Xid>
        ensures { option_copied result ≡ active_at self.now session }
    {
        match self.seats.get(&session) {
            Some(seat) => seat.active.as_ref(),
            None => None,
        }
    }

    /// Whether the session has an association of its own with the XID.
    pub fn owns(&self, session: u64, xid: &Xid) -> bool
        ensures { result ≡ owns_at self.now session xid.now }
    {
        match self.seats.get(&session) {
            Some(seat) => seat.own.contains(xid),
            None => false,
        }
    }

    /// The XIDs of all associations of the session's own, if it is connected.
    pub fn own_of(&self, session: u64) -> Option<&BTreeSet<Xid>>
        ensures some { IfSome result (λ own. own.now.keys ≡ own_keys_at self.now session) }
        ensures none { IfNone result (own_keys_at self.now session ≡ []) }
    {
        match self.seats.get(&session) {
            Some(seat) => Some(&seat.own),
            None => None,
        }
    }

    /// Whether the session has an association of its own.
    pub fn holds_any(&self, session: u64) -> bool
        ensures { result ≡ holds_any_at self.now session }
    {
        match self.seats.get(&session) {
            Some(seat) => seat.own.len() > 0,
            None => false,
        }
    }

    /// Whether the session is at work for the branch with this XID.
    pub fn works_in(&self, session: u64, xid: &Xid) -> bool
        ensures { result ≡ is_with xid.now (active_at self.now session) }
    {
        match self.current(session) {
            Some(active) => *active == *xid,
            None => false,
        }
    }

    /// Whether the session has suspended an association with the XID.
    pub fn has_suspended(&self, session: u64, xid: &Xid) -> bool
        ensures { result ≡ suspends_at self.now session xid.now }
    {
        self.owns(session, xid) && !self.works_in(session, xid)
    }
}

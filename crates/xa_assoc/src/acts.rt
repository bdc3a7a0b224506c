ghost use Rattle.std.specs.Prelude.{◌≡◌, ◌+◌, ◌<◌, true, false, None, OnOk, OnErr, IsSome};
ghost use Rattle.xa_assoc.specs.Seats.{seat_at, owns_at};
ghost use Rattle.xa_assoc.specs.Changes.{Comes, Goes, Sets, Clears, ComesToWork, ComesToRest, LosesOwn, IsSameRoom};
ghost use Rattle.xa_assoc.specs.{Company.company_of, Sessions.Stays};
ghost use Rattle.xa_limits.specs.declared.TheConstants.{MOST_SESSIONS};

use crate::free::{make_free, make_taken};
use crate::seat::Seat;
use crate::sessions::Sessions;
use std::alloc::AllocError;
use std::collections::BTreeSet;
use xa_limits::MOST_SESSIONS;
use xa_xid::Xid;

/// Who is connected and opened.
impl Sessions {
    /// The session at a free index, whose number is one more, is connected.
    pub(crate) fn add_seat(&mut self, index: u64) -> Result<(), AllocError>
        requires { index < MOST_SESSIONS }
        ensures ok { OnOk result (Comes self.old (index + 1) self.new) }
        ensures err { OnErr result (Stays self.old self.new) }
        ensures same { OnErr result (company_of self.new ≡ company_of self.old) }
    {
        let seat = Seat {
            opened: false,
            active: None,
            own: BTreeSet::new(self.alloc),
            scan: None,
            limit: 0,
        };
        self.seats.insert(index + 1, seat)?;
        make_taken(&mut self.free, index);
        Ok(())
    }

    pub(crate) fn take_seat(&mut self, session: u64) -> Option<Seat>
        ensures seat { result ≡ seat_at self.old session }
        ensures goes { Goes self.old session self.new }
    {
        let seat = self.seats.remove(&session);
        if session > 0 && session <= MOST_SESSIONS as u64 {
            make_free(&mut self.free, session - 1);
        }
        seat
    }

    pub(crate) fn set_opened(&mut self, session: u64)
        ensures { Sets self.old session (λ _. true) (λ scan. scan) (λ limit. limit) self.new }
    {
        if let Some(seat) = self.seats.get_mut(&session) {
            seat.opened = true;
        }
    }

    /// The session isn't opened, and its scan is over.
    pub(crate) fn set_closed(&mut self, session: u64)
        ensures { Sets self.old session (λ _. false) (λ _. None) (λ limit. limit) self.new }
    {
        if let Some(seat) = self.seats.get_mut(&session) {
            seat.opened = false;
            seat.scan = None;
        }
    }

    pub(crate) fn put_scan(&mut self, session: u64, scan: Option<Option<Xid>>)
        ensures { Sets self.old session (λ opened. opened) (λ _. scan) (λ limit. limit) self.new }
    {
        if let Some(seat) = self.seats.get_mut(&session) {
            seat.scan = scan;
        }
    }

    pub(crate) fn put_limit(&mut self, session: u64, limit: u32)
        ensures { Sets self.old session (λ opened. opened) (λ scan. scan) (λ _. limit) self.new }
    {
        if let Some(seat) = self.seats.get_mut(&session) {
            seat.limit = limit;
        }
    }

    /// All associations end, and all scans.
    pub(crate) fn clear_seats(&mut self)
        ensures { Clears self.old self.new }
    {
        self.seats.retain(|_, seat| {
            seat.clear();
            true
        });
    }
}

/// What calls change of the seat of a connected session.
impl Sessions {
    #[tactic(auto, using(crate::proofs::Companies::room_company))]
    pub(crate) fn sit_down(&mut self, session: u64, xid: Xid) -> Result<(), AllocError>
        requires { IsSome (seat_at self.old session) }
        ensures room { OnOk result (IsSameRoom self.old self.new) }
        ensures seat { OnOk result (ComesToWork self.old session xid self.new) }
        ensures err { OnErr result (Stays self.old self.new) }
        ensures absent { OnErr result (owns_at self.old session xid ≡ false) }
        ensures company { company_of self.new ≡ company_of self.old }
    {
        if let Some(seat) = self.seats.get_mut(&session) {
            seat.sit_down(xid)?;
        }
        Ok(())
    }

    pub(crate) fn stand_up(&mut self, session: u64)
        requires { IsSome (seat_at self.old session) }
        ensures room { IsSameRoom self.old self.new }
        ensures seat { ComesToRest self.old session self.new }
    {
        if let Some(seat) = self.seats.get_mut(&session) {
            seat.stand_up();
        }
    }

    pub(crate) fn leave_seat(&mut self, session: u64, xid: &Xid)
        requires { IsSome (seat_at self.old session) }
        ensures room { IsSameRoom self.old self.new }
        ensures seat { LosesOwn self.old session xid.now self.new }
    {
        if let Some(seat) = self.seats.get_mut(&session) {
            seat.leave(xid);
        }
    }
}

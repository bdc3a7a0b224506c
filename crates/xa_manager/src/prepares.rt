//! Several branches that are prepared together: their rooms, and what they make of the append.
ghost use Rattle.std.specs.Prelude.{◌≡◌, OnErr, OnOk};
ghost use Rattle.xa_assoc.specs.Company.{company_of};
ghost use Rattle.xa_manager.specs.Acts.{GiveRoomsBack, MakeRooms, StaysIfDistinct};

use crate::tables::Tables;
use std::alloc::AllocError;
use xa_xid::Xid;

impl Tables {
    /// Makes the rooms of these branches, which are distinct. If there is no memory, none has one.
    pub fn make_rooms(&mut self, xids: &[Xid]) -> Result<(), AllocError>
        ensures ok { OnOk result (MakeRooms self.old xids.now self.new) }
        ensures err { OnErr result (StaysIfDistinct self.old xids.now self.new) }
        ensures company { company_of self.new.sessions ≡ company_of self.old.sessions }
    {
        'rooms: for (made, xid) in xids.iter().enumerate() {
            let Ok(()) = self.make_room(xid) else {
                self.give_rooms_back(&xids[..made]);
                return Err(AllocError);
            };
        }
        Ok(())
    }

    /// Gives the rooms of these branches back: nothing is appended.
    pub fn give_rooms_back(&mut self, xids: &[Xid])
        ensures given { GiveRoomsBack self.old xids.now self.new }
        ensures company { company_of self.new.sessions ≡ company_of self.old.sessions }
    {
        'rooms: for xid in xids {
            self.give_room_back(xid);
        }
    }
}

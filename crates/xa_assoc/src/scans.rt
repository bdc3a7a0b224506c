ghost use Rattle.std.specs.Prelude.{◌≡◌, ℕ, Some, false, IfOk, IfErr};
ghost use Rattle.xa_model.specs.Recovering.{scan_of, scan_from, scan_after, scanning, moved, recover_by};
ghost use Rattle.xa_assoc.specs.{Company.company_of, Refusals.is_memory, Refusals.IsBare, Seats.scan_at};
ghost use Rattle.xa_assoc.specs.Sessions.{FollowsAlways, InEach, Refuses};

use crate::sessions::Sessions;
use xa_codes::{TMENDRSCAN, TMSTARTRSCAN, XAER_INVAL};
use xa_frame::Reply;
use xa_xid::Xid;

/// The recovery scans of sessions. Nothing here takes memory.
impl Sessions {
    /// The cursor of the session's scan, if one is open: it stands before all XIDs (None), or at one.
    pub fn scan_of(&self, session: u64) -> Option<Option<Xid>>
        ensures seat { result ≡ scan_at self.now session }
        ensures state { InEach self.now (λ s. result ≡ scan_of s.sessions session) }
    {
        match &self.seats.get(&session)?.scan {
            Some(cursor) => Some(cursor.as_ref().map(|xid| xid.copied())),
            None => None,
        }
    }

    /// The cursor that a recovery with these flags goes on from: TMSTARTRSCAN opens a scan before all XIDs, and without
    /// it one has to be open.
    pub fn recover_from(&self, session: u64, flags: u32) -> Result<Option<Xid>, Reply>
        ensures cursor { IfOk result (λ cursor.
            InEach self.now (λ s. scan_from flags (scan_of s.sessions session) ≡ Some cursor)) }
        ensures refused { IfErr result (λ reply. (count : ℕ)
            → Refuses self.now (λ s. recover_by s session flags count) reply) }
        ensures served { IfErr result (λ reply. is_memory reply.detail ≡ false) }
        ensures bare { IfErr result IsBare }
    {
        if flags & TMSTARTRSCAN == TMSTARTRSCAN {
            return Ok(None);
        }
        match self.scan_of(session) {
            Some(cursor) => Ok(cursor),
            None => Err(Reply::plain(XAER_INVAL)),
        }
    }

    /// The session's scan, if it is connected, stands at this cursor, or none is open.
    #[tactic(auto, using(crate::proofs::Companies::set_company))]
    pub fn set_scan(&mut self, session: u64, scan: Option<Option<Xid>>)
        ensures after { FollowsAlways self.old (λ s. scanning s session scan) self.new }
        ensures company { company_of self.new ≡ company_of self.old }
    {
        self.put_scan(session, scan);
    }

    /// Once a recovery with these flags went on from the cursor and listed these XIDs: the session's scan stands at the
    /// last of them, and with TMENDRSCAN it is over.
    pub fn move_scan(&mut self, session: u64, flags: u32, cursor: Option<Xid>, xids: &[Xid])
        ensures after { FollowsAlways self.old (λ s. scanning s session (scan_after flags cursor xids.now)) self.new }
        ensures company { company_of self.new ≡ company_of self.old }
    {
        self.set_scan(session, scan_after(flags, cursor, xids));
    }
}

fn scan_after(flags: u32, cursor: Option<Xid>, xids: &[Xid]) -> Option<Option<Xid>>
    ensures { result ≡ scan_after flags cursor xids.now }
{
    if flags & TMENDRSCAN == TMENDRSCAN {
        return None;
    }
    Some(moved(cursor, xids))
}

/// The cursor at the last XID, if there is one.
fn moved(cursor: Option<Xid>, xids: &[Xid]) -> Option<Xid>
    ensures { result ≡ moved cursor xids.now }
{
    match xids.last() {
        Some(xid) => Some(xid.copied()),
        None => cursor,
    }
}

//! How calls that are asked together become a group: what each appends, which may stand together, and their memory.
ghost use Rattle.std.specs.Prelude.{◌≡◌, ◌⊎◌, ◌+◌, ◌≤◌, List, length, not, true, [], IfOk, IfSome, OnErr, OnOk};
ghost use Rattle.std.specs.List.{AllByRecursion, list_all};
ghost use Rattle.xa_limits.specs.declared.TheConstants.{AROUND_CLOSED, MOST_BODY};
ghost use Rattle.xa_log.specs.declared.left_out.TheConstants.{MOST_GROUP};
ghost use Rattle.xa_xid.specs.Triple.{xid_eq};
ghost use Rattle.xa_model.specs.Events.{IsAsked};
ghost use Rattle.xa_manager.specs.{Believed.Answered.StaysFor, Connected.connected_to};
ghost use Rattle.xa_manager.specs.{Plans.bytes_of, Reserving.HasReserved};
ghost use Rattle.xa_log.specs.{Buffer.Holds, Believed.Group.as_one, Reading.bodies_of};
ghost use Rattle.xa_manager.specs.Believed.Together.{AppendsAlone, AreReady, asks_prepare, HasJoined, IsGroup, MayJoin};
ghost use Rattle.xa_manager.specs.Believed.Together.{StandsLast};

use crate::manager::Manager;
use crate::plan::{Logging, Plan};
use crate::row::{Row, Writing};
use crate::together::{Asked, Joining, Together};
use std::alloc::{AllocError, Global};
use xa_disk::Disk;
use xa_frame::Request;
use xa_limits::{AROUND_BODY, AROUND_CLOSED, MOST_BODY};
use xa_log::{Group, MOST_GROUP};
use xa_xid::Xid;

impl Asked {
    /// Whether it prepares a branch.
    fn prepares(&self) -> bool
        ensures { result ≡ asks_prepare self.now.request }
    {
        matches!(self.request, Request::Prepare { .. })
    }
}

impl Together {
    /// Whether the XID is none of its calls'.
    pub(crate) fn is_apart(&self, xid: &Xid) -> bool
        ensures { result ≡ list_all (λ j. not (xid_eq j.xid xid.now)) self.now.members.items }
    {
        self.members.iter().all(|member| member.xid != *xid)
    }

    /// How many bytes its records may have, with the body of one more.
    fn most(&self) -> usize
        ensures short { result ≤ MOST_BODY }
        ensures bounded { (self.now.members.items ≡ []) ⊎ (result + AROUND_CLOSED ≤ MOST_GROUP) }
    {
        if self.members.is_empty() {
            MOST_BODY
        } else {
            MOST_GROUP - AROUND_CLOSED
        }
    }

    /// Adds a call, after the others.
    fn push(&mut self, at: usize, logging: Logging, alloc: Global) -> Result<(), AllocError>
        requires { self.old.bytes + length (bytes_of logging.body) ≤ MOST_BODY }
        ensures { OnOk result (StandsLast self.old at logging.row logging.xid (bytes_of logging.body) self.new) }
    {
        self.bytes += AROUND_BODY + logging.body.len();
        if let Row::Writes(Writing::Prepare) = logging.row {
            self.prepares.push(logging.xid.copied())?;
        }
        self.bodies.push(logging.body.into_vec(alloc)?)?;
        self.members.push(Joining {
            at,
            row: logging.row,
            xid: logging.xid,
        })?;
        Ok(())
    }
}

impl<D: Disk> Manager<D> {
    /// What a call appends that is asked with others. None if it logs nothing: it is refused, or answered at once.
    /// Nothing changes.
    fn plan_of(&self, session: u64, request: &Request) -> Result<Option<Logging>, AllocError>
        requires { IsAsked request.now }
        ensures { IfOk result (λ plan. IfSome plan (λ l.
            AppendsAlone D.Disk self.now
            (record { session = session; request = request.now; row = l.row; xid = l.xid }) (bytes_of l.body))) }
    {
        if let Some(_reply) = self.refusal(session, request) {
            return Ok(None);
        }
        let Some((row, xid)) = Row::of(request) else {
            return Ok(None);
        };
        match self.plan(row, xid)? {
            Plan::Now(_, _) => Ok(None),
            Plan::Logs(logging) => Ok(Some(logging)),
        }
    }

    /// Whether a call may stand after those of a group: its XID is none of theirs, there is room for its record after
    /// theirs, whatever becomes of them, and the group doesn't become too long (`MOST_GROUP`).
    fn may_join(&self, together: &Together, logging: &Logging) -> bool
        ensures { result ≡ true → MayJoin D.Disk self.now together.now logging.now.row logging.now.xid
            (length (bytes_of logging.now.body)) }
    {
        let len = together.bytes.saturating_add(logging.body.len());
        if len > together.most() || !together.is_apart(&logging.xid) {
            return false;
        }
        let Row::Writes(writing) = logging.row else {
            return true;
        };
        self.has_room(len, writing.more() + together.prepares.len() as u64)
    }

    /// Takes a call into the group. One that logs nothing, or may not stand after those that were taken, is left out,
    /// to be called alone afterwards. Nothing else changes.
    fn take_in(&self, at: usize, call: &Asked, together: &mut Together) -> Result<(), AllocError>
        requires { IsAsked call.now.request }
        ensures { OnOk result
            ((together.new ≡ together.old) ⊎ HasJoined D.Disk self.now at call.now together.old together.new) }
    {
        let Some(logging) = self.plan_of(call.session, &call.request)? else {
            return Ok(());
        };
        if !self.may_join(together, &logging) {
            return Ok(());
        }
        together.push(at, logging, self.tables.alloc)
    }

    /// Takes calls into the group, in their order: the prepares among them, or the others. Nothing else changes.
    pub(crate) fn gather(
        &self,
        calls: &[Asked],
        prepares: bool,
        together: &mut Together,
    ) -> Result<(), AllocError>
        requires asked { AllByRecursion (λ c. IsAsked c.request) calls.now }
        requires first { prepares ≡ true → together.old.members.items ≡ [] }
        ensures { OnOk result
            (IsGroup D.Disk self.now calls.now together.old → IsGroup D.Disk self.now calls.now together.new) }
    {
        'calls: for (at, call) in calls.iter().enumerate() {
            if call.prepares() == prepares {
                self.take_in(at, call, together)?;
            }
        }
        Ok(())
    }

    /// Makes room in the log's buffer for the group's records. Returns whether there was memory, and they may be that long.
    pub(crate) fn has_reserved(&mut self, together: &Together) -> bool
        requires some { 1 ≤ length together.now.bodies.items }
        ensures holds { result ≡ true → Holds self.new.log (as_one (bodies_of together.now.bodies.items)) }
        ensures stays { StaysFor D.Disk self.old self.new }
        ensures log { HasReserved D.Disk self.old.log self.new.log }
        ensures same { self.new ≡ record self.old { log = self.new.log } }
    {
        self.log.reserve_group(Group::Many(&together.bodies)) == Ok(true)
    }

    /// Takes all memory that the group still needs: for what is kept of the branches that are prepared, and room for
    /// its records in the log's buffer. The manager stands for what it stood for.
    pub(crate) fn take_memory_together(&mut self, together: &Together) -> Result<(), AllocError>
        requires some { 1 ≤ length together.now.bodies.items }
        ensures ok { OnOk result (AreReady D.Disk self.old together.now self.new) }
        ensures stays { (calls : List Asked) → IsGroup D.Disk self.old calls together.now → StaysFor D.Disk self.old self.new }
        ensures same { self.new ≡ record self.old { tables = self.new.tables; log = self.new.log } }
        ensures log { HasReserved D.Disk self.old.log self.new.log }
        ensures outcome { self.new.outcome ≡ self.old.outcome }
        ensures company { connected_to self.new ≡ connected_to self.old }
    {
        self.tables.make_rooms(&together.prepares)?;
        if self.has_reserved(together) {
            return Ok(());
        }
        self.tables.give_rooms_back(&together.prepares);
        Err(AllocError)
    }
}

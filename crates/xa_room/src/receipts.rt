ghost use Rattle.std.specs.Prelude.{◌≡◌, ℕ, ◌<◌, [], length, IfSome, pos};
ghost use Rattle.std.specs.List.{AllByRecursion};
ghost use Rattle.xa_frame.specs.declared.request.Request.{Request};
ghost use Rattle.xa_manager.specs.Believed.Answered.{connect_reply};
ghost use Rattle.xa_model.specs.Answer.{plain};
ghost use Rattle.xa_model.specs.declared.event.Event.TheVariants as Event;
ghost use Rattle.xa_history.specs.Believed.Together.{event_at};
ghost use Rattle.xa_room.specs.Keeping.{Keeps, Notes, NotesAll, next_place, without_receipt};

use crate::copying::copied_reply;
use std::alloc::Global;
use std::marker::Model;
use xa_assoc::ConnectFault;
use xa_codes::XA_OK;
use xa_frame::{Reply, Request};
use xa_history::{Receipt, is_memory, placed};
use xa_manager::{Asked, connect_reply};
use xa_model::Event;

/// The receipts of a room, and how many found no memory. Contracts see both.
#[derive(Drop)]
pub(crate) struct Receipts {
    kept: Vec<Receipt>,
    lost: u64,
    alloc: Global,
}

impl Model for Receipts {
    ghost use Rattle.xa_room.specs.Keeping.{Kept};

    ghost Value = { Kept };

    ghost view = { λ r. record { receipts = r.kept.items; lost = r.lost } };
}

impl Receipts {
    pub(crate) fn new(alloc: Global) -> Receipts
        ensures { result ≡ record { receipts = []; lost = 0 } }
    {
        Receipts {
            kept: Vec::new(alloc),
            lost: 0,
            alloc,
        }
    }

    pub(crate) fn kept(&self) -> &[Receipt]
        ensures { result.now ≡ self.now.receipts }
    {
        &self.kept
    }

    pub(crate) fn into_kept(self) -> Vec<Receipt>
        ensures { result.items ≡ self.receipts }
    {
        self.kept
    }

    pub(crate) fn lost(&self) -> u64
        ensures { result ≡ self.now.lost }
    {
        self.lost
    }

    /// A copy of a request, if there is memory for one.
    pub(crate) fn copied(&self, request: &Request) -> Option<Request>
        ensures { IfSome result (λ copy. copy ≡ request.now) }
    {
        request.copied(self.alloc).ok()
    }

    // Keeps the receipt of an event.
    fn keep(&mut self, event: Event, reply: Reply)
        ensures { Keeps self.old event reply self.new }
    {
        let place = self.next_place();
        let receipt = Receipt {
            place,
            event,
            reply: placed(reply, place),
        };
        if self.kept.push(receipt).is_err() {
            self.lose();
        }
    }

    /// Keeps the receipt of a connect, unless there was no memory for it.
    pub(crate) fn note_connect(&mut self, connected: Result<u64, ConnectFault>)
        ensures { Notes self.old Event.Connect (connect_reply connected) self.new }
    {
        let reply = connect_reply(connected);
        if !is_memory(&reply) {
            self.keep(Event::Connect, reply);
        }
    }

    /// Keeps the receipt of a hang-up.
    pub(crate) fn note_hangup(&mut self, session: u64)
        ensures { Notes self.old (Event.Hangup session) (plain (pos 0)) self.new }
    {
        self.keep(Event::Hangup(session), Reply::plain(XA_OK));
    }

    /// Keeps the receipt of a call of which this copy was made, unless there was no memory for the call.
    pub(crate) fn note_call(&mut self, session: u64, copy: Option<Request>, reply: &Reply)
        ensures { (asked : Request) → IfSome copy (λ made. made ≡ asked)
            → Notes self.old (Event.Call session asked) reply.now self.new }
    {
        if is_memory(reply) {
            return;
        }
        match (copy, copied_reply(self.alloc, reply)) {
            (Some(request), Ok(reply)) => self.keep(Event::Call(session, request), reply),
            _ => self.lose(),
        }
    }

    /// Keeps the receipts of calls that were answered together, in the order of their replies.
    pub(crate) fn note_all(&mut self, calls: &[Asked], replies: &[(usize, Reply)])
        requires { AllByRecursion (λ r. r.0 < length calls.now) replies.now }
        ensures { NotesAll calls.now self.old replies.now self.new }
    {
        for told in replies {
            self.note_told(calls, told);
        }
    }

    // Keeps the receipt of one of them.
    fn note_told(&mut self, calls: &[Asked], told: &(usize, Reply))
        requires { told.now.0 < length calls.now }
        ensures { Notes self.old (event_at calls.now told.now.0) told.now.1 self.new }
    {
        let call = &calls[told.0];
        let copy = self.copied(&call.request);
        self.note_call(call.session, copy, &told.1);
    }

    fn next_place(&self) -> u64
        ensures { result ≡ next_place self.now }
    {
        let known = (self.kept.len() as u64).saturating_add(self.lost);
        known.saturating_add(1)
    }

    // Counts a receipt that found no memory.
    fn lose(&mut self)
        ensures { self.new ≡ without_receipt self.old }
    {
        self.lost = self.lost.saturating_add(1);
    }
}

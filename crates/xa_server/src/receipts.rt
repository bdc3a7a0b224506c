use crate::gate::Gate;
use crate::keeping::Keeps;
use crate::report::Report;
use std::alloc::{AllocError, Global};
use std::sync::atomic::{AtomicU64, Ordering};
use xa_assoc::ConnectFault;
use xa_codes::XA_OK;
use xa_frame::{Reply, Request};
use xa_history::{Receipt, is_memory, placed};
use xa_limits::MOST_SESSIONS;
use xa_manager::connect_reply;
use xa_model::Event;
use xa_room::copied_reply;

/// Keeps the receipt of each event that a loop was told of, and tells a gate of each call.
#[derive(Drop)]
pub(crate) struct Receipts<'g, G: Gate> {
    gate: &'g G,
    /// Of each session: twice the number of calls that have left the gate, and 1 more while one is inside.
    passed: &'g [AtomicU64],
    report: Report,
    alloc: Global,
}

/// Room for how far each session's calls are: that they have their numbers from 1 to `MOST_SESSIONS`.
pub(crate) fn passages(alloc: Global) -> Result<Vec<AtomicU64>, AllocError> {
    let mut passed = Vec::new(alloc);
    for _i in 0..=MOST_SESSIONS {
        passed.push(AtomicU64::new(0))?;
    }
    Ok(passed)
}

impl<'g, G: Gate> Receipts<'g, G> {
    pub(crate) fn new(alloc: Global, gate: &'g G, passed: &'g [AtomicU64]) -> Receipts<'g, G> {
        Receipts {
            gate,
            passed,
            report: Report::new(alloc),
            alloc,
        }
    }

    pub(crate) fn into_report(self) -> Report {
        let Receipts { report, .. } = self;
        report
    }

    // Keeps the receipt of an event with this reply, if memory was found for the event.
    fn keep(&mut self, event: Option<Event>, reply: &Reply) {
        if is_memory(reply) {
            return;
        }
        let receipt = receipt_of(self.alloc, event, reply);
        self.report.keep(receipt);
    }

    // How far the session's calls are.
    fn of(&self, session: u64) -> Option<&AtomicU64> {
        self.passed.get(session as usize)
    }
}

impl<G: Gate> Keeps for Receipts<'_, G> {
    fn another(&self) -> Self {
        Receipts::new(self.alloc, self.gate, self.passed)
    }

    fn enter(&self, session: u64) {
        let Some(passed) = self.of(session) else {
            return;
        };
        let before = passed.load(Ordering::SeqCst);
        if before % 2 == 0 {
            passed.store(before.saturating_add(1), Ordering::SeqCst);
            self.gate.enter(session, before / 2 + 1);
        }
    }

    fn copied(&self, request: &Request) -> Option<Request> {
        request.copied(self.alloc).ok()
    }

    fn keep_call(&mut self, session: u64, request: Option<Request>, reply: &Reply) {
        let event = match request {
            Some(request) => Some(Event::Call(session, request)),
            None => None,
        };
        self.keep(event, reply);
    }

    fn leave(&self, session: u64) {
        let Some(passed) = self.of(session) else {
            return;
        };
        let before = passed.load(Ordering::SeqCst);
        if before % 2 == 1 {
            passed.store(before.saturating_add(1), Ordering::SeqCst);
            self.gate.leave(session, before / 2 + 1);
        }
    }

    fn keep_connect(&mut self, session: Result<u64, ConnectFault>, place: u64) {
        if let Ok(session) = session {
            if let Some(passed) = self.of(session) {
                passed.store(0, Ordering::SeqCst);
            }
        }
        let reply = placed(connect_reply(session), place);
        self.keep(Some(Event::Connect), &reply);
    }

    fn keep_hangup(&mut self, session: u64, place: u64) {
        let reply = placed(Reply::plain(XA_OK), place);
        self.keep(Some(Event::Hangup(session)), &reply);
    }

    fn join(self, other: Self) -> Self {
        let Receipts {
            gate,
            passed,
            report,
            alloc,
        } = self;
        let report = report.join(other.into_report());
        Receipts {
            gate,
            passed,
            report,
            alloc,
        }
    }
}

// The receipt of an event with this reply, None if there is no memory for it.
fn receipt_of(alloc: Global, event: Option<Event>, reply: &Reply) -> Option<Receipt> {
    let event = event?;
    let reply = copied_reply(alloc, reply).ok()?;
    Some(Receipt {
        place: reply.place,
        event,
        reply,
    })
}

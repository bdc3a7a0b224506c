use std::alloc::Global;
use xa_frame::{Reply, Request};
use xa_history::Receipt;
use xa_model::Event;
use xa_room::copied_reply;

/// The receipts of what was told.
#[derive(Drop)]
pub struct Told {
    pub receipts: Vec<Receipt>,
    /// Whether there was memory for each, and all was right.
    pub is_whole: bool,
    alloc: Global,
}

impl Told {
    pub fn new(alloc: Global) -> Told {
        Told {
            receipts: Vec::new(alloc),
            is_whole: true,
            alloc,
        }
    }

    /// A copy of a request that is to be asked.
    pub fn copied(&self, request: &Request) -> Option<Request> {
        request.copied(self.alloc).ok()
    }

    /// Keeps the receipt of a call, of which this copy was made.
    pub fn keep_call(&mut self, session: u64, request: Option<Request>, reply: &Reply) {
        match request {
            Some(request) => self.keep(Event::Call(session, request), reply),
            None => self.is_whole = false,
        }
    }

    /// Keeps the receipt of an event with this reply.
    pub fn keep(&mut self, event: Event, reply: &Reply) {
        let is_kept = match copied_reply(self.alloc, reply) {
            Ok(reply) => {
                let receipt = Receipt {
                    place: reply.place,
                    event,
                    reply,
                };
                self.receipts.push(receipt).is_ok()
            }
            Err(_) => false,
        };
        self.is_whole &= is_kept;
    }

    /// Adds what another was told.
    pub fn add(&mut self, other: Told) {
        let Told {
            mut receipts,
            is_whole,
            ..
        } = other;
        let is_added = self.receipts.append(&mut receipts).is_ok();
        self.is_whole &= is_whole && is_added;
    }

    /// Whether the places rise, and none is missing.
    pub fn rises(&self) -> bool {
        let mut last = 0;
        for receipt in &self.receipts {
            if receipt.place <= last {
                return false;
            }
            last = receipt.place;
        }
        self.is_whole
    }
}

use xa_frame::Reply;
use xa_model::{Event, Outcome};

/// One event of a history: its place, from 1, what was asked, what the device did, and the reply, which has the
/// place too.
#[derive(Debug, Drop)]
pub struct Entry {
    pub place: u64,
    pub event: Event,
    pub outcome: Outcome,
    pub reply: Reply,
}

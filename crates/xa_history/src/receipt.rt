use xa_frame::Reply;
use xa_model::Event;

/// What whoever asked gets of an entry.
#[derive(Debug, Drop)]
pub struct Receipt {
    pub place: u64,
    pub event: Event,
    pub reply: Reply,
}

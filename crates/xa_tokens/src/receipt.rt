use crate::ask::Ask;
use xa_frame::Reply;

/// An entry of the history: an ask that was carried out, and its reply, which has the entry's place, from 1.
#[derive(Drop)]
pub struct Receipt {
    pub ask: Ask,
    pub reply: Reply,
}

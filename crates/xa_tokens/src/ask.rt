use xa_model::Event;

/// An event that is asked for, and the place of the entry that its asker was told last, or 0.
#[derive(Drop)]
pub struct Ask {
    pub event: Event,
    pub after: u64,
}

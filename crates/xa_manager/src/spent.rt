use std::alloc::{AllocError, Global};
use xa_record::Writes;
use xa_shared::SharedBytes;

/// How many bytes the bodies of branches have whose writes are freed together.
const MOST_BYTES: usize = 65_536;

/// The writes of branches that stand in the records and in a snapshot's bodies by now, until many are freed together. Of
/// the places that are freed an allocator keeps a few of each size for itself. After every single branch, those few would
/// lie in the middle of what the branch leaves, and the body of a later one wouldn't fit there.
#[derive(Drop)]
pub(crate) struct Spent {
    writes: Vec<Writes>,
    /// How many bytes their bodies have.
    bytes: usize,
}

impl Spent {
    pub(crate) fn new(alloc: Global) -> Spent {
        Spent {
            writes: Vec::new(alloc),
            bytes: 0,
        }
    }

    /// Takes the writes of a branch, with this body. If the bodies have many bytes, all are freed.
    pub(crate) fn add(
        &mut self,
        writes: Writes,
        body: Option<&SharedBytes>,
    ) -> Result<(), AllocError> {
        self.writes.push(writes)?;
        let bytes = match body {
            Some(body) => body.len(),
            None => 0,
        };
        self.bytes = self.bytes.saturating_add(bytes);
        if self.bytes >= MOST_BYTES {
            self.writes.clear();
            self.bytes = 0;
        }
        Ok(())
    }
}

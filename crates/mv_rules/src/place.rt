//! Where the values of writes stand in a record's body. Each write is its key's length in a byte, the key, a byte, and if
//! there is a value, its length in two bytes and the value (docs/LOG.md, "The bodies").
ghost use Rattle.std.specs.Prelude.{◌≡◌, IfOk};

use mv_chain::ValueBytes;
use std::alloc::{AllocError, Global};
use xa_codes::Write;
use xa_shared::SharedBytes;

/// A place in a body, from which writes stand there. A wrong one only costs memory: bytes are compared.
#[derive(Drop)]
pub(crate) struct Place<'a> {
    body: Option<&'a SharedBytes>,
    at: usize,
}

const BESIDE_KEY: usize = 2;

const BEFORE_VALUE: usize = 2;

fn spelled_len(write: &Write) -> usize {
    let key = write.key.as_slice().len().saturating_add(BESIDE_KEY);
    match &write.value {
        Some(value) => key
            .saturating_add(BEFORE_VALUE)
            .saturating_add(value.as_slice().len()),
        None => key,
    }
}

impl<'a> Place<'a> {
    /// Where these writes stand, which are the body's last.
    pub(crate) fn of_last(body: Option<&'a SharedBytes>, writes: &[Write]) -> Place<'a> {
        let Some(shared) = body else {
            return Place { body, at: 0 };
        };
        let len = writes.iter().fold(0usize, |len, write| len.saturating_add(spelled_len(write)));
        let at = shared.len().saturating_sub(len);
        Place { body, at }
    }

    /// The value of the next write. It is left in the body if it stands there, and copied otherwise.
    pub(crate) fn left(&mut self, alloc: Global, write: &Write) -> Result<ValueBytes, AllocError>
        ensures { IfOk result (λ v. v ≡ write.now.value) }
    {
        let end = self.at.saturating_add(spelled_len(write));
        self.at = end;
        let Some(value) = &write.value else {
            return Ok(ValueBytes::new(None));
        };
        let value = value.as_slice();
        if let Some(body) = self.body {
            let start = end.saturating_sub(value.len());
            if let Some(left) = ValueBytes::within(body, start, value) {
                return Ok(left);
            }
        }
        Ok(ValueBytes::new(Some(value.to_vec(alloc)?)))
    }
}

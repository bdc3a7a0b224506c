ghost use Rattle.std.specs.Prelude.{◌≡◌, ◌==◌, IfOk, length};

use std::alloc::{AllocError, Global};
use std::marker::Model;
use std::sync::Arc;

/// Bytes with one owner or several, which contracts see as a list. They are freed with the last owner.
#[derive(Debug, Drop)]
pub struct SharedBytes {
    bytes: Arc<Vec<u8>>,
}

impl Model for SharedBytes {
    ghost use Rattle.std.specs.Arc.{arc_value};
    ghost use Rattle.std.specs.Prelude.{List, ℕ};

    ghost Value = { List ℕ };

    ghost view = { λ b. (arc_value b.bytes).items };
}

impl SharedBytes {
    /// The bytes of a vector, which are moved.
    ///
    /// # Errors
    /// Out of memory.
    pub fn new(alloc: Global, bytes: Vec<u8>) -> Result<SharedBytes, AllocError>
        ensures { IfOk result (λ b. b ≡ bytes.items) }
    {
        match Arc::new(alloc, bytes) {
            Ok(bytes) => Ok(SharedBytes { bytes }),
            Err(_) => Err(AllocError),
        }
    }

    /// Another owner of the same bytes. Takes no memory.
    ///
    /// # Errors
    /// There are 2^63 owners.
    pub fn another(&self) -> Result<SharedBytes, AllocError>
        ensures { IfOk result (λ b. b ≡ self.now) }
    {
        Ok(SharedBytes {
            bytes: Arc::try_clone(&self.bytes)?,
        })
    }

    /// The bytes. Takes no memory.
    pub fn as_slice(&self) -> &[u8]
        ensures { result.now ≡ self.now }
    {
        (*self.bytes).as_slice()
    }

    /// How many bytes there are.
    pub fn len(&self) -> usize
        ensures { result ≡ length self.now }
    {
        self.as_slice().len()
    }
    /// Whether there are none.
    pub fn is_empty(&self) -> bool
        ensures { result ≡ (length self.now == 0) }
    {
        self.len() == 0
    }
}

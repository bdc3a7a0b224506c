ghost use Rattle.std.specs.Prelude.{◌≡◌, ◌≤◌, IfOk, IsOk, length};
ghost use Rattle.xa_limits.specs.declared.TheConstants.{MOST_KEY};

use smallvec::SmallVec;
use std::alloc::{AllocError, Global};
use std::marker::Model;
use xa_codes::Bytes;
use xa_limits::MOST_KEY;

/// A copy of a key, which contracts see as a list. One of at most `MOST_KEY` bytes takes no memory.
#[derive(Debug, Drop)]
pub struct OwnKey {
    bytes: SmallVec<u8, MOST_KEY>,
}

impl Model for OwnKey {
    ghost use Rattle.std.specs.Prelude.{List, ℕ};

    ghost Value = { List ℕ };

    ghost view = { λ k. k.bytes.items };
}

impl OwnKey {
    pub(crate) fn from_slice(alloc: Global, key: &[u8]) -> Result<OwnKey, AllocError>
        ensures key { IfOk result (λ k. k ≡ key.now) }
        ensures inline { length key.now ≤ MOST_KEY → IsOk result }
    {
        let bytes = SmallVec::from_slice(alloc, key)?;
        Ok(OwnKey { bytes })
    }

    /// A copy on the heap.
    pub(crate) fn to_bytes(&self, alloc: Global) -> Result<Bytes, AllocError>
        ensures { IfOk result (λ b. b ≡ self.now) }
    {
        Bytes::from_slice(alloc, self.as_slice())
    }

    /// The bytes. Takes no memory.
    pub fn as_slice(&self) -> &[u8]
        ensures { result.now ≡ self.now }
    {
        self.bytes.as_slice()
    }
}

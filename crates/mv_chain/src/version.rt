ghost use Rattle.std.specs.Prelude.{◌≡◌, take, drop, Some, IfSome, option_map};
ghost use Rattle.mv_chain.specs.Stored.{is_deleted};

use std::marker::Model;
use xa_shared::SharedBytes;

/// Where the bytes of a value are.
#[derive(Debug, Drop)]
enum Stored {
    /// Nowhere: the branch deleted the key.
    Absent,
    /// Here.
    Own(Vec<u8>),
    /// In others: `len` of them, from the one at `start` on.
    Within {
        bytes: SharedBytes,
        start: u32,
        len: u32,
    },
}

/// What a key has, which contracts see as the bytes of a value, or as none if the key is absent.
#[derive(Debug, Drop)]
pub struct ValueBytes {
    stored: Stored,
}

impl Model for ValueBytes {
    ghost use Rattle.mv_chain.specs.Stored.{stored_bytes};
    ghost use Rattle.std.specs.Prelude.{List, ℕ, Option};

    ghost Value = { Option (List ℕ) };

    ghost view = { λ v. stored_bytes v.stored };
}

impl ValueBytes {
    /// The bytes of a vector, which are moved. Takes no memory.
    pub fn new(value: Option<Vec<u8>>) -> ValueBytes
        ensures { result ≡ option_map (λ v. v.items) value }
    {
        let stored = match value {
            Some(bytes) => Stored::Own(bytes),
            None => Stored::Absent,
        };
        ValueBytes { stored }
    }

    /// Bytes that stand in `shared` from an index on, and are left there. None if they don't stand there, or there are
    /// none. Takes no memory.
    pub fn within(shared: &SharedBytes, start: usize, bytes: &[u8]) -> Option<ValueBytes>
        ensures { IfSome result (λ v. v ≡ Some bytes.now) }
    {
        let first = u32::try_from(start).ok()?;
        let len = u32::try_from(bytes.len()).ok()?;
        if bytes.is_empty() || part(shared.as_slice(), start, bytes.len()) != bytes {
            return None;
        }
        Some(ValueBytes {
            stored: Stored::Within {
                bytes: shared.another().ok()?,
                start: first,
                len,
            },
        })
    }

    /// Whether there are none.
    pub(crate) fn is_absent(&self) -> bool
        ensures { result ≡ is_deleted self.now }
    {
        match &self.stored {
            Stored::Absent => true,
            Stored::Own(_) | Stored::Within { .. } => false,
        }
    }

    /// The bytes.
    pub(crate) fn as_slice(&self) -> Option<&[u8]>
        ensures { option_map (λ v. v.now) result ≡ self.now }
    {
        match &self.stored {
            Stored::Absent => None,
            Stored::Own(bytes) => Some(bytes.as_slice()),
            Stored::Within { bytes, start, len } => {
                Some(part(bytes.as_slice(), *start as usize, *len as usize))
            }
        }
    }
}

/// `len` bytes from an index on, or as many as there are.
fn part(bytes: &[u8], start: usize, len: usize) -> &[u8]
    ensures { result.now ≡ take len (drop start bytes.now) }
{
    let from = &bytes[start.min(bytes.len())..];
    &from[..len.min(from.len())]
}

/// What one branch left at a key.
#[derive(Debug, Drop)]
pub struct Version {
    /// The branch's timestamp.
    pub timestamp: u64,
    /// What the key has, or none if the branch deleted it.
    pub value: ValueBytes,
    /// Whether the branch is still undecided.
    pub pending: bool,
    /// The greatest timestamp that has read this version, or 0.
    pub mark: u64,
}

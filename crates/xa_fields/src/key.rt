ghost use Rattle.std.specs.Prelude.{◌≡◌, ◌↔◌, IfSome, IsSome};
ghost use Rattle.xa_fields.specs.{Answers.Gives, Limits.IsKey, Reading.key_at};

use crate::fault::FieldFault;
use crate::reading::take_key;
use arrayvec::ArrayVec;
use std::marker::Model;
use xa_limits::MOST_KEY;

/// A key of 1 to `MOST_KEY` bytes, in bytes of its own: it takes no memory. Contracts see it as a list.
#[derive(Debug, Drop)]
pub struct Key {
    bytes: ArrayVec<u8, MOST_KEY>,
}

impl Model for Key {
    ghost use Rattle.std.specs.Prelude.{List, ℕ};
    ghost use Rattle.xa_fields.specs.Limits.{IsKey};

    ghost Value = { List ℕ };

    ghost view = { λ k. k.bytes.items };

    ghost invariant = { λ k. IsKey k.bytes.items };
}

impl Key {
    /// A key of these bytes; `None` if there are none, or more than `MOST_KEY`. Takes no memory.
    pub fn new(bytes: &[u8]) -> Option<Key>
        ensures key { IfSome result (λ k. k ≡ bytes.now) }
        ensures valid { IsSome result ↔ IsKey bytes.now }
    {
        if bytes.is_empty() || bytes.len() > MOST_KEY {
            return None;
        }
        Some(held(bytes))
    }

    /// The key after its length of one byte, and what stands after it. Takes no memory.
    pub fn take(bytes: &[u8]) -> Result<(Key, &[u8]), FieldFault>
        ensures { Gives (λ x. (x.0, x.1.now)) result (key_at bytes.now) }
    {
        let (key, rest) = take_key(bytes)?;
        Ok((held(key), rest))
    }

    /// The bytes. Takes no memory.
    pub fn as_slice(&self) -> &[u8]
        ensures value { result.now ≡ self.now }
        ensures limits { IsKey result.now }
    {
        self.bytes.as_slice()
    }

    /// A copy. Takes no memory.
    pub fn copied(&self) -> Key
        ensures { result ≡ self.now }
    {
        held(self.as_slice())
    }
}

fn held(key: &[u8]) -> Key
    requires { IsKey key.now }
    ensures { result ≡ key.now }
{
    let mut bytes: ArrayVec<u8, MOST_KEY> = ArrayVec::new();
    let _ = bytes.try_extend_from_slice(key);
    Key { bytes }
}

impl PartialEq for Key {
    ghost use Rattle.std.proofs.Common.{rules};
    ghost use Rattle.std.specs.Cmp.Rules.{comparing};
    ghost use Rattle.std.specs.Prelude.{bytes_eq};

    ghost eq = { bytes_eq };

    ghost laws = { Prim.search (comparing, rules) depth 9 };

    fn eq(&self, other: &Key) -> bool {
        self.as_slice() == other.as_slice()
    }
}

impl Eq for Key {
    ghost use Rattle.std.proofs.Common.{rules};
    ghost use Rattle.std.specs.Cmp.Rules.{comparing};

    ghost laws = { Prim.search (comparing, rules) depth 9 };
}

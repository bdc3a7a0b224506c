ghost use Rattle.std.specs.Prelude.{◌≡◌, ◌↔◌, IfSome, IsSome, IsTrue};
ghost use Rattle.std.specs.List.{list_all};
ghost use Rattle.xa_scram.specs.Believed.{Limits.IsName, Limits.AreBytes, Limits.is_name_byte};

use crate::bytes::{append, hold};
use crate::limits::MOST_NAME;
use arrayvec::ArrayVec;
use std::cmp::Ordering;
use std::marker::Model;

/// The name of a user: 1 to `MOST_NAME` ASCII letters, digits, `-`, `_`, `.` and `@`. So no byte has to be escaped (RFC
/// 5802, 5.1), and SASLprep (RFC 4013) leaves a name as it is. Contracts see its bytes.
#[derive(Debug, Drop)]
pub struct Name {
    bytes: ArrayVec<u8, MOST_NAME>,
}

impl Model for Name {
    ghost use Rattle.std.specs.Prelude.{ℕ, List};
    ghost use Rattle.xa_scram.specs.Believed.Limits.{IsName};

    ghost Value = { List ℕ };

    ghost view = { λ n. n.bytes.items };

    ghost invariant = { λ n. IsName n.bytes.items };
}

impl Name {
    /// The name of these bytes, if they are one. Takes no memory.
    pub fn new(bytes: &[u8]) -> Option<Name>
        ensures name { IfSome result (λ n. n ≡ bytes.now) }
        ensures valid { IsSome result ↔ IsName bytes.now }
    {
        if !is_name(bytes) {
            return None;
        }
        let mut all: ArrayVec<u8, MOST_NAME> = ArrayVec::new();
        append(&mut all, bytes);
        Some(Name { bytes: all })
    }

    /// The bytes.
    pub fn as_slice(&self) -> &[u8]
        ensures value { result.now ≡ self.now }
        ensures name { IsName result.now }
    {
        self.bytes.as_slice()
    }

    /// A copy. Takes no memory.
    pub fn copied(&self) -> Name
        ensures { result ≡ self.now }
    {
        let mut bytes: ArrayVec<u8, MOST_NAME> = ArrayVec::new();
        append(&mut bytes, self.bytes.as_slice());
        Name { bytes }
    }

    /// What the types of its bytes hold, for a proof. It does nothing.
    pub fn hold(&self)
        ensures name { IsName self.now }
        ensures bytes { AreBytes self.now }
    {
        hold(self.as_slice());
    }
}

fn is_name(bytes: &[u8]) -> bool
    ensures { IsTrue result ↔ IsName bytes.now }
{
    let plain = are_name_bytes(bytes);
    plain && !bytes.is_empty() && bytes.len() <= MOST_NAME
}

fn are_name_bytes(bytes: &[u8]) -> bool
    ensures { result ≡ list_all is_name_byte bytes.now }
{
    bytes.iter().all(|byte| is_name_byte(*byte))
}

fn is_name_byte(byte: u8) -> bool
    ensures { result ≡ is_name_byte byte }
{
    matches!(byte, b'a'..=b'z' | b'A'..=b'Z' | b'0'..=b'9' | b'-' | b'_' | b'.' | b'@')
}

impl PartialEq for Name {
    ghost use Rattle.std.proofs.Common.{rules};
    ghost use Rattle.std.specs.Cmp.Rules.{comparing};
    ghost use Rattle.std.specs.Prelude.{bytes_eq};

    ghost eq = { bytes_eq };

    ghost laws = { Prim.search (comparing, rules) depth 9 };

    fn eq(&self, other: &Name) -> bool {
        self.bytes.as_slice() == other.bytes.as_slice()
    }
}

impl Eq for Name {
    ghost use Rattle.std.proofs.Common.{rules};
    ghost use Rattle.std.specs.Cmp.Rules.{comparing};

    ghost laws = { Prim.search (comparing, rules) depth 9 };
}

impl Ord for Name {
    ghost use Rattle.std.proofs.Common.{rules};
    ghost use Rattle.std.specs.Cmp.Lexicographic.{slice_cmp};
    ghost use Rattle.std.specs.Cmp.Rules.{comparing};
    ghost use Rattle.std.specs.Ordering.{nat_cmp};

    ghost cmp = { slice_cmp nat_cmp };

    ghost total = { Prim.search (comparing, rules) depth 9 };

    ghost matches_partial_cmp = { Prim.search (comparing, rules) depth 9 };

    ghost matches_eq = { Prim.search (comparing, rules) depth 9 };

    fn cmp(&self, other: &Name) -> Ordering {
        self.bytes.as_slice().cmp(other.bytes.as_slice())
    }
}

impl PartialOrd for Name {
    ghost use Rattle.std.proofs.Common.{rules};
    ghost use Rattle.std.specs.Cmp.{partial_order_from_own_ties};
    ghost use Rattle.std.specs.Cmp.Lexicographic.{slice_cmp};
    ghost use Rattle.std.specs.Cmp.Rules.{comparing};
    ghost use Rattle.std.specs.Ordering.{as_partial_cmp, nat_cmp};

    ghost partial_cmp = { as_partial_cmp (slice_cmp nat_cmp) };

    ghost laws = { partial_order_from_own_ties
        (Prim.search (comparing, rules) depth 9) (Prim.search (comparing, rules) depth 9) };

    fn partial_cmp(&self, other: &Name) -> Option<Ordering> {
        Some(self.cmp(other))
    }
}

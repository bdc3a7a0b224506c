ghost use Rattle.std.specs.Prelude.{◌≡◌, ◌↔◌, IfSome, IsSome, IsTrue};
ghost use Rattle.std.specs.List.{list_all};
ghost use Rattle.xa_scram.specs.Believed.{Limits.IsNonce, Limits.is_nonce_byte, Messages.base64};

use crate::bytes::{append, hold};
use crate::fields::{Message, put_base64};
use crate::limits::{MOST_NONCE, OWN_BYTES};
use arrayvec::ArrayVec;
use std::marker::Model;

/// A client's nonce: 1 to `MOST_NONCE` printable ASCII bytes without a comma (RFC 5802, 7). Contracts see its bytes.
#[derive(Debug, Drop)]
pub struct Nonce {
    bytes: ArrayVec<u8, MOST_NONCE>,
}

impl Model for Nonce {
    ghost use Rattle.std.specs.Prelude.{ℕ, List};
    ghost use Rattle.xa_scram.specs.Believed.Limits.{IsNonce};

    ghost Value = { List ℕ };

    ghost view = { λ n. n.bytes.items };

    ghost invariant = { λ n. IsNonce n.bytes.items };
}

impl Nonce {
    /// The nonce of these bytes, if they are one. Takes no memory.
    pub fn new(bytes: &[u8]) -> Option<Nonce>
        ensures nonce { IfSome result (λ n. n ≡ bytes.now) }
        ensures valid { IsSome result ↔ IsNonce bytes.now }
    {
        if !is_nonce(bytes) {
            return None;
        }
        let mut all: ArrayVec<u8, MOST_NONCE> = ArrayVec::new();
        append(&mut all, bytes);
        Some(Nonce { bytes: all })
    }

    /// The nonce that these bytes spell in Base64, of 24 characters. Takes no memory.
    pub fn of_bytes(bytes: &[u8; OWN_BYTES]) -> Nonce
        ensures { result ≡ base64 bytes.now }
    {
        hold(bytes);
        Nonce {
            bytes: spelled(bytes),
        }
    }

    /// The bytes.
    pub fn as_slice(&self) -> &[u8]
        ensures value { result.now ≡ self.now }
        ensures nonce { IsNonce result.now }
    {
        self.bytes.as_slice()
    }

    /// A copy. Takes no memory.
    pub fn copied(&self) -> Nonce
        ensures { result ≡ self.now }
    {
        let mut bytes: ArrayVec<u8, MOST_NONCE> = ArrayVec::new();
        append(&mut bytes, self.bytes.as_slice());
        Nonce { bytes }
    }
}

// The Base64 of these bytes.
fn spelled(bytes: &[u8; OWN_BYTES]) -> ArrayVec<u8, MOST_NONCE>
    ensures { result.items ≡ base64 bytes.now }
{
    let mut text: Message = ArrayVec::new();
    put_base64(&mut text, bytes);
    let mut all: ArrayVec<u8, MOST_NONCE> = ArrayVec::new();
    append(&mut all, text.as_slice());
    all
}

/// Whether these bytes can be a nonce.
pub(crate) fn is_nonce(bytes: &[u8]) -> bool
    ensures { IsTrue result ↔ IsNonce bytes.now }
{
    let plain = are_nonce_bytes(bytes);
    plain && !bytes.is_empty() && bytes.len() <= MOST_NONCE
}

fn are_nonce_bytes(bytes: &[u8]) -> bool
    ensures { result ≡ list_all is_nonce_byte bytes.now }
{
    bytes.iter().all(|byte| is_nonce_byte(*byte))
}

fn is_nonce_byte(byte: u8) -> bool
    ensures { result ≡ is_nonce_byte byte }
{
    (33..=126).contains(&byte) && byte != b','
}

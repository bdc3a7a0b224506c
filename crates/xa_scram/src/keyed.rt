ghost use Rattle.std.specs.Prelude.{◌≡◌, ◌≤◌, ◌++◌, ℕ, List, length};
ghost use Rattle.sha2.specs.Hashers.{Holds256};
ghost use Rattle.xa_scram.specs.Believed.Keyed.{hi, hmac, padded, short_key};
ghost use Rattle.xa_scram.specs.Keying.{HoldsBoth, IsKeyed};

use crate::bytes::xored;
use sha2::{Digest, Sha256};

/// HMAC-SHA-256 (RFC 2104) under one key: the hashers after the two padded keys, so that a message costs two
/// compressions less than with the key.
#[derive(Drop)]
pub(crate) struct Keyed {
    inner: Sha256,
    outer: Sha256,
}

const BLOCK: usize = 64;

const INNER_BYTE: u8 = 0x36;

const OUTER_BYTE: u8 = 0x5c;

impl Keyed {
    pub(crate) fn new(key: &[u8]) -> Keyed
        ensures { IsKeyed result key.now }
    {
        if key.len() > BLOCK {
            let digest = Sha256::digest(key);
            Keyed::of_short(&digest)
        } else {
            Keyed::of_short(key)
        }
    }

    fn of_short(key: &[u8]) -> Keyed
        requires { length key.now ≤ 64 }
        ensures { HoldsBoth result key.now }
    {
        Keyed {
            inner: Sha256::new_with_prefix(padded_by(key, INNER_BYTE)),
            outer: Sha256::new_with_prefix(padded_by(key, OUTER_BYTE)),
        }
    }

    /// Of a message.
    pub(crate) fn of(&self, message: &[u8]) -> [u8; 32]
        ensures { (key : List ℕ) → IsKeyed self.now key → result ≡ hmac key message.now }
    {
        let mut inner = copied(&self.inner);
        inner.update(message);
        self.ended(inner)
    }

    /// Of a message in two parts.
    pub(crate) fn of_parts(&self, front: &[u8], back: &[u8]) -> [u8; 32]
        ensures { (key : List ℕ) → IsKeyed self.now key → result ≡ hmac key (front.now ++ back.now) }
    {
        let mut inner = copied(&self.inner);
        inner.update(front);
        inner.update(back);
        self.ended(inner)
    }

    fn ended(&self, inner: Sha256) -> [u8; 32]
        ensures { (key message : List ℕ) → IsKeyed self.now key
            → Holds256 inner (padded 0x36 (short_key key) ++ message) → result ≡ hmac key message }
    {
        let digest = inner.finalize();
        let mut outer = copied(&self.outer);
        outer.update(digest);
        outer.finalize()
    }
}

fn copied(hasher: &Sha256) -> Sha256
    ensures { result ≡ hasher.now }
{
    match hasher.clone() {
        Ok(copy) => copy,
        Err(_) => unreachable!(),
    }
}

fn padded_by(key: &[u8], byte: u8) -> [u8; 64]
    requires { length key.now ≤ 64 }
    ensures { result ≡ padded byte key.now }
{
    let mut block = [byte; BLOCK];
    for (i, part) in key.iter().enumerate() {
        block[i] = *part ^ byte;
    }
    block
}

/// HMAC-SHA-256 (RFC 2104) of the message. Takes no memory.
pub fn hmac(key: &[u8], message: &[u8]) -> [u8; 32]
    ensures { result ≡ hmac key.now message.now }
{
    Keyed::new(key).of(message)
}

/// Hi (RFC 5802, 2.2): the first 32 bytes of PBKDF2 with HMAC-SHA-256 (RFC 8018, 5.2). A count of 0 is taken as 1.
/// Takes no memory; each count is two compressions of SHA-256.
pub fn hi(secret: &[u8], salt: &[u8], count: u32) -> [u8; 32]
    ensures { result ≡ hi secret.now salt.now count }
{
    let keyed = Keyed::new(secret);
    let mut link = keyed.of_parts(salt, &[0, 0, 0, 1]);
    let mut folded = link;
    for _i in 1..count {
        link = keyed.of(&link);
        folded = xored(&folded, &link);
    }
    folded
}

ghost use Rattle.std.specs.Prelude.{◌≡◌, ◌↔◌, IfSome, IsSome, length};
ghost use Rattle.xa_scram.specs.Believed.Keys.{credentials_of, stand_in_of};
ghost use Rattle.xa_scram.specs.Believed.Limits.{IsCount, IsSalt, IsWithinLimits};

use crate::bytes::{append, hold};
use crate::keyed::{hi, hmac};
use crate::keys::{server_key, stored_key};
use crate::limits::MOST_SALT;
use crate::number::is_count;
use arrayvec::ArrayVec;
use std::marker::Model;

/// What a server keeps of a secret, which it can't be logged in by. Contracts see the salt, the iterations, the stored
/// key and the server key (RFC 5802, 3).
#[derive(Drop)]
pub struct Verifier {
    pub(crate) salt: ArrayVec<u8, MOST_SALT>,
    pub(crate) iterations: u32,
    pub(crate) stored: [u8; 32],
    pub(crate) server: [u8; 32],
}

impl Model for Verifier {
    ghost use Rattle.std.specs.Prelude.{◌≡◌, length};
    ghost use Rattle.xa_scram.specs.Believed.Keys.{Credentials};
    ghost use Rattle.xa_scram.specs.Believed.Limits.{IsCount, IsSalt};

    ghost Value = { Credentials };

    ghost view = { λ v.
        record { salt = v.salt.items; iterations = v.iterations; stored = v.stored; server = v.server } };

    ghost invariant = { λ v.
        IsSalt v.salt.items × IsCount v.iterations × (length v.stored ≡ 32) × (length v.server ≡ 32) };
}

impl Verifier {
    /// Of a secret, its bytes as they are, with a salt of 1 to `MOST_SALT` bytes and a count of iterations from
    /// `LEAST_ITERATIONS` to `MOST_ITERATIONS`; `None` if the salt or the count isn't within these limits. Takes no
    /// memory; each iteration is two compressions of SHA-256.
    pub fn of_secret(secret: &[u8], salt: &[u8], iterations: u32) -> Option<Verifier>
        ensures exact { IfSome result (λ v. v ≡ credentials_of secret.now salt.now iterations) }
        ensures valid { IsSome result ↔ (IsSalt salt.now × IsCount iterations) }
    {
        if salt.is_empty() || salt.len() > MOST_SALT || !is_count(iterations) {
            return None;
        }
        let salted = hi(secret, salt, iterations);
        let mut own: ArrayVec<u8, MOST_SALT> = ArrayVec::new();
        append(&mut own, salt);
        Some(Verifier {
            salt: own,
            iterations,
            stored: stored_key(&salted),
            server: server_key(&salted),
        })
    }

    /// For a name that nobody has, so that it is asked as one that somebody has: with one key, which nobody else knows,
    /// its salt of 16 bytes is the same each time. It is of no secret that anybody knows, and an exchange by it is
    /// begun with `is_known` false. The salts of other verifiers should have 16 bytes too, and their count of
    /// iterations should be this one. Takes no memory.
    pub fn stand_in(name: &[u8], key: &[u8; 32], iterations: u32) -> Verifier
        requires { IsCount iterations }
        ensures { result ≡ stand_in_of name.now key.now iterations }
    {
        let all = hmac(key, name);
        let mut salt: ArrayVec<u8, MOST_SALT> = ArrayVec::new();
        append(&mut salt, &all[..16]);
        Verifier {
            salt,
            iterations,
            stored: all,
            server: all,
        }
    }

    /// A copy. Takes no memory.
    pub fn copied(&self) -> Verifier
        ensures { result ≡ self.now }
    {
        let mut salt: ArrayVec<u8, MOST_SALT> = ArrayVec::new();
        append(&mut salt, self.salt.as_slice());
        Verifier {
            salt,
            iterations: self.iterations,
            stored: self.stored,
            server: self.server,
        }
    }

    /// The salt.
    pub fn salt(&self) -> &[u8]
        ensures value { result.now ≡ self.now.salt }
        ensures limits { IsSalt result.now }
    {
        self.salt.as_slice()
    }

    /// The iterations.
    pub fn iterations(&self) -> u32
        ensures value { result ≡ self.now.iterations }
        ensures limits { IsCount result }
    {
        self.iterations
    }

    /// The stored key.
    pub(crate) fn stored(&self) -> &[u8; 32]
        ensures value { result.now ≡ self.now.stored }
        ensures size { length result.now ≡ 32 }
    {
        &self.stored
    }

    /// The server's key.
    pub(crate) fn server(&self) -> &[u8; 32]
        ensures value { result.now ≡ self.now.server }
        ensures size { length result.now ≡ 32 }
    {
        &self.server
    }

    /// What the types of its parts hold, for a proof. It does nothing.
    pub fn hold(&self)
        ensures { IsWithinLimits self.now }
    {
        let _salt = self.salt();
        hold(&self.stored);
        hold(&self.server);
        hold(self.salt.as_slice());
    }
}

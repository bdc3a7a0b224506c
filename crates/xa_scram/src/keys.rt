ghost use Rattle.std.specs.Prelude.{◌≡◌};
ghost use Rattle.sha2.specs.Sha256.{sha256};
ghost use Rattle.xa_scram.specs.Believed.{Keys.client_key, Keys.server_key, Keys.stored_key};

use crate::keyed::hmac;
use sha2::{Digest, Sha256};

/// The client's key, of Hi of a secret (RFC 5802, 3).
pub(crate) fn client_key(salted: &[u8; 32]) -> [u8; 32]
    ensures { result ≡ client_key salted.now }
{
    hmac(salted, b"Client Key")
}

/// The stored key, by which a server knows the client's.
pub(crate) fn stored_key(salted: &[u8; 32]) -> [u8; 32]
    ensures { result ≡ stored_key salted.now }
{
    digest_of(&client_key(salted))
}

/// The server's key.
pub(crate) fn server_key(salted: &[u8; 32]) -> [u8; 32]
    ensures { result ≡ server_key salted.now }
{
    hmac(salted, b"Server Key")
}

/// The digest of a key.
pub(crate) fn digest_of(key: &[u8; 32]) -> [u8; 32]
    ensures { result ≡ sha256 key.now }
{
    Sha256::digest(*key)
}

ghost use Rattle.std.specs.Prelude.{◌≡◌, ℕ, List, IfSome, Some};
ghost use Rattle.xa_scram.specs.{Believed.Keys.Credentials, Believed.Limits.IsWithinLimits, Believed.Messages.text_of};
ghost use Rattle.xa_scram.specs.{Reading.AreKeys};

use crate::bytes::append;
use crate::fields::{after, cut, key_of, put_base64, salt_of};
use crate::limits::MOST_MESSAGE;
use crate::number::{count_of, put_count};
use crate::verifier::Verifier;
use arrayvec::ArrayVec;

/// PostgreSQL's text of a verifier, as `SCRAM-SHA-256$4096:SALT$STOREDKEY:SERVERKEY`: the count in decimal without
/// leading zeros, the others in Base64.
impl Verifier {
    /// Replaces what the vector holds by the text. Takes no memory.
    pub fn put_text(&self, out: &mut ArrayVec<u8, MOST_MESSAGE>)
        ensures { out.new.items ≡ text_of self.now }
    {
        out.clear();
        append(out, b"SCRAM-SHA-256$");
        put_count(out, self.iterations());
        append(out, b":");
        put_base64(out, self.salt());
        append(out, b"$");
        put_base64(out, self.stored());
        append(out, b":");
        put_base64(out, self.server());
    }

    /// The verifier that all of the text spells. Takes no memory.
    pub fn of_text(text: &[u8]) -> Option<Verifier>
        // What is found has this spelling.
        ensures found { IfSome result (λ v. IsWithinLimits v × (text.now ≡ text_of v)) }
        // What has this spelling is found.
        ensures only { (v : Credentials) → IsWithinLimits v → text.now ≡ text_of v → result ≡ Some v }
    {
        let rest = after(text, b"SCRAM-SHA-256$")?;
        let (iterations, rest) = cut(rest, b':')?;
        let (salt, keys) = cut(rest, b'$')?;
        let iterations = count_of(iterations)?;
        let salt = salt_of(salt)?;
        let (stored, server) = keys_of(keys)?;
        Some(Verifier {
            salt,
            iterations,
            stored,
            server,
        })
    }
}

// The stored key and the server's.
fn keys_of(text: &[u8]) -> Option<([u8; 32], [u8; 32])>
    ensures found { IfSome result (λ r. AreKeys text.now r.0 r.1) }
    ensures only { (stored server : List ℕ) → AreKeys text.now stored server → result ≡ Some (stored, server) }
{
    let (stored, server) = cut(text, b':')?;
    let stored = key_of(stored)?;
    let server = key_of(server)?;
    Some((stored, server))
}

ghost use Rattle.std.specs.Prelude.{◌≡◌, ◌≤◌, ◌+◌, ◌++◌, codes, length};
ghost use Rattle.xa_scram.specs.Believed.Messages.{acceptance_bytes, base64, challenge_bytes, final_bare, header_bytes};
ghost use Rattle.xa_scram.specs.Believed.Messages.{opening_bare};
ghost use Rattle.xa_scram.specs.Believed.Limits.{IsCount};

use crate::bytes::append;
use crate::fields::{Message, put_base64};
use crate::limits::{MOST_MESSAGE, MOST_NONCE, MOST_SALT};
use crate::number::put_count;
use crate::opening::{Binding, Opening, bare};
use arrayvec::ArrayVec;

/// What is signed: three messages, and two commas between them.
pub(crate) type Signed = ArrayVec<u8, MOST_SIGNED>;

const MOST_SIGNED: usize = 3 * MOST_MESSAGE + 2;

/// What the server asks (RFC 5802, 7: `server-first-message`), with its own part of the nonce.
pub(crate) fn challenge(opening: &Opening, own: &[u8], salt: &[u8], iterations: u32) -> Message
    requires { (length own.now ≤ MOST_NONCE) × (length salt.now ≤ MOST_SALT) × IsCount iterations }
    ensures { result.items
        ≡ challenge_bytes opening.now.nonce (record { own = own.now; salt = salt.now; iterations = iterations }) }
{
    let mut out: Message = ArrayVec::new();
    append(&mut out, b"r=");
    append(&mut out, opening.nonce.as_slice());
    append(&mut out, own);
    append(&mut out, b",s=");
    put_base64(&mut out, salt);
    append(&mut out, b",i=");
    put_count(&mut out, iterations);
    out
}

/// The last message of a client without its proof (RFC 5802, 7: `client-final-message-without-proof`).
pub(crate) fn final_bare(opening: &Opening, own: &[u8]) -> Message
    requires { length own.now ≤ MOST_NONCE }
    ensures items { result.items ≡ final_bare opening.now own.now }
    ensures room { length result.items + 47 ≤ MOST_MESSAGE }
{
    let mut out: Message = ArrayVec::new();
    append(&mut out, front(opening.binding));
    append(&mut out, opening.nonce.as_slice());
    append(&mut out, own);
    out
}

fn front(binding: Binding) -> &'static [u8]
    ensures bytes { result.now ≡ codes "c=" ++ base64 (header_bytes binding) ++ codes ",r=" }
    ensures size { length result.now ≡ 9 }
{
    match binding {
        Binding::Unsupported => b"c=biws,r=",
        Binding::Unoffered => b"c=eSws,r=",
    }
}

/// The last message of a client, with its proof.
pub(crate) fn final_message(bare: &Message, proof: &[u8; 32]) -> Message
    requires { length bare.now.items + 47 ≤ MOST_MESSAGE }
    ensures { result.items ≡ bare.now.items ++ codes ",p=" ++ base64 proof.now }
{
    let mut out: Message = ArrayVec::new();
    append(&mut out, bare.as_slice());
    append(&mut out, b",p=");
    put_base64(&mut out, proof);
    out
}

/// What both sides sign, where these are the challenge and the last message without its proof.
pub(crate) fn signed(opening: &Opening, challenge: &Message, final_bare: &Message) -> Signed
    ensures { result.items
        ≡ opening_bare opening.now ++ codes "," ++ challenge.now.items ++ codes "," ++ final_bare.now.items }
{
    let mut out: Signed = ArrayVec::new();
    append(&mut out, bare(opening).as_slice());
    append(&mut out, b",");
    append(&mut out, challenge.as_slice());
    append(&mut out, b",");
    append(&mut out, final_bare.as_slice());
    out
}

/// The last message of a server, with its signature (RFC 5802, 7: `server-final-message`).
pub(crate) fn acceptance(signature: &[u8; 32]) -> Message
    ensures { result.items ≡ acceptance_bytes signature.now }
{
    let mut out: Message = ArrayVec::new();
    append(&mut out, b"v=");
    put_base64(&mut out, signature);
    out
}

ghost use Rattle.std.specs.Prelude.{◌≡◌, ◌↔◌, ◌≤◌, ◌++◌, ℕ, List, IfSome, IsSome, IsTrue, Some, codes, length};
ghost use Rattle.sha2.specs.Sha256.{sha256};
ghost use Rattle.xa_scram.specs.Believed.Exchanges.{LetsIn, acceptance_of, challenge_of};
ghost use Rattle.xa_scram.specs.Believed.{Keyed.xor_bytes, Keys.client_signature, Limits.AreBytes, Messages.base64};

use crate::bytes::{are_same, xored};
use crate::fields::{Message, after, key_of, put_base64};
use crate::keyed::hmac;
use crate::keys::digest_of;
use crate::limits::{MOST_MESSAGE, OWN_BYTES};
use crate::opening::Opening;
use crate::signing::{acceptance, challenge, final_bare, signed};
use crate::verifier::Verifier;
use arrayvec::ArrayVec;
use std::marker::Model;

/// An exchange at a server, from its challenge on. Contracts see how it was opened, what the server keeps of that name,
/// whether anybody has the name, and the bytes of the server's part of the nonce.
#[derive(Drop)]
pub struct Exchange {
    opening: Opening,
    verifier: Verifier,
    is_known: bool,
    own: [u8; OWN_BYTES],
    challenge: Message,
}

impl Model for Exchange {
    ghost use Rattle.std.specs.Prelude.{◌≡◌};
    ghost use Rattle.xa_scram.specs.Believed.Exchanges.{Begun, challenge_of};

    ghost Value = { Begun };

    ghost view = { λ e.
        record { opening = e.opening; credentials = e.verifier; is_known = e.is_known; own = e.own } };

    ghost invariant = { λ e. e.challenge.items
        ≡ challenge_of
        (record { opening = e.opening; credentials = e.verifier; is_known = e.is_known; own = e.own }) };
}

impl Exchange {
    /// Begins one. The server's part of the nonce must be new each time, and no one may guess it: 18 random bytes. For
    /// a name that nobody has, `verifier` is one by `Verifier::stand_in`, and `is_known` false. Takes no memory.
    pub fn begin(
        opening: &Opening,
        verifier: &Verifier,
        is_known: bool,
        own: &[u8; OWN_BYTES],
    ) -> Exchange
        ensures { result
            ≡ record { opening = opening.now; credentials = verifier.now; is_known = is_known; own = own.now } }
    {
        let text = own_text(own);
        let challenge = challenge(
            opening,
            text.as_slice(),
            verifier.salt(),
            verifier.iterations(),
        );
        Exchange {
            opening: opening.copied(),
            verifier: verifier.copied(),
            is_known,
            own: *own,
            challenge,
        }
    }

    /// What the server asks (RFC 5802, 7: `server-first-message`).
    pub fn challenge(&self) -> &[u8]
        ensures { result.now ≡ challenge_of self.now }
    {
        self.challenge.as_slice()
    }

    /// Ends the exchange, so that a challenge serves once. Whoever sends this message is let in if it is the client's
    /// last of this exchange, its proof is right, and somebody has the name. This is then what the server says, by
    /// which the client sees that it keeps this verifier; `None` otherwise. The work is the same whether somebody has
    /// the name or not. Takes no memory.
    pub fn finish(self, message: &[u8]) -> Option<ArrayVec<u8, MOST_MESSAGE>>
        ensures let_in { IsSome result ↔ LetsIn self message.now }
        ensures acceptance { IfSome result (λ v. v.items ≡ acceptance_of self) }
    {
        let text = own_text(&self.own);
        let bare = final_bare(&self.opening, text.as_slice());
        let proof = proof_of(&bare, message)?;
        let signed = signed(&self.opening, &self.challenge, &bare);
        let is_right = is_right(&proof, self.verifier.stored(), signed.as_slice());
        let last = acceptance(&hmac(self.verifier.server(), signed.as_slice()));
        if is_right && self.is_known {
            Some(last)
        } else {
            None
        }
    }
}

// The server's part of the nonce, as it is spelled.
fn own_text(own: &[u8; OWN_BYTES]) -> Message
    ensures text { result.items ≡ base64 own.now }
    ensures few { length result.items ≤ 44 }
{
    let mut text: Message = ArrayVec::new();
    put_base64(&mut text, own);
    text
}

// The proof with which this message ends, if the rest of it is this.
fn proof_of(bare: &Message, message: &[u8]) -> Option<[u8; 32]>
    ensures found { IfSome result (λ proof. (length proof ≡ 32) × AreBytes proof
        × (message.now ≡ bare.now.items ++ codes ",p=" ++ base64 proof)) }
    ensures only { (proof : List ℕ) → length proof ≡ 32 → AreBytes proof
        → message.now ≡ bare.now.items ++ codes ",p=" ++ base64 proof → result ≡ Some proof }
{
    let rest = after(message, bare.as_slice())?;
    let text = after(rest, b",p=")?;
    key_of(text)
}

// Whether whose proof this is has the client's key, by the stored key and what was signed.
fn is_right(proof: &[u8; 32], stored: &[u8; 32], signed: &[u8]) -> bool
    ensures { IsTrue result
        ↔ (sha256 (xor_bytes proof.now (client_signature stored.now signed.now)) ≡ stored.now) }
{
    let signature = hmac(stored, signed);
    let client_key = xored(proof, &signature);
    are_same(&digest_of(&client_key), stored)
}

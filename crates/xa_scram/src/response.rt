ghost use Rattle.std.specs.Prelude.{◌≡◌, ◌↔◌, ◌≤◌, IfSome, IsTrue, Some, length};
ghost use Rattle.xa_scram.specs.{Believed.Exchanges.answer_of, Believed.Exchanges.opened_by, Believed.Limits.IsCount};
ghost use Rattle.xa_scram.specs.{Believed.Messages.Asked, Believed.Messages.SpellsChallenge};

use crate::bytes::xored;
use crate::challenge_reader::{Challenge, challenge_of};
use crate::fields::Message;
use crate::keyed::{hi, hmac};
use crate::keys::{client_key, server_key, stored_key};
use crate::limits::{MOST_MESSAGE, MOST_NONCE, MOST_SALT};
use crate::name::Name;
use crate::nonce::Nonce;
use crate::opening::{Binding, Opening};
use crate::signing::{acceptance, challenge, final_bare, final_message, signed};
use std::marker::Model;

/// What a client says to a challenge, and what it accepts as the server's last message. Contracts see both.
#[derive(Drop)]
pub struct Response {
    message: Message,
    acceptance: Message,
}

impl Model for Response {
    ghost use Rattle.xa_scram.specs.Believed.Exchanges.{Answered};

    ghost Value = { Answered };

    ghost view = { λ r. record { message = r.message.items; acceptance = r.acceptance.items } };
}

impl Response {
    /// The response of a client that opened with `put_opening` of this name and nonce, and has this secret, its bytes
    /// as they are. `None` if `challenge` is no first message of a server whose nonce begins with this one and goes on,
    /// or if a part of it isn't within the limits. Takes no memory; each iteration is two compressions of SHA-256.
    pub fn to(name: &Name, nonce: &Nonce, secret: &[u8], challenge: &[u8]) -> Option<Response>
        // What is answered was asked.
        ensures found { IfSome result (λ r. (a : Asked) × SpellsChallenge nonce.now challenge.now a
            × (r ≡ answer_of (opened_by name.now nonce.now) secret.now a)) }
        // What is asked is answered.
        ensures only { (a : Asked) → SpellsChallenge nonce.now challenge.now a
            → result ≡ Some (answer_of (opened_by name.now nonce.now) secret.now a) }
    {
        let asked = challenge_of(nonce.as_slice(), challenge)?;
        let opening = Opening {
            name: name.copied(),
            nonce: nonce.copied(),
            binding: Binding::Unsupported,
        };
        Some(answered(&opening, secret, &asked))
    }

    /// The client's last message.
    pub fn message(&self) -> &[u8]
        ensures value { result.now ≡ self.now.message }
        ensures few { length result.now ≤ MOST_MESSAGE }
    {
        self.message.as_slice()
    }

    /// Whether this is the last message of a server that keeps a verifier of the secret.
    pub fn is_accepted_by(&self, last: &[u8]) -> bool
        ensures { IsTrue result ↔ (last.now ≡ self.now.acceptance) }
    {
        last == self.acceptance.as_slice()
    }
}

fn answered(opening: &Opening, secret: &[u8], asked: &Challenge) -> Response
    requires { (length asked.now.own ≤ MOST_NONCE) × (length asked.now.salt ≤ MOST_SALT)
        × IsCount asked.now.iterations }
    ensures { result ≡ answer_of opening.now secret.now asked.now }
{
    let own = asked.own.as_slice();
    let salt = asked.salt.as_slice();
    let question = challenge(opening, own, salt, asked.iterations);
    let bare = final_bare(opening, own);
    let signed = signed(opening, &question, &bare);
    let salted = hi(secret, salt, asked.iterations);
    let signature = hmac(&stored_key(&salted), signed.as_slice());
    let proof = xored(&client_key(&salted), &signature);
    Response {
        message: final_message(&bare, &proof),
        acceptance: acceptance(&hmac(&server_key(&salted), signed.as_slice())),
    }
}

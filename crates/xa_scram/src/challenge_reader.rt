ghost use Rattle.std.specs.Prelude.{◌≡◌, ℕ, List, IfSome, Some, IsSomeAnd};
ghost use Rattle.xa_scram.specs.{Believed.Messages.Asked, Believed.Messages.SpellsChallenge, Reading.IsTail};

use crate::fields::{after, cut, salt_of};
use crate::limits::MOST_SALT;
use crate::nonce::Nonce;
use crate::number::count_of;
use arrayvec::ArrayVec;
use std::marker::Model;

/// What a server asks: its own part of the nonce, which is printable, the salt, and the count of iterations.
#[derive(Drop)]
pub(crate) struct Challenge {
    pub(crate) own: Nonce,
    pub(crate) salt: ArrayVec<u8, MOST_SALT>,
    pub(crate) iterations: u32,
}

impl Model for Challenge {
    ghost use Rattle.xa_scram.specs.Believed.Messages.{Asked};

    ghost Value = { Asked };

    ghost view = { λ c. record { own = c.own; salt = c.salt.items; iterations = c.iterations } };
}

/// What all of the message asks whose nonce this is. Takes no memory.
pub(crate) fn challenge_of(nonce: &[u8], message: &[u8]) -> Option<Challenge>
    ensures found { IfSome result (SpellsChallenge nonce.now message.now) }
    ensures only { (a : Asked) → SpellsChallenge nonce.now message.now a → result ≡ Some a }
{
    let rest = after(message, b"r=")?;
    let part = after(rest, nonce)?;
    let (own, tail) = cut(part, b',')?;
    let own = Nonce::new(own)?;
    let (salt, iterations) = tail_of(tail)?;
    Some(Challenge {
        own,
        salt,
        iterations,
    })
}

fn tail_of(tail: &[u8]) -> Option<(ArrayVec<u8, MOST_SALT>, u32)>
    ensures found { IfSome result (λ r. IsTail tail.now r.0.items r.1) }
    ensures only { (s : List ℕ) (n : ℕ) → IsTail tail.now s n
        → IsSomeAnd result (λ r. (r.0.items ≡ s) × (r.1 ≡ n)) }
{
    let rest = after(tail, b"s=")?;
    let (salt, last) = cut(rest, b',')?;
    let count = after(last, b"i=")?;
    let salt = salt_of(salt)?;
    let iterations = count_of(count)?;
    Some((salt, iterations))
}

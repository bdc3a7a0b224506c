use std::marker::Model;
use xa_scram::{Exchange, Name, OWN_BYTES, Opening, Verifier};

/// A login that has begun: it has one challenge, which serves once. Contracts see its exchange.
#[derive(Drop)]
pub struct Login {
    name: Name,
    verifier: Verifier,
    exchange: Exchange,
}

impl Model for Login {
    ghost use Rattle.std.specs.Prelude.{◌≡◌};
    ghost use Rattle.xa_scram.specs.Believed.Exchanges.{Begun};

    ghost Value = { Begun };

    ghost view = { λ l. l.exchange };

    ghost invariant = { λ l. (l.name ≡ l.exchange.opening.name) × (l.verifier ≡ l.exchange.credentials) };
}

impl Login {
    ghost use Rattle.std.specs.Prelude.{◌≡◌};
    ghost use Rattle.xa_scram.specs.Believed.Exchanges.{challenge_of};

    pub(crate) fn new(
        opening: &Opening,
        verifier: &Verifier,
        is_known: bool,
        own: &[u8; OWN_BYTES],
    ) -> Login
        ensures { result
            ≡ record { opening = opening.now; credentials = verifier.now; is_known = is_known; own = own.now } }
    {
        Login {
            name: opening.name.copied(),
            verifier: verifier.copied(),
            exchange: Exchange::begin(opening, verifier, is_known, own),
        }
    }

    /// What the server asks: `server-first-message` (RFC 5802, 7).
    pub fn challenge(&self) -> &[u8]
        ensures { result.now ≡ challenge_of self.now }
    {
        self.exchange.challenge()
    }

    /// What it was begun with, taken apart.
    pub(crate) fn into_parts(self) -> (Name, Verifier, Exchange)
        ensures name { result.0 ≡ self.opening.name }
        ensures verifier { result.1 ≡ self.credentials }
        ensures exchange { result.2 ≡ self }
    {
        let Login {
            name,
            verifier,
            exchange,
        } = self;
        (name, verifier, exchange)
    }
}

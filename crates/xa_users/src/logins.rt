use crate::login::Login;
use crate::same::are_same;
use crate::users::Users;
use arrayvec::ArrayVec;
use xa_roles::Role;
use xa_scram::{LEAST_ITERATIONS, MOST_MESSAGE, OWN_BYTES, Opening, Verifier};

/// What a user is told who is let in.
#[derive(Drop)]
pub struct Welcome {
    /// What the user may ask.
    pub role: Role,
    /// What the server says last: `server-final-message` (RFC 5802, 7), which shows that it keeps the verifier.
    pub text: ArrayVec<u8, MOST_MESSAGE>,
}

/// The server's side of a login.
///
/// A name that nobody has is asked and refused like one that somebody has, by a verifier that stands in: its salt has
/// 16 bytes, the same each time for one key, and its iterations are `LEAST_ITERATIONS`. So that nobody learns from a
/// challenge who is a user, verifiers are to have such salts and iterations. What is hashed is as much for both. How
/// long it takes isn't proved: the look-up compares names, and what memory and caches hold may differ.
impl Users {
    ghost use Rattle.std.specs.Prelude.{◌≡◌, IfNone, IfSome};
    ghost use Rattle.xa_roles.specs.declared.role.Role.{Role};
    ghost use Rattle.xa_scram.specs.Believed.Exchanges.{acceptance_of};
    ghost use Rattle.xa_users.specs.Believed.Logins.{HasShown, Shows, begun};

    /// Begins a login by the client's first message: with the user's verifier, or, where nobody has the name, with one
    /// that stands in. `own` is the server's part of the nonce: `OWN_BYTES` random bytes, new each time. `key` is the
    /// server's own, random and kept secret, one for all logins. Takes no memory.
    pub fn begin(&self, opening: &Opening, own: &[u8; OWN_BYTES], key: &[u8; 32]) -> Login
        ensures { result ≡ begun self.now opening.now own.now key.now }
    {
        let stand_in = Verifier::stand_in(opening.name.as_slice(), key, LEAST_ITERATIONS);
        match self.by_name.get(&opening.name) {
            Some(user) => Login::new(opening, &user.verifier, true, own),
            None => Login::new(opening, &stand_in, false, own),
        }
    }

    /// Ends a login by the client's last message. Whoever sends it is let in exactly if the login's name is one of
    /// these users', with the verifier that the login began with, and the message proves; then the role is that
    /// user's. `None` otherwise. Takes no memory.
    pub fn finish(&self, login: Login, message: &[u8]) -> Option<Welcome>
        // Who is let in has shown it.
        ensures found { IfSome result (λ w. Shows self.now login message.now w.role) }
        ensures shown { IfSome result (λ w. HasShown self.now w.role) }
        ensures text { IfSome result (λ w. w.text.items ≡ acceptance_of login) }
        // Who shows it is let in.
        ensures none { IfNone result ((role : Role) → Shows self.now login message.now role → ⊥) }
    {
        let (name, verifier, exchange) = login.into_parts();
        let text = exchange.finish(message)?;
        let user = self.by_name.get(&name)?;
        if are_same(&user.verifier, &verifier) {
            Some(Welcome {
                role: user.role,
                text,
            })
        } else {
            None
        }
    }
}

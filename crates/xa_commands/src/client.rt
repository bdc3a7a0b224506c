ghost use Rattle.std.specs.Prelude.{IfErr, MatchResult};
ghost use Rattle.xa_commands.specs.LoggedIn.{ClientEnds, IsDrawn, IsEarly};
ghost use Rattle.xa_talk.specs.declared.dial.Connection.{Connection};

use crate::secret::{TERMINAL, secret_in, typed_secret};
use crate::secret_fault::SecretFault;
use crate::server::Reach;
use crate::stream::Stream;
use crate::unlogged::Unlogged;
use std::env::{self, VarError};
use std::fs::{self, Files};
use std::io::{Eprint, Read, Write};
use std::random::RandomSource;
use std::rt::Env;
use xa_scram::{Name, Nonce, OWN_BYTES};
use xa_talk::{Connection, log_in};

// The environment variable that has the path of the file whose first line is the secret.
const SECRET_FILE: &str = "XARM_PASSWORD_FILE";

/// Who logs in: the name of a user, and the secret, once that was read.
#[derive(Drop)]
pub(crate) struct Client<'w> {
    user: &'w str,
    secret: Option<Vec<u8>>,
}

impl<'w> Client<'w> {
    /// The user with this name.
    pub(crate) fn new(user: &'w str) -> Client<'w> {
        Client { user, secret: None }
    }

    /// Logs in over a connection to a server, with a nonce that is new. The secret is read from its file the first time, or typed.
    pub(crate) fn log_in<R: AllocGlobal + Env + Eprint + Files + RandomSource>(
        &mut self,
        rt: &R,
        reach: Reach<'w>,
        connection: &mut Connection<Stream, Stream>,
    ) -> Result<(), Unlogged<'w>>
        ensures { ClientEnds {C = Connection Stream Stream} (λ c. ⟦<Stream as Write>⟧.contents c.writer)
            (λ c. ⟦<Stream as Read>⟧.remaining c.reader) self.old.user.now result connection.old connection.new }
    {
        let Some(name) = Name::new(self.user.as_bytes()) else {
            return Err(Unlogged::Name(self.user));
        };
        let secret = match self.secret.take() {
            Some(secret) => secret,
            None => read(rt, self.user)?,
        };
        let nonce = drawn(rt)?;
        let end = log_in(rt.alloc(), connection, &name, secret.as_slice(), &nonce);
        self.secret = Some(secret);
        match end {
            Ok(()) => Ok(()),
            Err(fault) => Err(Unlogged::Login {
                reach,
                user: self.user,
                fault,
            }),
        }
    }
}

// The secret in the file that the environment names, or that is typed if it names none.
fn read<'w, R: AllocGlobal + Env + Eprint + Files>(
    rt: &R,
    user: &str,
) -> Result<Vec<u8>, Unlogged<'w>>
    ensures { IfErr result IsEarly }
{
    let path = match env::var(rt, SECRET_FILE) {
        Ok(path) => path,
        Err(VarError::NotPresent) => return typed(rt, user),
        Err(VarError::NotUnicode) => return Err(Unlogged::NoText),
        Err(VarError::OutOfMemory) => return Err(Unlogged::Memory),
    };
    if path.is_empty() {
        return typed(rt, user);
    }
    match secret_in(rt, path.as_str()) {
        Ok(secret) => Ok(secret),
        Err(SecretFault::Memory) => Err(Unlogged::Memory),
        Err(fault) => Err(Unlogged::Secret { path, fault }),
    }
}

// The secret that a user types, once standard error has asked for it.
fn typed<'w, R: AllocGlobal + Eprint + Files>(rt: &R, user: &str) -> Result<Vec<u8>, Unlogged<'w>>
    ensures { IfErr result IsEarly }
{
    let Ok(terminal) = fs::open(rt, TERMINAL) else {
        return Err(Unlogged::Unset);
    };
    let _ = eprint!(rt; "Secret of {user}: ");
    match typed_secret(rt, terminal) {
        Ok(secret) => Ok(secret),
        Err(SecretFault::Memory) => Err(Unlogged::Memory),
        Err(fault) => Err(Unlogged::Typed(fault)),
    }
}

// A nonce of random bytes.
fn drawn<'w, R: RandomSource>(rt: &R) -> Result<Nonce, Unlogged<'w>>
    ensures { MatchResult result IsDrawn IsEarly }
{
    let mut bytes = [0u8; OWN_BYTES];
    match rt.fill_bytes(&mut bytes) {
        Ok(()) => Ok(Nonce::of_bytes(&bytes)),
        Err(error) => Err(Unlogged::Random(error)),
    }
}

//! A connection that logs in.
ghost use Rattle.std.specs.Prelude.{◌≡◌, None};
ghost use Rattle.std.specs.Option.{option_map};
ghost use Rattle.xa_control.specs.declared.control.Control.TheVariants.{First, Final};
ghost use Rattle.xa_reactor.specs.Believed.Tending.{first_standing};
ghost use Rattle.xa_reactor.specs.Users.{AsksThis, IsPassed, Passes, PassesIf};
ghost use Rattle.xa_reactor.specs.declared.logging_in.Passed.TheVariants.{Fails};

use crate::peer::Peer;
use std::alloc::Global;
use std::random::RandomSource;
use xa_codes::{Detail, XAER_INVAL, XAER_RMFAIL};
use xa_connection::Asked;
use xa_control::{Answer, Control, Message};
use xa_roles::Role;
use xa_scram::{OWN_BYTES, Opening};
use xa_users::{Users, Welcome};

/// How often a connection may fail to log in. After that it ends.
pub(crate) const MOST_TRIES: u32 = 5;

/// What a part of a login came to.
#[derive(Debug, Drop)]
pub(crate) enum Passed {
    /// It isn't asked for any more.
    Nothing,
    /// It is answered this.
    Answers(Answer),
    /// The login failed, which is answered later.
    Fails,
}

impl Peer {
    /// A part of a login, if the connection asks for one. `key` is the server's own.
    pub(crate) fn log_in<R: RandomSource>(
        &mut self,
        rt: &R,
        alloc: Global,
        users: Option<&Users>,
        key: &[u8; 32],
    ) -> Passed
        ensures passes { PassesIf (option_map (λ u. u.now) users.entry) self.old result self.new }
        ensures limits { IsPassed result }
    {
        let Some(users) = users else {
            // a server without users takes no logins
            return Passed::Answers(Answer::Refused(XAER_INVAL, Detail::Frame));
        };
        match self.connection.asked(alloc, self.standing) {
            Asked::Control(_, Control::First(message)) => self.begin_login(
                rt, users, key, &message,
            ),
            Asked::Control(_, Control::Final(message)) => self.finish_login(users, &message),
            _asked => Passed::Nothing,
        }
    }

    // The login begins, unless it has logged in, or this is no first message of a client.
    fn begin_login<R: RandomSource>(
        &mut self,
        rt: &R,
        users: &Users,
        key: &[u8; 32],
        message: &Message,
    ) -> Passed
        requires asks { AsksThis self.old (First message.now) }
        ensures passes { Passes users.now self.old result self.new }
        ensures limits { IsPassed result }
    {
        if self.standing.is_some() {
            return self.fail();
        }
        let Some(opening) = Opening::of(message.as_slice()) else {
            return self.fail();
        };
        self.login = None;
        let mut own = [0u8; OWN_BYTES];
        if rt.fill_bytes(&mut own).is_err() {
            return Passed::Answers(Answer::Refused(XAER_RMFAIL, Detail::Nothing));
        }
        let login = users.begin(&opening, &own, key);
        match Message::new(login.challenge()) {
            Some(challenge) => {
                self.login = Some(login);
                Passed::Answers(Answer::Challenge(challenge))
            }
            None => Passed::Answers(Answer::Refused(XAER_RMFAIL, Detail::Limit)),
        }
    }

    // The login that was begun is over: it is let in exactly if its last message proves that it is one of the users.
    fn finish_login(&mut self, users: &Users, message: &Message) -> Passed
        requires asks { AsksThis self.old (Final message.now) }
        ensures passes { Passes users.now self.old result self.new }
        ensures limits { IsPassed result }
    {
        if self.standing.is_some() {
            return self.fail();
        }
        let Some(login) = self.login.take() else {
            return self.fail();
        };
        let Some(Welcome { role, text }) = users.finish(login, message.as_slice()) else {
            return self.fail();
        };
        match Message::new(text.as_slice()) {
            Some(text) => {
                self.standing = Some(role);
                self.place = None;
                Passed::Answers(Answer::Welcome(text))
            }
            None => Passed::Answers(Answer::Refused(XAER_RMFAIL, Detail::Limit)),
        }
    }

    fn fail(&mut self) -> Passed
        ensures fails { result ≡ Fails }
        ensures same { self.new ≡ record self.old { login = None; tries = self.new.tries } }
    {
        self.login = None;
        self.tries = self.tries.saturating_add(1);
        Passed::Fails
    }

    /// Whether it has failed to log in as often as it may.
    pub(crate) fn is_out_of_tries(&self) -> bool {
        self.standing.is_none() && self.tries >= MOST_TRIES
    }
}

/// The role of a connection from its beginning: an operator's, unless there are users, who have to log in.
pub(crate) fn first_standing(users: Option<&Users>) -> Option<Role>
    ensures { result ≡ first_standing (option_map (λ u. u.now) users.entry) }
{
    match users {
        Some(_) => None,
        None => Some(Role::Operator),
    }
}

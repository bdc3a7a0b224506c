//! A loop's post, as the door of its connections and of its own session.
use crate::asking::is_restart;
use crate::keeping::Keeps;
use crate::logging::{appends, may_log};
use crate::post::Post;
use std::alloc::{AllocError, Global};
use std::rt::Clock;
use std::sync::Wait;
use xa_assoc::ConnectFault;
use xa_desk::Door;
use xa_frame::{Reply, Request, Status};
use xa_handles::put_counts;
use xa_history::Start;
use xa_reactor::{Ask, Reception};
use xa_sequencer::Manages;
use xa_tokens::Book;
use xa_xid::Xid;

impl<M: Manages, S: Start, B: Book, R: Clock + Wait, K: Keeps> Door for Post<'_, M, S, B, R, K> {
    ghost use Rattle.xa_server.specs.Believed.Loops.{Called, Left};

    ghost called = { λ session a question reply b.
        Called M.manages S.start S.base session a.handle.asker question reply b.handle.asker };

    ghost left = { λ session a b. Left M.manages S.start S.base session a.handle.asker b.handle.asker };

    fn call(&mut self, session: u64, request: Request) -> Reply {
        self.logged = self.logged.wrapping_add(u64::from(may_log(&request)));
        let is_restart = is_restart(&request);
        let call = Some(request.call());
        self.keeper.enter(session);
        let copy = self.keeper.copied(&request);
        let reply = self.handle.call(session, request);
        self.watch.see(self.rt, &mut self.seen, is_restart, &reply);
        self.tally(call, &reply);
        self.keeper.keep_call(session, copy, &reply);
        self.keeper.leave(session);
        reply
    }

    fn status(&self) -> Status {
        Status {
            seconds: self.uptime.seconds(self.rt),
            ..self.handle.status()
        }
    }

    fn hangup(&mut self, session: u64) {
        let (was_connected, place) = self.handle.hangup(session);
        if was_connected {
            self.keeper.keep_hangup(session, place);
        }
    }
}

impl<M: Manages, S: Start, B: Book, R: Clock + Wait, K: Keeps> Reception
    for Post<'_, M, S, B, R, K> {
    ghost use Rattle.xa_sequencer.specs.Associates.{AssociatedBy, AttachedBy, EndedBy, UnmarkedBy};
    ghost use Rattle.xa_server.specs.{Believed.Loops.Connected, Believed.Loops.Posted, Logging.may_log, Settled.keeps_settled};
    ghost use Rattle.xa_tokens.specs.Believed.Account.{Owes};

    ghost connected = { λ a result b. Connected M.manages S.start S.base a.handle.asker result b.handle.asker };

    ghost posts = { λ session request a b. Posted session request a.handle.asker b.handle.asker };

    ghost waits = { may_log };

    ghost logs = { λ a. a.logged };

    ghost is_settled = { λ a. Owes a.handle.asker 0 };

    ghost keeps_settled = { keeps_settled M.manages S.start S.base (λ p. p.handle.asker) };

    ghost ties = { λ _ session. record {
      associated = AssociatedBy M.manages S.start S.base session;
      unmarked = UnmarkedBy M.manages S.start S.base session;
    } };

    ghost attached = { λ _ xid sessions. AttachedBy M.manages S.start S.base xid sessions };

    ghost ends = { λ _ result. EndedBy M.manages S.start S.base result };

    fn connect(&mut self) -> Result<u64, ConnectFault> {
        let (session, place) = self.handle.connect();
        self.keeper.keep_connect(session, place);
        session
    }

    fn call_all(&mut self, asks: &mut [Ask]) {
        self.take_back(asks);
        self.answer_left(asks);
        leave_all(&self.keeper, asks);
    }

    fn call_quick(&mut self, asks: &mut [Ask]) {
        enter_all(&self.keeper, asks);
        let mut held = self.handle.hold();
        for ask in asks.iter_mut() {
            self.answer_now(&mut held, ask);
        }
        drop(held);
        leave_all(&self.keeper, asks);
    }

    fn may_wait(&self, request: &Request) -> bool {
        may_log(request)
    }

    fn post(&mut self, place: usize, ask: &Ask) {
        if let Some(request) = &ask.request {
            if appends(request) {
                self.keeper.enter(ask.session);
                self.handle.post(place, ask.session, request);
            }
        }
    }

    fn is_free(&self) -> bool {
        self.handle.is_free()
    }

    fn due(&self) -> u64 {
        self.handle.due()
    }

    fn is_due(&self, groups: u64) -> bool {
        self.handle.is_due(groups)
    }

    fn has_association(&self, session: u64) -> bool {
        self.handle.has_association(session)
    }

    fn has_unmarked(&self, session: u64) -> bool {
        self.handle.has_unmarked(session)
    }

    fn sessions_of(&self, alloc: Global, xid: &Xid) -> Result<Vec<u64>, AllocError> {
        self.handle.sessions_of(alloc, xid)
    }

    fn put_counts(&self, out: &mut Vec<u64>) -> Result<(), AllocError> {
        put_counts(out, self.tallies)
    }

    fn log_end(&self) -> u64 {
        self.handle.log_end()
    }

    fn logged(&self) -> u64 {
        self.logged
    }
}

// The calls of those that aren't answered are about to take the lock.
fn enter_all<K: Keeps>(keeper: &K, asks: &[Ask]) {
    for ask in asks {
        if ask.request.is_some() {
            keeper.enter(ask.session);
        }
    }
}

// The lock is released since the calls of those that are answered took it.
fn leave_all<K: Keeps>(keeper: &K, asks: &[Ask]) {
    for ask in asks {
        if ask.request.is_none() {
            keeper.leave(ask.session);
        }
    }
}

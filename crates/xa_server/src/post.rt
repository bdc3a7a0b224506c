ghost use Rattle.std.specs.Prelude.{ℕ, ◌≡◌, ◌+◌};
ghost use Rattle.xa_sequencer.specs.Believed.GroupManager.{pending_of};
ghost use Rattle.xa_server.specs.Believed.Watching.{seen_of};

use crate::asking::{asks_restart, call_of, is_restart};
use crate::keeping::Keeps;
use std::alloc::{AllocError, Global};
use std::fmt;
use std::rt::Clock;
use std::sync::Wait;
use std::thread::yield_now;
use xa_codes::Call;
use xa_frame::Reply;
use xa_handles::{Content, Handle, Held, Letter, SharedSequencer, Tally};
use xa_history::Start;
use xa_reactor::{Ask, Seen, Watch};
use xa_room::Uptime;
use xa_sequencer::Manages;
use xa_tokens::{Book, Share};
use xa_waits::LETS;

/// A loop's post: a door at a sequencer that the loops share. A watch sees each reply.
#[derive(Drop)]
pub(crate) struct Post<'a, M: Manages, S: Start, B: Book, R, K> {
    pub(crate) handle: Handle<'a, M, S, B, R>,
    pub(crate) watch: &'a Watch,
    /// What each loop counts, and which place this one's has.
    pub(crate) tallies: &'a [Tally],
    pub(crate) place: usize,
    /// Whether the manager is down, by what this loop was told.
    pub(crate) seen: Seen,
    pub(crate) rt: &'a R,
    pub(crate) uptime: Uptime,
    /// How many calls there were that may have moved the log's end.
    pub(crate) logged: u64,
    /// What it keeps of what it was told.
    pub(crate) keeper: K,
    pub ghost kept: { seen ≡ seen_of handle.asker.told },
}

impl<'a, M: Manages, S: Start, B: Book, R: Clock + Wait, K: Keeps> Post<'a, M, S, B, R, K> {
    ghost use Rattle.std.specs.Prelude.{◌≡◌, ◌⊎◌, ◌<◌, ◌≤◌, [], All, IfOk, IsTrue, None, is_none, length};
    ghost use Rattle.xa_reactor.specs.Asking.{HasRequest, IsAnswered, Tells, TellsSome};
    ghost use Rattle.xa_server.specs.{Believed.Loops.Called, Rounds.IsWithin, Rounds.TakesBack, Rounds.TellsAtMost};
    ghost use Rattle.xa_server.specs.Believed.Watching.{IsSeenLast};
    ghost use Rattle.xa_tokens.specs.Believed.Account.{Owes};

    pub(crate) fn new(
        rt: &'a R,
        sequencer: &'a SharedSequencer<M, S, B>,
        watch: &'a Watch,
        tallies: &'a [Tally],
        place: usize,
        share: Share<B>,
        keeper: K,
        alloc: Global,
    ) -> Result<Post<'a, M, S, B, R, K>, AllocError>
        requires place { place < length tallies.now }
        requires some { 0 < share.parts }
        requires told { share.told ≡ [] }
        requires owes { Owes share 0 }
        ensures { IfOk result (λ post. post.handle.asker ≡ share) }
    {
        let handle = Handle::new(rt, sequencer, &tallies[place], share, alloc)?;
        Ok(Post {
            handle,
            watch,
            tallies,
            place,
            seen: Seen::new(),
            rt,
            uptime: Uptime::new(rt),
            logged: 0,
            keeper,
        })
    }

    // Takes what was posted back, answered by whoever had the lock, or by itself: until nothing is left. Those of all loops
    // share one write and one sync, for which the lock is let go.
    pub(crate) fn take_back(&mut self, asks: &mut [Ask])
        ensures back { TakesBack M.manages S.start S.base self.old.handle.asker asks.old asks.new
            self.new.handle.asker }
        ensures same { asks.old ≡ [] → self.new ≡ self.old }
        ensures none { Owes self.new.handle.asker 0 }
    {
        let mut lets = 0u32;
        for _ in self.rt.forever() {
            if self.handle.owed() == 0 {
                return;
            }
            let held = self.handle.hold();
            self.take_turn(held, asks, lets);
            if self.handle.owed() == 0 {
                yield_now();
                return;
            }
            self.handle.rest(lets);
            lets = lets.saturating_add(1);
        }
        unreachable!()
    }

    // Takes the letters that came back, and if some are to come back yet, it is settled, and nobody else waits for the
    // lock, has the posted calls answered. While others wait for the lock they come first, some times.
    fn take_turn(&mut self, held: Held<'a, M, S, B>, asks: &mut [Ask], lets: u32)
        ensures back { TakesBack M.manages S.start S.base self.old.handle.asker asks.old asks.new
            self.new.handle.asker }
        ensures same { asks.old ≡ [] → self.new ≡ self.old }
    {
        let Some(held) = self.take_letters(held, asks) else {
            return;
        };
        if self.handle.owed() > 0 && self.has_turn(&held, lets) {
            let held = self.handle.answer_posted(held);
            let _lock = self.take_letters(held, asks);
        }
    }

    // Whether it may begin a group, after it let others have the lock so often.
    fn has_turn(&self, held: &Held<'a, M, S, B>, lets: u32) -> bool
        ensures settled { IsTrue result → pending_of held.now.at.now ≡ None }
        ensures ends { 4 ≤ lets → result ≡ is_none (pending_of held.now.at.now) }
    {
        self.handle.is_settled(held) && (lets >= LETS || !self.handle.is_wanted())
    }

    // Takes the letters that came back, by the lock, which it gives back, unless that was let go for one of them.
    fn take_letters(
        &mut self,
        held: Held<'a, M, S, B>,
        asks: &mut [Ask],
    ) -> Option<Held<'a, M, S, B>>
        ensures back { TakesBack M.manages S.start S.base self.old.handle.asker asks.old asks.new
            self.new.handle.asker }
        ensures same { asks.old ≡ [] → self.new ≡ self.old }
    {
        let mut held = held;
        for _ in 0..asks.len() {
            if self.handle.owed() == 0 {
                return Some(held);
            }
            let Some(letter) = self.handle.next_letter(&mut held) else {
                return Some(held);
            };
            held = self.take_letter(held, asks, letter)?;
        }
        Some(held)
    }

    // Takes the letter of one of them, by its place.
    fn take_letter(
        &mut self,
        held: Held<'a, M, S, B>,
        asks: &mut [Ask],
        letter: Letter<M, S, B>,
    ) -> Option<Held<'a, M, S, B>>
        requires { (n : ℕ) × Owes self.old.handle.asker (n + 1) }
        ensures { TakesBack M.manages S.start S.base self.old.handle.asker asks.old asks.new
            self.new.handle.asker }
    {
        let place = letter.place();
        if place < asks.len() {
            self.take_letter_to(held, &mut asks[place], letter)
        } else {
            Some(held)
        }
    }

    // Takes a letter, if it is of this ask: its answer, or the call that is to be answered by itself.
    fn take_letter_to(
        &mut self,
        held: Held<'a, M, S, B>,
        ask: &mut Ask,
        letter: Letter<M, S, B>,
    ) -> Option<Held<'a, M, S, B>>
        requires { (n : ℕ) × Owes self.old.handle.asker (n + 1) }
        ensures told { TellsAtMost (Called M.manages S.start S.base) self.old.handle.asker ask.old ask.new
            self.new.handle.asker }
        ensures asked { self.new.handle.asker.asked ≡ self.old.handle.asker.asked }
    {
        let is_of = match &ask.request {
            Some(request) => letter.is_of(ask.session, request),
            None => false,
        };
        if !is_of {
            return Some(held);
        }
        let is_restart = asks_restart(ask);
        let call = call_of(ask);
        let (_, _, content) = letter.into_parts();
        let (reply, held) = match content {
            Content::Answered(answered) => (self.handle.take_answer(answered), Some(held)),
            Content::Posted(posted) => self.handle.call_back(held, posted),
        };
        self.logged = self.logged.wrapping_add(1);
        self.watch.see(self.rt, &mut self.seen, is_restart, &reply);
        self.tally(call, &reply);
        let request = ask.request.take();
        self.keeper.keep_call(ask.session, request, &reply);
        ask.request = None;
        ask.reply = reply;
        held
    }

    // Answers those that are left, one by one.
    pub(crate) fn answer_left(&mut self, asks: &mut [Ask])
        requires { All IsWithin asks.old }
        ensures some { TellsSome (Called M.manages S.start S.base) self.old.handle.asker asks.old asks.new
            self.new.handle.asker }
        ensures same { asks.old ≡ [] → self.new ≡ self.old }
        ensures none { All IsAnswered asks.new }
        ensures settled { Owes self.old.handle.asker 0 → Owes self.new.handle.asker 0 }
    {
        for ask in asks.iter_mut() {
            self.answer(ask);
        }
    }

    // Answers an ask that is left; one that a pending group holds up waits until that is finished. As it may have waited for
    // the device, others have their turn after it.
    fn answer(&mut self, ask: &mut Ask)
        requires { IsWithin ask.old }
        ensures told { TellsAtMost (Called M.manages S.start S.base) self.old.handle.asker ask.old ask.new
            self.new.handle.asker }
        ensures gone { IsAnswered ask.new }
        ensures settled { Owes self.old.handle.asker 0 → Owes self.new.handle.asker 0 }
    {
        if let Some(request) = ask.request.take() {
            self.logged = self.logged.wrapping_add(1);
            let is_restart = is_restart(&request);
            let call = Some(request.call());
            self.keeper.enter(ask.session);
            let copy = self.keeper.copied(&request);
            let held = self.handle.hold();
            let (reply, held) = self.handle.call_held(held, ask.session, request);
            self.watch.see(self.rt, &mut self.seen, is_restart, &reply);
            self.tally(call, &reply);
            self.keeper.keep_call(ask.session, copy, &reply);
            ask.reply = reply;
            drop(held);
            yield_now();
        }
    }

    // Answers an ask, under the lock that was taken, unless a pending group holds it up: then nothing changes.
    pub(crate) fn answer_now(&mut self, held: &mut Held<'a, M, S, B>, ask: &mut Ask)
        requires { HasRequest ask.old }
        ensures { ((ask.new ≡ ask.old) × (self.new ≡ self.old))
            ⊎ Tells (Called M.manages S.start S.base) self.old.handle.asker ask.old ask.new self.new.handle.asker }
    {
        let Some(request) = ask.request.take() else {
            unreachable!()
        };
        let is_restart = is_restart(&request);
        let call = Some(request.call());
        let copy = self.keeper.copied(&request);
        let reply = match self.handle.call_now(held, ask.session, request) {
            Ok(reply) => reply,
            Err(request) => {
                ask.request = Some(request);
                return;
            }
        };
        self.watch.see(self.rt, &mut self.seen, is_restart, &reply);
        self.tally(call, &reply);
        self.keeper.keep_call(ask.session, copy, &reply);
        ask.reply = reply;
    }

    // Counts a call that was answered, and its reply.
    pub(crate) fn tally(&self, call: Option<Call>, reply: &Reply) {
        if let (Some(call), Some(tally)) = (call, self.tallies.get(self.place)) {
            tally.answered(call, reply.code);
        }
    }

    /// The share, what the loop has seen of whether the manager is down, and what it kept.
    pub(crate) fn into_parts(self) -> (Share<B>, Seen, K)
        ensures share { result.0 ≡ self.entry.handle.asker }
        ensures seen { IsSeenLast result.1 result.0.told }
    {
        let Post {
            handle,
            seen,
            keeper,
            ..
        } = self;
        (handle.into_share(), seen, keeper)
    }
}

/// Shows the name alone.
impl<M: Manages, S: Start, B: Book, R, K> fmt::Debug for Post<'_, M, S, B, R, K> {
    fn fmt<W: fmt::Write>(&self, f: &mut fmt::Formatter<W>) -> fmt::Result {
        f.debug_struct("Post").finish_non_exhaustive()
    }
}

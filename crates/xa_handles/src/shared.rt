ghost use Rattle.std.specs.Prelude.{◌≡◌, ◌≢◌, ◌-◌, ◌<◌, [], None};
ghost use Rattle.xa_handles.specs.Believed.Shared.{HoldsAt, IsWhole};
ghost use Rattle.xa_sequencer.specs.Believed.{GroupManager.GroupManager, GroupManager.pending_of, Stands.Numbered, Stands.Stands};
ghost use Rattle.xa_tokens.specs.Believed.Account.{Owes, account, merged};
ghost use Rattle.xa_tokens.specs.Believed.View.{all_parts};

use crate::held::Held;
use crate::letter::Letter;
use crate::locked::Locked;
use crate::tally::Tally;
use std::alloc::Global;
use std::fmt;
use std::rt::Clock;
use std::sync::atomic::{AtomicU64, Ordering};
use std::sync::{Condvar, Mutex, MutexGuard, Wait};
use std::thread::yield_now;
use std::time::{Duration, Instant};
use xa_disk::Syncer;
use xa_history::Start;
use xa_sequencer::{Manages, Sequencer};
use xa_tokens::{Book, Opened, Share, Tokens};
use xa_waits::{MOST_TRIES, REST, take};

/// A sequencer behind a lock, which many threads share. What it carries out was asked for by a share, once, and is told
/// to that share or another, once: the shares together have the history.
#[derive(Drop)]
pub struct SharedSequencer<M: Manages, S: Start, B: Book> {
    pub(crate) tokens: Tokens<B>,
    lock: Mutex<Locked<M, S, B>>,
    /// Calls that wait for whichever thread has the lock.
    pub(crate) mailbox: Mutex<Vec<Option<Letter<M, S, B>>>>,
    /// How many threads wait for the lock to hold it.
    waiting: AtomicU64,
    /// 1 while one of them makes the sync of the pending group.
    syncing: AtomicU64,
    /// Notified of each group that was answered.
    answered: Condvar,
}

impl<M: Manages, S: Start, B: Book> SharedSequencer<M, S, B> {
    /// Shares a sequencer with an empty history, which was opened. The share has every part.
    pub fn new(
        alloc: Global,
        sequencer: Sequencer<M, S>,
        opened: Opened,
    ) -> (SharedSequencer<M, S, B>, Share<B>)
        requires name { opened ≡ B.table }
        requires empty { Stands M.manages S.start S.base sequencer [] }
        requires settled { pending_of sequencer.now ≡ None }
        ensures { result.1 ≡ account all_parts [] [] [] }
    {
        let (tokens, keeper, share) = opened.named::<B>();
        let shared = SharedSequencer {
            tokens,
            lock: Mutex::new(Locked::new(alloc, sequencer, keeper)),
            mailbox: Mutex::new(Vec::new(alloc)),
            waiting: AtomicU64::new(0),
            syncing: AtomicU64::new(0),
            answered: Condvar::new(),
        };
        (shared, share)
    }

    /// A share of one part, with which nothing was asked.
    pub fn split(&self, share: &mut Share<B>) -> Share<B>
        requires { 1 < share.old.parts }
        ensures one { result ≡ account 1 [] [] [] }
        ensures rest { share.new ≡ record share.old { parts = share.old.parts - 1 } }
    {
        self.tokens.split(share)
    }

    /// Both shares as one.
    pub fn merge(&self, share: &mut Share<B>, other: Share<B>)
        ensures { share.new ≡ merged share.old other }
    {
        self.tokens.merge(share, other);
    }

    /// Takes the lock for several calls.
    pub(crate) fn hold<R: Wait>(&self, rt: &R) -> Held<'_, M, S, B> {
        self.waiting.fetch_add(1, Ordering::SeqCst);
        let locked = self.take(rt);
        self.waiting.fetch_sub(1, Ordering::SeqCst);
        Held::new(locked)
    }

    /// Whether a thread waits to hold the lock.
    pub(crate) fn is_wanted(&self) -> bool {
        self.waiting.load(Ordering::SeqCst) > 0
    }

    /// Whether no thread has the lock, and none syncs.
    pub(crate) fn is_free(&self) -> bool {
        !self.is_syncing() && self.lock.try_lock().is_some()
    }

    // Whether a thread makes the sync of the pending group.
    fn is_syncing(&self) -> bool {
        self.syncing.load(Ordering::SeqCst) != 0
    }

    /// After how many answered groups a call that is posted now has its answer: a pending group is without it.
    pub(crate) fn due(&self) -> u64
        ensures { 0 < result }
    {
        let groups = self.answered.notifications();
        groups.saturating_add(1 + u64::from(self.is_syncing()))
    }

    /// Whether `groups` groups were answered.
    pub(crate) fn is_due(&self, groups: u64) -> bool {
        self.answered.notifications() >= groups
    }

    /// Lets others run. While the sync of a group is made, a thread that has done so often sleeps until the group is
    /// answered, but not for long.
    pub(crate) fn rest<R: Wait>(&self, rt: &R, tries: u32) {
        // read first: if the group is answered in between, it doesn't sleep
        let groups = self.answered.notifications();
        if tries >= MOST_TRIES && self.is_syncing() {
            self.answered.sleep(rt, groups, Duration::from_millis(REST));
        } else {
            yield_now();
        }
    }

    /// Takes the lock, whether a group is pending or not.
    pub(crate) fn take<R: Wait>(&self, rt: &R) -> MutexGuard<'_, Locked<M, S, B>> {
        take(rt, &self.lock)
    }

    /// Takes the lock when no group is pending.
    pub(crate) fn take_settled<R: Wait>(&self, rt: &R) -> MutexGuard<'_, Locked<M, S, B>>
        ensures { pending_of result.value.at.now ≡ None }
    {
        let mut tries = 0u32;
        for _ in rt.forever() {
            let locked = self.take(rt);
            if locked.is_settled() {
                return locked;
            }
            drop(locked);
            self.rest(rt, tries);
            tries = tries.saturating_add(1);
        }
        unreachable!()
    }

    // Takes the lock for several calls when a group is pending, as one is until its sync's answer is taken.
    fn hold_pending<R: Wait>(&self, rt: &R) -> Held<'_, M, S, B>
        ensures { pending_of result.at.now ≢ None }
    {
        for _ in rt.forever() {
            let held = self.hold(rt);
            if !held.locked.is_settled() {
                return held;
            }
            drop(held);
            yield_now();
        }
        unreachable!()
    }

    /// Makes the sync of the pending group, for which the lock that was taken is released, and finishes the group. Returns the
    /// lock, taken again.
    pub(crate) fn sync<'a, R: Clock + Wait>(
        &'a self,
        rt: &R,
        held: Held<'a, M, S, B>,
        syncer: Syncer,
        tally: &Tally,
    ) -> Held<'a, M, S, B>
        ensures { pending_of result.at.now ≡ None }
    {
        let calls = held.locked.letters_taken();
        self.syncing.store(1, Ordering::SeqCst);
        drop(held);
        let began = Instant::now(rt).ok();
        let answer = syncer.sync();
        tally.synced(calls, micros_since(rt, began));
        let mut held = self.hold_pending(rt);
        held.locked.finish_mail(&self.tokens, answer);
        self.syncing.store(0, Ordering::SeqCst);
        self.answered.notify_all();
        held
    }

    /// At any moment, also while others ask and groups are pending: what has been carried out is a legal history, with what
    /// that promises, and what a share was told is in it. It waits for the lock, and changes nothing.
    pub fn look<R: Wait>(&self, rt: &R, share: Share<B>) -> Share<B>
        ensures holds { (c : Numbered (GroupManager M)) × HoldsAt M.manages S.start S.base c share }
        ensures same { result ≡ share }
    {
        self.take(rt).look(&self.tokens, share)
    }

    /// The sequencer. Its history is what the share of all parts was told, each entry once, since no call is owed an answer.
    pub fn into_sequencer(self, all: Share<B>) -> Sequencer<M, S>
        requires parts { all.parts ≡ all_parts }
        requires owes { Owes all 0 }
        ensures { IsWhole M.manages S.start S.base result all }
    {
        let SharedSequencer { tokens, lock, .. } = self;
        let (sequencer, keeper) = lock.into_inner().into_parts();
        tokens.audit(keeper, all);
        sequencer
    }
}

// How many microseconds have passed, 0 if the clock doesn't tell.
fn micros_since<R: Clock>(rt: &R, began: Option<Instant>) -> u64 {
    let Some(began) = began else {
        return 0;
    };
    match began.elapsed(rt) {
        Ok(elapsed) => u64::try_from(elapsed.as_micros()).unwrap_or(u64::MAX),
        Err(_) => 0,
    }
}

/// Shows only the name, so that it never waits for the lock.
impl<M: Manages, S: Start, B: Book> fmt::Debug for SharedSequencer<M, S, B> {
    fn fmt<W: fmt::Write>(&self, f: &mut fmt::Formatter<W>) -> fmt::Result {
        f.debug_struct("SharedSequencer").finish_non_exhaustive()
    }
}

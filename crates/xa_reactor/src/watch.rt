ghost use Rattle.std.specs.Prelude.{◌≡◌};
ghost use Rattle.xa_reactor.specs.Believed.Down.{after_reply};

use crate::cause::{Cause, News, news_of};
use crate::seen::Seen;
use std::sync::atomic::{AtomicBool, AtomicU64, Ordering};
use std::sync::{Mutex, Wait};
use xa_frame::Reply;

/// What the loops have seen of whether the manager is up, by the replies to calls.
#[derive(Drop)]
pub struct Watch {
    last: Mutex<Seen>,
    is_down: AtomicBool,
    /// Whether it went down, of which nobody was told.
    is_untold: AtomicBool,
    /// Why it went down last, by the cause's number.
    cause: AtomicU64,
    /// Whether the loops end since it is down.
    has_ended: AtomicBool,
}

impl Watch {
    /// Nothing was seen of a manager that is up.
    pub fn new() -> Watch {
        Watch {
            last: Mutex::new(Seen::new()),
            is_down: AtomicBool::new(false),
            is_untold: AtomicBool::new(false),
            cause: AtomicU64::new(0),
            has_ended: AtomicBool::new(false),
        }
    }

    /// A loop, which has `seen` that much, was answered so; it was a Restart, or another call.
    pub fn see<R: Wait>(&self, rt: &R, seen: &mut Seen, is_restart: bool, reply: &Reply)
        ensures { seen.new ≡ after_reply seen.old is_restart reply.now }
    {
        let Some(news) = news_of(is_restart, reply) else {
            return;
        };
        seen.take(reply.place, news);
        // by the history's order, in which loops needn't come here
        let mut last = self.last.lock(rt);
        if last.take(reply.place, news) {
            self.take(news);
        }
    }

    fn take(&self, news: News) {
        match news {
            News::Down(cause) => {
                self.cause.store(cause.number(), Ordering::SeqCst);
                if !self.is_down.swap(true, Ordering::SeqCst) {
                    self.is_untold.store(true, Ordering::SeqCst);
                }
            }
            News::Up => self.is_down.store(false, Ordering::SeqCst),
        }
    }

    /// Whether it went down last.
    pub(crate) fn is_down(&self) -> bool {
        self.is_down.load(Ordering::SeqCst)
    }

    /// The loops end since it is down.
    pub(crate) fn end(&self) {
        self.has_ended.store(true, Ordering::SeqCst);
    }

    /// Whether the loops ended since it was down, also if a Restart that was asked for by then has helped.
    pub fn has_ended(&self) -> bool {
        self.has_ended.load(Ordering::SeqCst)
    }

    /// Why it went down, if nobody was told, also if it is up again.
    pub(crate) fn news(&self) -> Option<Cause> {
        // read first: each loop asks after each round
        if self.is_untold.load(Ordering::SeqCst) && self.is_untold.swap(false, Ordering::SeqCst) {
            Cause::numbered(self.cause.load(Ordering::SeqCst))
        } else {
            None
        }
    }
}

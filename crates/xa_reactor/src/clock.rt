ghost use Rattle.std.specs.Prelude.{◌≡◌, false, true, IfOk, OnOk, nat_le};
ghost use Rattle.xa_reactor.specs.Timing.{IsRead, after_wait, looked};

use crate::timing::LOOK;
use std::io;
use std::rt::Clock;
use std::time::Instant;

/// The time of a loop, in milliseconds since it began, as it was read last.
#[derive(Drop)]
pub(crate) struct LoopClock {
    began: Instant,
    now: u64,
    /// Whether the loop may have waited since it was read.
    is_past: bool,
    /// When the next look for connections that are overdue is due.
    looks: u64,
}

impl LoopClock {
    pub(crate) fn new<R: Clock>(rt: &R) -> io::Result<LoopClock>
        ensures { IfOk result (λ clock. (clock.now ≡ 0) × (clock.is_past ≡ true) × (clock.looks ≡ 1000)) }
    {
        Ok(LoopClock {
            began: Instant::now(rt)?,
            now: 0,
            is_past: true,
            looks: LOOK,
        })
    }

    /// The loop may have waited.
    pub(crate) fn pass(&mut self)
        ensures { self.new ≡ after_wait self.old }
    {
        self.is_past = true;
    }

    pub(crate) fn read<R: Clock>(&mut self, rt: &R) -> io::Result<()>
        ensures read { OnOk result (IsRead self.new) }
        ensures looks { self.new.looks ≡ self.old.looks }
    {
        let elapsed = self.began.elapsed(rt)?;
        self.now = u64::try_from(elapsed.as_millis()).unwrap_or(u64::MAX);
        self.is_past = false;
        Ok(())
    }

    /// The time since the last wait: it is read again if the loop may have waited since, unless it can't be read.
    pub(crate) fn now<R: Clock>(&mut self, rt: &R) -> u64
        ensures now { result ≡ self.new.now }
        ensures read { IsRead self.new }
        ensures same { IsRead self.old → self.new ≡ self.old }
        ensures looks { self.new.looks ≡ self.old.looks }
    {
        if self.is_past {
            let _ = self.read(rt);
            self.is_past = false;
        }
        self.now
    }

    /// Whether a look is due, and then when the next one is.
    pub(crate) fn is_look(&mut self) -> bool
        ensures look { result ≡ nat_le self.old.looks self.old.now }
        ensures next { self.new ≡ looked self.old }
    {
        if self.now < self.looks {
            return false;
        }
        self.looks = self.now.saturating_add(LOOK);
        true
    }
}

ghost use Rattle.std.specs.Prelude.{◌≡◌};
ghost use Rattle.xa_waits.specs.Patience.{after_look, learned, looks_now, new_patience};

use crate::waits::{LOOKS_AHEAD, MOST_SKIPS};

/// Whether it is worth a loop's time to look for more requests before it answers those that may wait for a device, with
/// which they share its sync: not where the last time was in vain. Then it is left out once, and twice as often and once
/// more each time that it is in vain again: a client alone among idle connections hardly waits for them.
#[derive(Debug, Drop)]
pub struct Patience {
    /// How often it was left out after the last time in vain.
    skips: u32,
    /// How often it is still to be left out.
    left: u32,
}

impl Patience {
    pub fn new() -> Patience
        ensures { result ≡ new_patience }
    {
        Patience { skips: 0, left: 0 }
    }

    /// How often to look now.
    pub fn looks(&mut self) -> u32
        ensures looks { result ≡ looks_now self.old }
        ensures left { self.new ≡ after_look self.old }
    {
        if self.left > 0 {
            self.left -= 1;
            return 0;
        }
        LOOKS_AHEAD
    }

    /// It was looked; whether requests came.
    pub fn learn(&mut self, came: bool)
        ensures { self.new ≡ learned self.old came }
    {
        self.skips = if came {
            0
        } else {
            self.skips
                .saturating_mul(2)
                .saturating_add(1)
                .min(MOST_SKIPS)
        };
        self.left = self.skips;
    }
}

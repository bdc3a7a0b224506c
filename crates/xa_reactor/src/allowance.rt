ghost use Rattle.std.specs.Prelude.{◌≡◌};
ghost use Rattle.xa_reactor.specs.Allowance.{new_allowance, taken};

/// How long a line takes, in milliseconds.
const LINE: u64 = 1_000;

/// How far the time that lines took may lie ahead when one more is taken: so 100 lines come at once.
const AHEAD: u64 = 99_000;

/// How many lines a loop may tell of orders: 100 at once, and one more for each second, so that whoever gives them neither
/// fills what standard error goes to, nor has the loop wait for whoever reads it.
#[derive(Debug, Drop)]
pub(crate) struct Allowance {
    /// Until when lines were taken, by the loop's clock.
    until: u64,
    /// How many orders weren't told of since the last one that was.
    left_out: u64,
}

impl Allowance {
    pub(crate) fn new() -> Allowance
        ensures { result ≡ new_allowance }
    {
        Allowance {
            until: 0,
            left_out: 0,
        }
    }

    /// Takes a line for an order, and says how many weren't told of before it; if there is none, the order is counted.
    pub(crate) fn take(&mut self, now: u64) -> Option<u64>
        ensures line { result ≡ (taken self.old now).0 }
        ensures left { self.new ≡ (taken self.old now).1 }
    {
        if self.until.saturating_sub(now) > AHEAD {
            self.left_out = self.left_out.saturating_add(1);
            return None;
        }
        let left_out = self.left_out;
        self.until = self.until.max(now).saturating_add(LINE);
        self.left_out = 0;
        Some(left_out)
    }

    /// How many orders weren't told of since the last one that was.
    pub(crate) fn left_out(&self) -> u64
        ensures { result ≡ self.now.left_out }
    {
        self.left_out
    }
}

ghost use Rattle.std.specs.Prelude.{◌≡◌, ◌+◌, ◌≤◌, ◌==◌, ◌&&◌, ◌||◌, ℕ, not, nat_le, if◌then◌else◌, None, OnOk, OnErr};
ghost use Rattle.xa_disk.specs.Plans.{stops_at, stops_in, planned_in};

use crate::plan::{Effect, Plan, take_due};
use std::alloc::{AllocError, Global};

/// Which device calls from now on will fail: single ones, and each from some call on.
#[derive(Debug, Drop)]
pub(crate) struct Faults {
    plans: Vec<Plan>,
    // The first call of a stop, counted from now: the next one is 1. It stays at 0.
    stopped: Option<u64>,
}

// Whether a stop covers the call that is made now.
fn count_stop(stopped: &mut Option<u64>) -> bool
    ensures now { result ≡ stops_at stopped.old 1 }
    ensures later { (k : ℕ) → stops_at stopped.new k ≡ stops_at stopped.old (k + 1) }
{
    match stopped {
        None => false,
        Some(left) => {
            let is_now = *left <= 1;
            *left = left.saturating_sub(1);
            is_now
        }
    }
}

fn earlier(stopped: Option<u64>, k: u64) -> u64
    ensures { (j : ℕ) → nat_le result j ≡ (nat_le k j || stops_at stopped j) }
{
    match stopped {
        None => k,
        Some(left) => left.min(k),
    }
}

impl Faults {
    pub(crate) fn none(alloc: Global) -> Faults
        ensures { (k : ℕ) → planned_in result k ≡ None }
    {
        Faults {
            plans: Vec::new(alloc),
            stopped: None,
        }
    }

    // Of two plans for one call the later one counts, and a stop overrides both.
    pub(crate) fn plan(&mut self, k: u64, effect: Effect) -> Result<(), AllocError>
        ensures planned { OnOk result ((j : ℕ) → planned_in self.new j
            ≡ (if k == j && not (stops_in self.old j) then Some effect else planned_in self.old j)) }
        ensures err { OnErr result ((j : ℕ) → planned_in self.new j ≡ planned_in self.old j) }
        ensures stops { (j : ℕ) → stops_in self.new j ≡ stops_in self.old j }
    {
        self.plans.push(Plan { left: k, effect })?;
        Ok(())
    }

    // Of two stops the earlier one counts.
    pub(crate) fn stop(&mut self, k: u64)
        ensures planned { (j : ℕ)
            → planned_in self.new j ≡ (if nat_le k j then Some Effect.Lost else planned_in self.old j) }
        ensures stops { (j : ℕ) → stops_in self.new j ≡ (nat_le k j || stops_in self.old j) }
    {
        self.stopped = Some(earlier(self.stopped, k));
    }

    // Takes what is planned for the call that is made now.
    pub(crate) fn take(&mut self) -> Option<Effect>
        ensures now { result ≡ planned_in self.old 1 }
        ensures later { (k : ℕ) → 1 ≤ k → planned_in self.new k ≡ planned_in self.old (k + 1) }
        ensures stops { (k : ℕ) → stops_in self.new k ≡ stops_in self.old (k + 1) }
    {
        let plan = take_due(&mut self.plans);
        if count_stop(&mut self.stopped) {
            Some(Effect::Lost)
        } else {
            plan
        }
    }

    pub(crate) fn clear(&mut self)
        ensures { (k : ℕ) → planned_in self.new k ≡ None }
    {
        self.plans.clear();
        self.stopped = None;
    }
}

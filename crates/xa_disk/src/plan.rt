//! Device calls that are planned to fail.
ghost use Rattle.std.specs.Prelude.{◌≡◌, ◌+◌, ◌≤◌, ℕ, map};
ghost use Rattle.xa_disk.specs.Plans.{due, counted};

/// What a device call that is planned to fail does all the same.
#[derive(Clone, Copy, Debug, PartialEq, Eq)]
pub enum Effect {
    /// It has its effect, and returns a fault.
    Kept,
    /// It has none, and returns a fault.
    Lost,
}

/// The device call to fail, counted from now: the next one has 1 left.
#[derive(Clone, Copy, Debug, Drop)]
pub struct Plan {
    pub left: u64,
    pub effect: Effect,
}

// The plan for the next call: of two the later one.
fn next_due(plans: &[Plan]) -> Option<Effect>
    ensures { result ≡ due plans.now 1 }
{
    let mut found = None;
    for plan in plans {
        if plan.left == 1 {
            found = Some(plan.effect);
        }
    }
    found
}

// One call less until each plan.
fn count_down(plans: &mut [Plan])
    ensures { plans.new ≡ map counted plans.old }
{
    for plan in plans.iter_mut() {
        plan.left = plan.left.saturating_sub(1);
    }
}

// Drops the plans whose calls have been made.
fn drop_met(plans: &mut Vec<Plan>)
    ensures { (k : ℕ) → 1 ≤ k → due plans.new.items k ≡ due plans.old.items k }
{
    plans.retain(|plan| plan.left != 0);
}

// Takes the plan for the call that is made now.
pub(crate) fn take_due(plans: &mut Vec<Plan>) -> Option<Effect>
    ensures now { result ≡ due plans.old.items 1 }
    ensures later { (k : ℕ) → 1 ≤ k → due plans.new.items k ≡ due plans.old.items (k + 1) }
{
    let found = next_due(plans);
    count_down(plans);
    drop_met(plans);
    found
}

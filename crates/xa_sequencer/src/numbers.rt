ghost use Rattle.std.specs.Prelude.{◌≡◌, ℕ, ◌+◌, ◌≤◌, ◌<◌, true, false};
ghost use Rattle.xa_sequencer.specs.Believed.{GroupManager.calls_in, Stands.most_numbers};
ghost use Rattle.xa_sequencer.specs.Manages.{pending_count};

use xa_manager::PendingGroup;

/// Whether `more` numbers are left, after a count and besides those for the hang-ups of the sessions.
pub(crate) fn are_left(count: u64, sessions: u64, more: u64) -> bool
    ensures left { result ≡ true → count + sessions + more ≤ most_numbers }
    ensures full { result ≡ false → most_numbers < count + sessions + more }
{
    match count.checked_add(sessions) {
        Some(taken) => taken.checked_add(more).is_some(),
        None => false,
    }
}

/// How many calls are pending.
pub(crate) fn pending_calls(pending: &Option<PendingGroup>) -> u64
    ensures { result ≡ pending_count (calls_in pending.now) }
{
    match pending {
        Some(group) => group.calls().len() as u64,
        None => 0,
    }
}

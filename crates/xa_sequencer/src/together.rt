//! Of calls that are asked together: what their requests hold, and the numbers of their replies.
ghost use Rattle.std.specs.Prelude.{◌≡◌, ◌+◌, ◌≤◌, length};
ghost use Rattle.std.specs.List.{AllByRecursion};
ghost use Rattle.xa_frame.specs.Limits.{IsRequest};
ghost use Rattle.xa_model.specs.Events.{IsAsked};
ghost use Rattle.xa_sequencer.specs.{Believed.Stands.most_numbers, Believed.Together.placed_from};

use xa_frame::Reply;
use xa_manager::Asked;

/// What the requests hold. It does nothing.
pub(crate) fn hold_all(calls: &[Asked])
    requires { AllByRecursion (λ c. IsRequest c.request) calls.now }
    ensures { AllByRecursion (λ c. IsAsked c.request) calls.now }
{
    for call in calls {
        call.request.hold();
    }
}

/// Gives replies the places after a count.
pub(crate) fn number_all(replies: &mut [(usize, Reply)], count: u64)
    requires { count + length replies.old ≤ most_numbers }
    ensures { replies.new ≡ placed_from count replies.old }
{
    let mut last = count;
    for told in replies.iter_mut() {
        last += 1;
        told.1.place = last;
    }
}

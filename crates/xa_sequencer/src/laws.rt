ghost use Rattle.xa_sequencer.specs.Believed.Stands.{GoesOnTwice};

use crate::manages::Manages;
use xa_history::Start;

/// What goes on with some entries, and then with others, goes on with these after those. It does nothing.
pub fn goes_on_twice<M: Manages, S: Start>()
    ensures { GoesOnTwice M.manages S.start S.base }
{}

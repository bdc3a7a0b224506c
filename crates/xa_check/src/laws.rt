//! What is told of two files, and what an opening makes of them.
ghost use Rattle.xa_check.specs.Opens.{CurrentLaw, WholeLaw};

/// Of two files that an opening reads, the one that is told as current is its log's. If it is told that a server opens
/// them, none is one that isn't a log's, and an opening doesn't refuse them.
pub fn told_as_opened()
    ensures current { CurrentLaw }
    ensures whole { WholeLaw }
{}

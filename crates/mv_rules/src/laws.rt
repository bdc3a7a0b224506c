ghost use Rattle.mv_rules.specs.{Committed.CommittedLasts, Ties.OneSource, Ties.OneLateness, Noted.LeaveNothing, Noted.LeaveAll};
ghost use Rattle.mv_rules.specs.Restoring.{AreInTurn, LowRises, StandsRestored};

/// What a timestamp reads of a key among the branches of the sequential resource manager, and which writes are late
/// there, are what the flat list of their writes and reads says.
pub fn one_history()
    ensures source { OneSource }
    ensures late { OneLateness }
{}

/// The last committed write of each key, by timestamp, is what lasts of the committed branches.
pub fn committed_lasts()
    ensures { CommittedLasts }
{}

/// The branches that lasted may be added to new records in their order. Records that were rebuilt from what lasted,
/// from timestamps above 0 on, stand for each state that is restored to it: from the timestamps of its boot on, and
/// those are above all of its branches, they show the same, whether or not overwritten writes are among
/// them.
pub fn restoring()
    ensures order { AreInTurn }
    ensures low { LowRises }
    ensures restored { StandsRestored }
{}

/// Branches that each read one key of which nothing was kept, and were decided then, leave nothing: once the low water
/// has passed them, all is as if it had risen without them.
pub fn reads_leave_nothing()
    ensures nothing { LeaveNothing }
    ensures all { LeaveAll }
{}

ghost use Rattle.xa_log.specs.Worked.{GreaterGeneration, BeforeTheSeal, StaleTail, Ties, OneLog, SecondFormat};
ghost use Rattle.xa_log.specs.Worked.{Faults, Damages, LostFirst, LeftBehind, OwnRecords, Unfits};

/// Worked rows of two files, computed on the definitions alone: which of them is current, what is left after a
/// checkpoint's records, why none is, and where damage is reported.
pub fn worked_pairs()
    ensures greater { GreaterGeneration }
    ensures unsealed { BeforeTheSeal }
    ensures stale { StaleTail }
    ensures ties { Ties }
    ensures one_log { OneLog }
    ensures second_format { SecondFormat }
    ensures faults { Faults }
    ensures damages { Damages }
    ensures lost_first { LostFirst }
    ensures left_behind { LeftBehind }
    ensures own_records { OwnRecords }
    ensures unfits { Unfits }
{}

ghost use Rattle.mv_chain.specs.{Idle.IdleStands, Pool.OthersStay};
ghost use Rattle.mv_chain.specs.Rows.{LateWrite, BlindWrite, BusyUntilCommitted, NotSeen, LastCommitted};

/// A call on one chain leaves every other chain of the pool as it was: its versions, that it is one of the pool's,
/// and that no version is in both.
pub fn others_stay()
    ensures { OthersStay }
{}

/// A key that was only read, up to the low water, may be forgotten: it stands
/// for the same as a new key.
pub fn idle_stands()
    ensures { IdleStands }
{}

/// Worked rows: what the definitions make of writes and reads of three branches. It does nothing.
pub fn worked_histories()
    ensures late { LateWrite }
    ensures blind { BlindWrite }
    ensures busy { BusyUntilCommitted }
    ensures gone { NotSeen }
    ensures last { LastCommitted }
{}

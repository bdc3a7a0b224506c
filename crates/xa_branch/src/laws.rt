ghost use Rattle.xa_branch.specs.{Restored.RestoredStand, Worked.WorkedStates};

/// Worked rows: the state of a branch, computed on the definitions alone.
pub fn worked_states()
    ensures { WorkedStates }
{}

/// Once all that lasted is restored, the branches stand for each state that it leads to.
pub fn restored_stand()
    ensures { RestoredStand }
{}

ghost use Rattle.xa_model.specs.Worked.LowWater.{WaterRises};
ghost use Rattle.xa_model.specs.Worked.Log.{HeldAndCommitted, DecidedAndForgotten, RolledBack, LastWrites, InOrder};
ghost use Rattle.xa_model.specs.Worked.Log.{BegunEarlier, BootsInOrder, TimestampsInOrder, NamesInOrder, SnapshotsInOrder};
ghost use Rattle.xa_model.specs.Worked.Lasting.{StatesLeave, CommittedLeaves};
ghost use Rattle.xa_model.specs.Worked.OneCopy.{ReadsBelow, MissesDelete, MissesOwnDelete, ReadsAbove, RecordsRead};
ghost use Rattle.xa_model.specs.Worked.Walks.{Bounds, Phantom, BelowSource, Outside, PhantomPut};
ghost use Rattle.xa_model.specs.Worked.Walks.{FindsRecords, MissesRecord, FindsDeleted};
ghost use Rattle.xa_model.specs.Worked.Walks.{WalksToEnd, WalksBelow, TwoPortions, StopsAtBusy};
ghost use Rattle.xa_model.specs.Worked.Turns.{PreparedAndCommitted, RolledBackAgain, MarkedIsGone, ReadOnly, Room};
ghost use Rattle.xa_model.specs.Worked.Turns.{LostAppends, LostBoots, DecidedByOperator, OpenedAgain};
ghost use Rattle.xa_model.specs.Worked.Device.{EachRefused, EachLost, RestartRefused, OpeningRefused};
ghost use Rattle.xa_model.specs.Worked.Groups.{GroupKept, GroupRefused, GroupLost, GroupCut, CommitWithPrepare};
ghost use Rattle.xa_model.specs.Worked.Groups.{RefusedWhileDown, FatesOfGroup, WhatJoins, NoneJoinsBoot, GroupLeaves};
ghost use Rattle.xa_model.specs.Worked.Groups.{CompletionsRefused, GroupReopened, LostPromises, JudgedTogether, WhichJoin};
ghost use Rattle.xa_model.specs.Worked.Recovery.{Recovered, PreparedWithoutWrites, NextBoot, LostAndFound, LostAndGone};
ghost use Rattle.xa_model.specs.Worked.Recovery.{Heuristics, Scans, JustRoom, NoRoom, Refusals, PreparedAgain};
ghost use Rattle.xa_model.specs.Worked.Calls.{ComesAndGoes, Migration, OwnBeforeLoose, LooseEnds, BrokenConnection};
ghost use Rattle.xa_model.specs.Worked.Calls.{SuspendedAndBroken, NumbersAgain, Opening, Marks, FirstMark};
ghost use Rattle.xa_model.specs.Worked.Versions.{LateWrite, LateDelete, BlindWrite, BusyBelow, BusyInDoubt};
ghost use Rattle.xa_model.specs.Worked.Versions.{ReadBack, BusyUntilCommitted};
ghost use Rattle.xa_model.specs.Worked.Versions.{SharedBranch, NotBusyAbove, Deleted, DeletedAfterwards, ReadOver};
ghost use Rattle.xa_model.specs.Worked.Refusals.{EarlyRefused, CloseRefused, StartRefused, JoinRefused, ResumeRefused};
ghost use Rattle.xa_model.specs.Worked.Refusals.{FlagsRefused, SuspendRefused, EndRefused};
ghost use Rattle.xa_model.specs.Worked.Early.{NotConnected, NotOpened, IsDown, FlagsOfEach, CountsOfEach};
ghost use Rattle.xa_model.specs.Worked.Branches.{OnePhaseRefused, TwoPhaseRefused, RollbackRefused, PrepareRefused};
ghost use Rattle.xa_model.specs.Worked.Branches.{DoomRefused, RecordsRefused};
ghost use Rattle.xa_model.specs.Worked.TimeLimits.{TimedOut, AgeFromStart, MarkedByTime, LimitNeedsOpen, NoTimeDown};
ghost use Rattle.xa_model.specs.Worked.TimeLimits.{LimitLasts, MarkedAtMoment, NeverMarked, LimitOfSession, MomentLasts};
ghost use Rattle.xa_model.specs.Worked.KnownBranches.{TellsHolders, TellsInOrder, TellsLasting, ChangesNothing};
ghost use Rattle.xa_model.specs.Worked.Limits.{ManySessions, ManyBranches, MoreBranches, ManyTimestamps, ManyLoose, ManyKeys};
ghost use Rattle.xa_model.specs.Worked.Trims.{Trimmed, TrimLimits, TrimDevice, WorksOver, CountsOn};
ghost use Rattle.xa_model.specs.Worked.Trims.{PreparedOver};

/// Worked rows, computed on the definitions alone.
pub fn worked_rows()
    ensures read_back { ReadBack }
    ensures busy { BusyUntilCommitted }
    ensures flags { FlagsRefused }
{}

/// Worked rows of several sessions: how they work for branches together, and what a broken connection leaves.
pub fn worked_associations()
    ensures comes_and_goes { ComesAndGoes }
    ensures migration { Migration }
    ensures own_before_loose { OwnBeforeLoose }
    ensures loose_ends { LooseEnds }
    ensures broken_connection { BrokenConnection }
    ensures suspended_and_broken { SuspendedAndBroken }
    ensures numbers_again { NumbersAgain }
    ensures opening { Opening }
{}

/// Worked rows of branches that read and write the same key.
pub fn worked_versions()
    ensures late_write { LateWrite }
    ensures late_delete { LateDelete }
    ensures blind_write { BlindWrite }
    ensures busy_below { BusyBelow }
    ensures busy_in_doubt { BusyInDoubt }
    ensures shared_branch { SharedBranch }
    ensures not_busy_above { NotBusyAbove }
    ensures deleted { Deleted }
    ensures deleted_afterwards { DeletedAfterwards }
    ensures read_over { ReadOver }
{}

/// Worked rows of branches that are rollback-only.
pub fn worked_marks()
    ensures marks { Marks }
    ensures first_mark { FirstMark }
{}

/// Worked rows of each refusal: before the row of a call, in the association table, in the branch table, and of gets,
/// puts and deletes.
pub fn worked_refusals()
    ensures early { EarlyRefused }
    ensures down { IsDown }
    ensures not_connected { NotConnected }
    ensures not_opened { NotOpened }
    ensures flags { FlagsOfEach }
    ensures counts { CountsOfEach }
    ensures close { CloseRefused }
    ensures start { StartRefused }
    ensures join { JoinRefused }
    ensures resume { ResumeRefused }
    ensures suspend { SuspendRefused }
    ensures ends { EndRefused }
    ensures one_phase { OnePhaseRefused }
    ensures two_phase { TwoPhaseRefused }
    ensures rollback { RollbackRefused }
    ensures prepare { PrepareRefused }
    ensures doom { DoomRefused }
    ensures records { RecordsRefused }
{}

/// Worked rows at the limits of sessions, branches, timestamps, associations and keys.
pub fn worked_limits()
    ensures sessions { ManySessions }
    ensures branches { ManyBranches }
    ensures more { MoreBranches }
    ensures timestamps { ManyTimestamps }
    ensures loose { ManyLoose }
    ensures keys { ManyKeys }
{}

/// Worked rows of time limits: which branches a moment marks, when it is refused, and how long limits and moments last.
pub fn worked_time_limits()
    ensures timed_out { TimedOut }
    ensures age { AgeFromStart }
    ensures marked { MarkedByTime }
    ensures refused { LimitNeedsOpen }
    ensures down { NoTimeDown }
    ensures limit_lasts { LimitLasts }
    ensures at_moment { MarkedAtMoment }
    ensures never { NeverMarked }
    ensures limit { LimitOfSession }
    ensures moment_lasts { MomentLasts }
{}

/// Worked rows of the list of known branches: who holds their associations, their order, what lasts of them, and that
/// asking changes nothing.
pub fn worked_known_branches()
    ensures holders { TellsHolders }
    ensures in_order { TellsInOrder }
    ensures lasting { TellsLasting }
    ensures nothing { ChangesNothing }
{}

/// Worked rows of the log: what a restart writes of it, what is out of order, and what states would leave.
pub fn worked_logs()
    ensures held { HeldAndCommitted }
    ensures decided { DecidedAndForgotten }
    ensures rolled_back { RolledBack }
    ensures last_writes { LastWrites }
    ensures in_order { InOrder }
    ensures begun { BegunEarlier }
    ensures boots { BootsInOrder }
    ensures timestamps { TimestampsInOrder }
    ensures names { NamesInOrder }
    ensures snapshots { SnapshotsInOrder }
    ensures states { StatesLeave }
    ensures committed { CommittedLeaves }
{}

/// Worked rows of the calls that log, as turns: the record, and what each outcome of its append leads to; and restarts.
pub fn worked_turns()
    ensures prepared { PreparedAndCommitted }
    ensures rolled_back { RolledBackAgain }
    ensures marked { MarkedIsGone }
    ensures read_only { ReadOnly }
    ensures room { Room }
    ensures refused { EachRefused }
    ensures each_lost { EachLost }
    ensures lost { LostAppends }
    ensures restart { RestartRefused }
    ensures opening { OpeningRefused }
    ensures boots { LostBoots }
    ensures decided { DecidedByOperator }
    ensures opened { OpenedAgain }
{}

/// Worked rows of branches in doubt: what recovery lists, what restarts find of records that were lost, what the
/// operator decides, and when the log is full or the device refuses.
pub fn worked_recovery()
    ensures recovered { Recovered }
    ensures read_only { PreparedWithoutWrites }
    ensures boots { NextBoot }
    ensures found { LostAndFound }
    ensures gone { LostAndGone }
    ensures heuristics { Heuristics }
    ensures scans { Scans }
    ensures room { JustRoom }
    ensures full { NoRoom }
    ensures refused { Refusals }
    ensures again { PreparedAgain }
{}

/// Worked rows of groups, records that are appended together: kept, refused and lost ones, what restarts find of them,
/// which calls are lost with a group, what a crash leaves of it, and how its room is judged.
pub fn worked_groups()
    ensures kept { GroupKept }
    ensures refused { GroupRefused }
    ensures completions { CompletionsRefused }
    ensures lost { GroupLost }
    ensures cut { GroupCut }
    ensures commit { CommitWithPrepare }
    ensures down { RefusedWhileDown }
    ensures fates { FatesOfGroup }
    ensures joins { WhatJoins }
    ensures boot { NoneJoinsBoot }
    ensures leaves { GroupLeaves }
    ensures opening { GroupReopened }
    ensures promises { LostPromises }
    ensures room { JudgedTogether }
    ensures which { WhichJoin }
{}

/// Worked lists of committed branches: one that is one copy, and three that aren't, since a read missed a write before
/// it, or found one after it. And a get that is answered: what is recorded is what was answered.
pub fn worked_copies()
    ensures below { ReadsBelow }
    ensures misses { MissesDelete }
    ensures misses_own { MissesOwnDelete }
    ensures above { ReadsAbove }
    ensures records { RecordsRead }
{}

/// Worked rows of walks over ranges: which writes come late then, and which records are found.
pub fn worked_walks()
    ensures bounds { Bounds }
    ensures phantom { Phantom }
    ensures below_source { BelowSource }
    ensures outside { Outside }
    ensures put { PhantomPut }
    ensures finds { FindsRecords }
    ensures misses { MissesRecord }
    ensures deleted { FindsDeleted }
    ensures to_end { WalksToEnd }
    ensures below { WalksBelow }
    ensures portions { TwoPortions }
    ensures busy { StopsAtBusy }
{}

/// Worked rows of the low water: a branch that is prepared holds it, and one that is completed doesn't.
pub fn worked_low_water()
    ensures { WaterRises }
{}

/// Worked rows of a trim: what it writes and leaves, each refusal, what the device's answers lead to, and what goes on
/// during it.
pub fn worked_trims()
    ensures trimmed { Trimmed }
    ensures limits { TrimLimits }
    ensures device { TrimDevice }
    ensures works { WorksOver }
    ensures counts { CountsOn }
    ensures prepared { PreparedOver }
{}

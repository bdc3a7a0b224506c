ghost use Rattle.xa_model.specs.Laws.Total.{StepIsTotal, NothingIsStuck, NobodyAnswers, RestartsLook, OpeningsLook};
ghost use Rattle.xa_model.specs.Laws.{OneHistory, KeepsSound, KeepsSoundPrepared, KeepsSoundDecided};
ghost use Rattle.xa_model.specs.Laws.{KeepsSoundForgotten};
ghost use Rattle.xa_model.specs.Laws.Durable.{FoldReads, OneMore, FirstFault, FoldIsByKey, FoldIsDurable};
ghost use Rattle.xa_model.specs.Laws.Durable.{LastWritesStay, LeavesDurable, OneValue, SnapshotFolds, SnapshotIsShort};
ghost use Rattle.xa_model.specs.Laws.Durable.{SnapshotIsWritten, TakesOwnBoot, WritesOf};
ghost use Rattle.xa_model.specs.Laws.Logging.{KeepsSoundApplied, AppliedLasts, AppliedFits, EventsLogWhatLasts};
ghost use Rattle.xa_model.specs.Laws.Logging.{RestartLasts, ReopenLasts, TrimLasts};
ghost use Rattle.xa_model.specs.Laws.Backing.{KeepsRecoverable, AlwaysRecoverable, LoggedInOrder, KeepsBacked};
ghost use Rattle.xa_model.specs.Laws.Backing.{BacksFound, SettlesGroup};
ghost use Rattle.xa_model.specs.Laws.Backing.{RestartsRestored, ReopensRestored, OpensRestored, OpensFresh};
ghost use Rattle.xa_model.specs.Invariants.Room.{KeepsRoom, RestartKeepsRoom, TrimHasRoom};
ghost use Rattle.xa_model.specs.OneCopy.{AlwaysOneCopy, FreshOneCopy, OpenedOneCopy, WalksOneCopy};
ghost use Rattle.xa_model.specs.Walking.{WalkSees};
ghost use Rattle.xa_model.specs.ListedLaw.{ListedUntilAsked, ListedSinceBoot, FreshLists, OpenedLists, ReopenedLists};
ghost use Rattle.xa_model.specs.UnlistedLaw.{AlwaysUnlisted, UnlistedSinceBoot};
ghost use Rattle.xa_model.specs.Laws.Crash.{LostFits, LostFates, LeavesBefore, LeavesBehind, LeavesAppended};
ghost use Rattle.xa_model.specs.Laws.Crash.{LeavesNoMore, LeavesGroup, LeavesExactly, LeavesFound, FindsLeft};
ghost use Rattle.xa_model.specs.Laws.Crash.{LeavesOneMore};
ghost use Rattle.xa_model.specs.Laws.Crash.{FirstLeft, LastLeft, EarlierLeft, LaterLeft, LeftAmid};
ghost use Rattle.xa_model.specs.Laws.Crash.{CrashKeepsPrepared, CrashKeepsCompleted, CrashKeepsSinceBoot};
ghost use Rattle.xa_model.specs.Laws.Crash.{BootLists};
ghost use Rattle.xa_model.specs.Laws.Groups.{JoinsLast, JoinsEach, SupposedFirst, SupposedNext, FindsFirst};
ghost use Rattle.xa_model.specs.Laws.Groups.{GroupsShare, TurnsUp, TurnsAlone};
ghost use Rattle.xa_model.specs.Laws.Together.{AppendsTheSame, AtOnceLeavesOthers, LeavesOthers, RoomWhereKept, RoomWhereRefused};
ghost use Rattle.xa_model.specs.Laws.Together.{KeptTogether, LostTogether, RefusedAlone, RefusedTogether};
ghost use Rattle.xa_model.specs.Laws.Together.{BacksTogether, RefusedNoOther, StillTogether, TellsOfOne};
ghost use Rattle.xa_model.specs.Laws.Together.{QuietIsNow, QuietLeavesGroup};
ghost use Rattle.xa_model.specs.ScanLaw.{ListedAscends, ScanListsFirst, ScanListsAll, ScanIsAnswered};
ghost use Rattle.xa_model.specs.Laws.Restarts.{RestartLeads, RestartHappens};
ghost use Rattle.xa_model.specs.Laws.LowWater.{BelowKnown, IsReached, BelowNext, NeverFalls};
ghost use Rattle.xa_model.specs.Laws.LowWater.{WorksAbove, BeginsAbove, FloorNeverFalls};
ghost use Rattle.xa_model.specs.{Laws.Trim.TrimGoesOn, Laws.Trim.TrimLists, Laws.Time.MomentsRise, Laws.Time.OpensAtZero};

/// From a given start, given events and outcomes have at most one legal history.
pub fn one_history()
    ensures { OneHistory }
{}

/// Each event and each opening, in every state, is answered with each outcome that fits its turn, and
/// with no other; and some outcome fits, unless the manager's process ended, after which only an opening
/// is answered. A restart and an opening fit a look that finds the first of the records whose fates were
/// unknown, however many: always none, and no more than there are.
pub fn total()
    ensures step { StepIsTotal }
    ensures some { NothingIsStuck }
    ensures over { NobodyAnswers }
    ensures restart { RestartsLook }
    ensures opening { OpeningsLook }
{}

/// Every event that begins no boot leads from a sound state to a sound one, with every outcome of its device calls. For
/// restarts, trims and openings `recoverable` says more.
pub fn sound()
    ensures { KeepsSound }
{}

/// What lasts of branches keeps a state sound too: prepared ones, the
/// operator's decisions, and that these are forgotten.
pub fn sound_lasting()
    ensures prepared { KeepsSoundPrepared }
    ensures decided { KeepsSoundDecided }
    ensures forgotten { KeepsSoundForgotten }
{}

/// What the log's records come to, and the snapshot that a new file begins with: one more record, the first that is out
/// of order, the one form of what lasts, that a snapshot comes to the same and is no longer, and that a sound state
/// would leave that form.
pub fn lasting()
    ensures reads { FoldReads }
    ensures one_more { OneMore }
    ensures first_fault { FirstFault }
    ensures own_boot { TakesOwnBoot }
    ensures one_form { FoldIsDurable }
    ensures by_key { FoldIsByKey }
    ensures one_value { OneValue }
    ensures last_writes { LastWritesStay }
    ensures snapshot { SnapshotFolds }
    ensures short { SnapshotIsShort }
    ensures written { SnapshotIsWritten }
    ensures writes { WritesOf }
    ensures leaves { LeavesDurable }
{}

/// What is logged is what lasts: what a record does to a state that may log it keeps the state sound, and does to what
/// would last what it does to what the log's records come to; after records that come to what would last, it fits if
/// its timestamp is a new one. So each event, a restart, an opening and a trim leave what lasts.
pub fn logged_lasts()
    ensures sound { KeepsSoundApplied }
    ensures applied { AppliedLasts }
    ensures fits { AppliedFits }
    ensures events { EventsLogWhatLasts }
    ensures restart { RestartLasts }
    ensures reopen { ReopenLasts }
    ensures trim { TrimLasts }
{}

/// Every turn, with every outcome of its device calls, leads from a state that a restart may begin with to one.
pub fn recoverable()
    ensures step { KeepsRecoverable }
    ensures history { AlwaysRecoverable }
{}

/// The log's records back every state: what may be logged fits after them, and with each turn and each answer
/// of the device they keep up with the state; and with what a look finds of a lost group, which stands after them.
pub fn backed()
    ensures order { LoggedInOrder }
    ensures turn { KeepsBacked }
    ensures found { BacksFound }
    ensures group { SettlesGroup }
{}

/// Restarts and openings lead to what lasted, with a new boot and nothing else.
pub fn restored()
    ensures restart { RestartsRestored }
    ensures reopen { ReopensRestored }
    ensures open { OpensRestored }
    ensures fresh { OpensFresh }
{}

/// A log keeps the room to complete and forget what is prepared, and to forget what the operator completed, also
/// however many of the records whose fates are unknown are found there: every event but a restart keeps it, with every
/// outcome of its device calls, and so does all that happens if records back the state; and there no trim is
/// refused for lack of room.
pub fn roomy()
    ensures asked { KeepsRoom }
    ensures restart { RestartKeepsRoom }
    ensures trim { TrimHasRoom }
{}

/// One-copy serializability, in the order of timestamps: take the committed branches of any state that a history leads
/// to, and execute them alone, one after another from the least timestamp to the greatest, on a plain map from keys to
/// values that is empty at first. Then every get that they were answered finds the value, or the absence, that it was
/// answered. Every prefix of a history is one, so this holds at each of its places.
///
/// Restarts, openings and lost records are among what happens, and so are branches in doubt: a branch that
/// commits long after later ones have read, or after a restart, still takes the place of its timestamp.
/// Reads of branches that were rolled back count for nothing. The history begins with any state that a
/// restart may begin with, if no branch in it has read, such as a new manager, or one that was opened
/// on a log's records, of whose branches the log has only the writes.
pub fn one_copy()
    ensures always { AlwaysOneCopy }
    ensures fresh { FreshOneCopy }
    ensures opened { OpenedOneCopy }
    ensures walks { WalksOneCopy }
    ensures sees { WalkSees }
{}

/// A vote to commit is kept: after a prepare that was answered XA_OK, recovery lists its XID at every place
/// of the history, until somebody asks for its completion, by a commit, a rollback or a forget that is
/// answered XA_OK, or whose append was lost, so that it may have been done. A commit that the device refuses
/// (XA_RETRY), a lost append of any other record, crashes, restarts, openings and what the operator decides
/// leave it listed, and so does all that is done with other XIDs.
///
/// The history begins with any state that a restart may begin with, if no branch in it is marked with the code of
/// success; such are all that restarts and openings lead to: a new manager, one that was opened on a log's
/// records, and one that was opened again.
pub fn listed_until_asked()
    ensures always { ListedUntilAsked }
    ensures boot { ListedSinceBoot }
    ensures fresh { FreshLists }
    ensures opened { OpenedLists }
    ensures reopened { ReopenedLists }
{}

/// What was completed is gone: after a commit, a rollback or a forget that was answered XA_OK, recovery doesn't list
/// its XID at any place of the history, until a prepare of that XID is called again, whatever that is answered: if
/// its append was lost, a restart may find it. A crash, a restart or an opening doesn't bring a completed branch back,
/// nor does what the operator decides.
///
/// The history begins with any state that a restart may begin with; such are all that restarts and openings lead to.
pub fn unlisted_until_prepared()
    ensures always { AlwaysUnlisted }
    ensures boot { UnlistedSinceBoot }
{}

/// What a crash may leave at any moment of an event, of a restart or of an opening: what it may leave before it, what
/// it may after it, and what it may if the append is lost, which is what lasts with the record or without it; of a
/// group, with the first of its records, however many.
/// If nothing is appended, that is no more than before; once no record's fate is unknown, it is exactly what lasts.
/// It is what a look at the log may find: what lasts with the first of the records whose fates are unknown, and one
/// more record of a lost group is one more that may be found.
pub fn crash_at_any_moment()
    ensures fits { LostFits }
    ensures lost { LostFates }
    ensures before { LeavesBefore }
    ensures behind { LeavesBehind }
    ensures appended { LeavesAppended }
    ensures group { LeavesGroup }
    ensures no_more { LeavesNoMore }
    ensures exactly { LeavesExactly }
    ensures found { LeavesFound }
    ensures finds { FindsLeft }
    ensures one_more { LeavesOneMore }
{}

/// What a crash may leave at any moment of a history is left while one of its entries happens, and those that join it,
/// or of its first state.
pub fn crash_in_history()
    ensures first { FirstLeft }
    ensures last { LastLeft }
    ensures earlier { EarlierLeft }
    ensures later { LaterLeft }
    ensures amid { LeftAmid }
{}

/// A group that is lost: which calls are lost with it, how a manager that is down answers otherwise, what the group
/// would have come to, that a look may find the first of its records, as many as there are, and that each record that
/// joined became what the first of its group became. A manager that is up answers as it does alone.
pub fn lost_together()
    ensures lasts { JoinsLast }
    ensures each { JoinsEach }
    ensures first { SupposedFirst }
    ensures next { SupposedNext }
    ensures finds { FindsFirst }
    ensures share { GroupsShare }
    ensures up { TurnsUp }
    ensures alone { TurnsAlone }
{}

/// Calls on different XIDs that are asked together: what the record of one does leaves what another looks at, and so
/// does one that is answered at once; so each appends the same record after it, and if those before it are kept,
/// refused or lost, as long as there is room: that is there, if it is with the bytes of those before it and the
/// branches that they prepare, and without what they complete. So the entries of a group that is kept lead to what its
/// records do one after another, and those of one that is lost to a manager that is down, all of whose records are
/// open. If it is kept, the log's records are followed by the group's, otherwise they stay what they were. What logs
/// nothing, and touches neither the group's branches nor the sessions that ask for its calls, leaves it as it is.
pub fn asked_together()
    ensures leaves { LeavesOthers }
    ensures at_once { AtOnceLeavesOthers }
    ensures still { StillTogether }
    ensures quiet { QuietIsNow }
    ensures beside { QuietLeavesGroup }
    ensures same { AppendsTheSame }
    ensures kept { RoomWhereKept }
    ensures refused { RoomWhereRefused }
    ensures kept_group { KeptTogether }
    ensures lost_group { LostTogether }
    ensures backs { BacksTogether }
{}

/// A group that the device refuses: each call is answered as if it were refused alone, and leaves what it leaves then;
/// the log, and what lasts, stay as they were. No legal history has it otherwise. Like every group it reports one
/// device call.
pub fn refused_together()
    ensures alone { RefusedAlone }
    ensures group { RefusedTogether }
    ensures no_other { RefusedNoOther }
    ensures one { TellsOfOne }
{}

/// What a crash leaves at any moment of a run keeps the promises of the history before it. Recovery lists from it each
/// XID whose prepare was answered XA_OK, while its completion wasn't asked for before the run, nor called in it; and
/// none whose completion was answered XA_OK, while no prepare of it was called again. A manager that is opened on what
/// is left lists the same.
///
/// The history begins as that of `listed_until_asked` and of `unlisted_until_prepared`.
pub fn crash_keeps_promises()
    ensures prepared { CrashKeepsPrepared }
    ensures completed { CrashKeepsCompleted }
    ensures boot { CrashKeepsSinceBoot }
    ensures opened { BootLists }
{}

/// A scan lists what recovery lists, in the XIDs' order and each once. The calls of one scan, with nothing between
/// them, are answered the first of these XIDs, as many as they ask for; and if they are answered fewer than they ask
/// for, they are answered all. In an opened session of a manager that is up they are answered so, whatever they ask for
/// within a call's limit.
pub fn scan_lists_all()
    ensures ascends { ListedAscends }
    ensures first { ScanListsFirst }
    ensures whole { ScanListsAll }
    ensures answered { ScanIsAnswered }
{}

/// A restart that no session asked for is that of a session which is connected, or if none is, of one that connects,
/// asks for it, and is hung up: from a sound state that isn't ended, these entries lead to the state that the restart
/// leads to.
pub fn restart_leads()
    ensures leads { RestartLeads }
    ensures happens { RestartHappens }
{}

/// The low water, the least timestamp of a known branch, or, if there is none, the last that this boot gave: no known
/// branch stands below it, and none will, since whatever happens it never falls.
pub fn low_water()
    ensures known { BelowKnown }
    ensures reached { IsReached }
    ensures next { BelowNext }
    ensures never_falls { NeverFalls }
{}

/// The floor of work, the lesser of the boot's 0th timestamp and of the least at work: no branch works below it, none
/// will, and whatever happens it never falls.
pub fn work_floor()
    ensures works { WorksAbove }
    ensures begins { BeginsAbove }
    ensures never_falls { FloorNeverFalls }
{}

/// Moments don't go back, whatever is asked, and whatever the device did: a restart keeps the last one. Only a manager
/// that is opened again begins at moment 0.
pub fn moments()
    ensures rise { MomentsRise }
    ensures opening { OpensAtZero }
{}

/// A trim, whatever the device did in it: all that is at work goes on, and recovery lists the same. What is said of each
/// event holds of it too.
pub fn trim()
    ensures goes_on { TrimGoesOn }
    ensures lists { TrimLists }
{}

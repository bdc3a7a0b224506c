//! What can be said of every log, and of logs on disks in memory.
ghost use Rattle.std.specs.Prelude.{List, ℕ};
ghost use Rattle.xa_log.specs.{Believed.Group.NoChance, Believed.Group.PlainByBody};
ghost use Rattle.xa_log.specs.{Believed.Pair.CalmTears, Believed.Checkpoint.SealTears};
ghost use Rattle.xa_log.specs.Believed.Laws.{BehindLaw, PairLaw, AppendLaw, HeaderLaw, SealLaw};
ghost use Rattle.xa_log.specs.Believed.Laws.{OpenedLaw, StrayLaw, StaleLaw, MixedLaw, TailLaw};

use xa_disk::{Disk, MemDisk};

/// What failed writes of a `MemDisk` leave of an append to a read is without chance, whatever is appended together.
pub fn memory_without_chance()
    ensures { (group : List (List ℕ)) → NoChance (⟦<MemDisk as Disk>⟧.tears) group }
{}

/// What failed writes of a `MemDisk` leave of a checkpoint to a read is without chance.
pub fn memory_without_chance_beside()
    ensures header { CalmTears (⟦<MemDisk as Disk>⟧.tears) }
    ensures seal { SealTears (⟦<MemDisk as Disk>⟧.tears) }
{}

/// Of two files the current one's log is taken if the other one comes after it: also while records are
/// appended to it, and while a checkpoint's header and records are written to the other one.
pub fn pair_is_current()
    ensures behind { BehindLaw }
    ensures other { PairLaw }
    ensures appended { AppendLaw }
    ensures unsealed { HeaderLaw }
{}

/// From the seal of a checkpoint on, the current file's log is taken or the new one.
pub fn pair_is_current_or_new()
    ensures { SealLaw }
{}

/// Two files that were read are a pair, with the other one after it, if no file that is no log has records that would
/// come before the other one's.
pub fn opened_is_pair<D: Disk>()
    ensures { OpenedLaw D.Disk }
{}

/// A file that is no log can become one by a torn write of its first 12 bytes.
pub fn stray_is_possible()
    ensures { StrayLaw }
{}

/// Of bytes it is enough that what chains after the bodies has the new ones' bodies: their lengths and digests follow.
pub fn plain_by_body()
    ensures { PlainByBody }
{}

/// After a checkpoint no stale record comes back by a length alone.
pub fn no_stale_record()
    ensures { StaleLaw }
{}

/// An append that is torn between bytes leaves after a snapshot what stood there or what was written, so no damage; and
/// whatever it leaves of a group's records, the log doesn't stop short by them.
pub fn torn_append_is_whole()
    ensures snapshot { MixedLaw }
    ensures tail { TailLaw }
{}

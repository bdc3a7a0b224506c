//! What a file that reaches far beyond its log gives back.
ghost use Rattle.std.specs.Prelude.{◌≡◌, ◌+◌, ◌≤◌, ◌<◌, length};
ghost use Rattle.xa_disk.specs.{Disk.Cut, Time.TimePasses};
ghost use Rattle.xa_log.specs.Ahead.{cut_behind, IsCut, Shortens};

use crate::ahead::READY_BYTES;
use xa_disk::Disk;

/// Bytes that a checkpoint leaves to its file beyond what its log takes, and the log that it replaces. A file that is known to
/// reach further is cut after the last piece of these (`READY_BYTES`), if its disk does that.
pub const SPARE_BYTES: u64 = 1_048_576;

// Cuts a file that is known to reach up to `known`, far beyond the `keep` bytes that have to stay. Returns how far it is then
// known to reach.
pub(crate) fn shorten<D: Disk>(disk: &mut D, keep: u64, known: u64) -> u64
    ensures front { D.honest → Cut (cut_behind keep) (D.seen disk.old) (D.seen disk.new) }
    ensures time { D.honest → TimePasses D.Disk (Cut (cut_behind keep)) disk.old disk.new }
    ensures reaches { D.honest → known ≤ length (D.seen disk.old) → result ≤ length (D.seen disk.new) }
    ensures known { Shortens keep known result }
    ensures cut { D.honest → D.shortens → IsCut keep known (D.seen disk.new) }
    ensures count { D.failures disk.new ≡ D.failures disk.old }
    ensures calls { D.counts disk.new ≡ D.counts disk.old }
{
    if known.saturating_sub(keep) <= SPARE_BYTES {
        return known;
    }
    let to = keep + (READY_BYTES - keep % READY_BYTES);
    if disk.shorten(to) { to } else { known }
}

ghost use Rattle.std.specs.Prelude.{◌≡◌, ◌≤◌, ◌<◌, ◌+◌, List, ℕ, [], false, true, length, fold, max, OnOk, OnErr};
ghost use Rattle.std.specs.List.{AllByRecursion};
ghost use Rattle.xa_log.specs.Buffer.{HoldsEach};
ghost use Rattle.xa_log.specs.Believed.Chain.{IsBody, newest, text};
ghost use Rattle.xa_log.specs.{Believed.Pair.generation, Believed.Stands.EndsBehind};
ghost use Rattle.xa_limits.specs.declared.TheConstants.{LENGTH_BYTES};
ghost use Rattle.xa_manager.specs.{Believed.Opening.HasBodies, Believed.Opening.IsFound};
ghost use Rattle.xa_manager.specs.{Believed.Refused.LogsFirst, Reserving.HasReserved};

use std::alloc::AllocError;
use xa_disk::Disk;
use xa_log::{Appended, Log};
use xa_shared::SharedBytes;

/// Has the log's buffer hold each of these bodies, so that to log them takes no memory.
pub(crate) fn reserve_for<D: Disk>(
    log: &mut Log<D>,
    bodies: &[SharedBytes],
) -> Result<(), AllocError>
    requires { AllByRecursion (IsBody newest) bodies.now }
    ensures holds { OnOk result (HoldsEach log.new bodies.now) }
    ensures ok { OnOk result (HasReserved D.Disk log.old log.new) }
    ensures err { OnErr result (log.new ≡ log.old) }
{
    log.reserve(longest(bodies))
}

/// The length of the longest of these bodies, 0 of none.
fn longest(bodies: &[SharedBytes]) -> usize
    ensures { result ≡ fold (λ most body. max most (length body)) 0 bodies.now }
{
    bodies.iter().fold(0, |most, body| most.max(body.len()))
}

/// Logs a boot's first records: a log that was just made gets its first one, otherwise a new file begins with them.
pub(crate) fn log_first<D: Disk>(log: &mut Log<D>, is_new: bool, bodies: &[SharedBytes]) -> Appended
    requires some { 1 ≤ length bodies.now }
    requires modern { is_new ≡ true → log.old.format ≡ newest }
    requires sizes { AllByRecursion (IsBody newest) bodies.now }
    requires holds { HoldsEach log.old bodies.now }
    requires above { log.old.generation < generation bodies.now }
    requires first { is_new ≡ true → generation bodies.now ≤ 1 }
    ensures kept { D.honest → result ≡ Appended.Kept → (old : List (List ℕ)) → (is_new ≡ true → old ≡ [])
        → IsFound D.Disk is_new old log.old → HasBodies D.Disk bodies.now log.new }
    ensures ends { result ≡ Appended.Kept → (old : List (List ℕ)) → (is_new ≡ true → old ≡ [])
        → EndsBehind old log.old → EndsBehind bodies.now log.new }
    ensures number { result ≡ Appended.Kept → (old : List (List ℕ)) → (is_new ≡ true → old ≡ [])
        → EndsBehind old log.old → log.new.generation ≡ generation bodies.now }
    ensures full { result ≡ Appended.Full → (old : List (List ℕ)) → (is_new ≡ true → old ≡ [])
        → EndsBehind old log.old
        → log.old.log_bytes < length (text newest bodies.now) + LENGTH_BYTES }
    ensures logs { LogsFirst D.Disk is_new result bodies.now log.old log.new }
    ensures modern { result ≡ Appended.Kept → log.old.lost ≡ false → log.new.format ≡ newest }
    ensures settings { log.new.log_bytes ≡ log.old.log_bytes }
{
    if is_new && bodies.len() == 1 {
        log.append(bodies[0].as_slice())
    } else {
        log.checkpoint(bodies)
    }
}

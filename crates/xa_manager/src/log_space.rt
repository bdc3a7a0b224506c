ghost use Rattle.std.specs.Prelude.{◌≡◌, ◌+◌, ◌*◌, ◌^◌, length, Some, None, nat_lt, if◌then◌else◌};
ghost use Rattle.std.specs.List.{AllByRecursion};
ghost use Rattle.xa_log.specs.Believed.Chain.{IsBody, newest, text};
ghost use Rattle.xa_model.specs.Logging.{log_room};
ghost use Rattle.xa_limits.specs.declared.TheConstants.{DECIDED_ROOM, PREPARED_ROOM};

use xa_limits::{DECIDED_ROOM, LENGTH_BYTES, PREPARED_ROOM};
use xa_log::{Format, end_of};
use xa_shared::SharedBytes;

/// The room that a log keeps for this many prepared branches and completed XIDs. None if it is over 2^64 - 1 bytes.
fn kept_room(prepared: u64, completed: u64) -> Option<u64>
    ensures { result ≡ (if nat_lt (PREPARED_ROOM * prepared + DECIDED_ROOM * completed) (2 ^ 64)
        then Some (PREPARED_ROOM * prepared + DECIDED_ROOM * completed) else None) }
{
    let kept = prepared.checked_mul(PREPARED_ROOM)?;
    kept.checked_add(completed.checked_mul(DECIDED_ROOM)?)
}

/// Whether a log that ends at `end` keeps that room.
pub(crate) fn leaves_room(end: u64, prepared: u64, completed: u64, log_bytes: u64) -> bool
    ensures { result ≡ log_room log_bytes end prepared completed }
{
    match (
        end.checked_add(LENGTH_BYTES as u64),
        kept_room(prepared, completed),
    ) {
        (Some(end), Some(kept)) => match end.checked_add(kept) {
            Some(needed) => needed <= log_bytes,
            None => false,
        },
        _ => false,
    }
}

/// Whether a new log with these bodies keeps it.
pub(crate) fn begins_with_room(
    bodies: &[SharedBytes],
    prepared: u64,
    completed: u64,
    log_bytes: u64,
) -> bool
    requires sizes { AllByRecursion (IsBody newest) bodies.now }
    ensures { result ≡ log_room log_bytes (length (text newest bodies.now)) prepared completed }
{
    match end_of(Format::newest(), bodies, log_bytes) {
        Some(end) => leaves_room(end, prepared, completed, log_bytes),
        None => false,
    }
}

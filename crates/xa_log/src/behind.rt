//! What stands after a log's last record, as it is read.
ghost use Rattle.std.specs.Prelude.{◌≡◌, ◌+◌, ◌≤◌, length, drop, IfOk, MatchResult};
ghost use Rattle.xa_disk.specs.Disk.{Same, CountsFault};
ghost use Rattle.xa_disk.specs.{Time.TimePasses, declared.counts.Counts.Counts};
ghost use Rattle.xa_log.specs.Calls.{Fetched, FetchedSome};
ghost use Rattle.xa_log.specs.{Behind.IsBehind, Window.Caches};

use crate::window::{Span, WINDOW, fill};
use xa_disk::{Disk, DiskFault};
use xa_limits::LENGTH_BYTES;

// Fewer bytes than a length has, a length alone, or a length and more, of which the next byte would be a body's first.
#[derive(Clone, Copy, Debug)]
pub enum Behind {
    Cut,
    Length,
    First(u8),
}

// What stands after an offset up to which a window has the file. If the file goes on, the window then has the length
// there and one more byte, which the next record is read from, so no byte is read twice.
pub(crate) fn look_behind<D: Disk>(
    disk: &mut D,
    window: &mut [u8],
    span: Span,
    at: u64,
    len: u64,
) -> Result<(Span, Behind), DiskFault>
    requires room { length window.old ≡ WINDOW }
    requires within { at ≤ len }
    requires held { span.have ≤ WINDOW }
    requires begins { span.from ≤ at }
    requires reaches { at ≤ span.from + span.have }
    requires inside { span.from + span.have ≤ len }
    ensures behind { D.honest → len ≡ length (D.seen disk.old) → Caches (D.seen disk.old) window.old span
        → IfOk result (λ r. IsBehind (drop at (D.seen disk.old)) r.1) }
    ensures held { IfOk result (λ r. r.0.have ≤ WINDOW) }
    ensures begins { IfOk result (λ r. r.0.from ≤ at) }
    ensures reaches { IfOk result (λ r. at ≤ r.0.from + r.0.have) }
    ensures inside { IfOk result (λ r. r.0.from + r.0.have ≤ len) }
    ensures caches { D.honest → Caches (D.seen disk.old) window.old span
        → IfOk result (λ r. Caches (D.seen disk.old) window.new r.0) }
    ensures same { D.honest → D.seen disk.new ≡ D.seen disk.old }
    ensures time { D.honest → TimePasses D.Disk Same disk.old disk.new }
    ensures count { CountsFault result (D.failures disk.old) (D.failures disk.new) }
    ensures fetched { (start : Counts) → Fetched len (span.from + span.have) start (D.counts disk.old)
        → MatchResult result (λ r. Fetched len (r.0.from + r.0.have) start (D.counts disk.new))
        (λ _. FetchedSome len start (D.counts disk.new)) }
{
    let left = len - at;
    if left < LENGTH_BYTES as u64 {
        return Ok((span, Behind::Cut));
    }
    if left == LENGTH_BYTES as u64 {
        return Ok((span, Behind::Length));
    }
    let span = fill(disk, window, span, at, LENGTH_BYTES + 1, len)?;
    let first = (at - span.from) as usize + LENGTH_BYTES;
    Ok((span, Behind::First(window[first])))
}

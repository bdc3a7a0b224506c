//! A log whose server runs is copied to two files.
ghost use Rattle.std.specs.Prelude.{◌≡◌, ◌≤◌, ◌<◌, ◌^◌, ◌++◌, [], List, ℕ, IfOk, IsSome, OnOk, length};
ghost use Rattle.xa_disk.specs.Disk.{Only};
ghost use Rattle.xa_log.specs.Believed.Chain.{closing, text};
ghost use Rattle.xa_copy.specs.Copies.{CopiesFrom, CopiesTo};
ghost use Rattle.xa_copy.specs.Gathers.{Gathers, end_of};
ghost use Rattle.xa_copy.specs.Heads.{Heads, IsHead};
ghost use Rattle.xa_copy.specs.Moving.{Goes, State, Tells};
ghost use Rattle.xa_copy.specs.Progress.{IsWithin};

use crate::CopyFault;
use crate::copied::Copied;
use crate::copying::Copying;
use crate::gather::Gather;
use crate::head::{Head, head_of, is_first};
use crate::source::Source;
use std::alloc::Global;
use xa_disk::Disk;
use xa_limits::LENGTH_BYTES;

/// How often a log is copied that is begun anew each time, or looks damaged.
pub const TRIES: u32 = 8;

/// Copies the current one of a log's two files, of at most `log_bytes`, to a file that is empty, and its first record to
/// another one, while a server may append to it: so that both are that log, as it was at a moment of the call. Memory is
/// taken for its longest record, and for some more bytes.
///
/// If the log was begun anew meanwhile, by a second checkpoint, or looks damaged, the copy is emptied and begun again, `TRIES`
/// times at most. What is in the files of the copy after a fault is no log to be relied on.
pub fn copy_log<S: Source, D: Disk>(
    alloc: Global,
    first: &mut S,
    second: &mut S,
    to: &mut D,
    to_second: &mut D,
    log_bytes: u64,
) -> Result<Copied, CopyFault>
    ensures copies { S.honest → D.honest
        → IfOk result (CopiesFrom S.state D.seen log_bytes (first.old, second.old) (first.new, second.new)
        (to.new, to_second.new)) }
    ensures durable { D.honest → OnOk result (Only (D.seen to.new) (D.may_leave to.new)) }
    ensures durable_second { D.honest → OnOk result (Only (D.seen to_second.new) (D.may_leave to_second.new)) }
{
    let mut last = CopyFault::Moved;
    'tries: for _ in 0..TRIES {
        match copy_once(alloc, first, second, to, to_second, log_bytes) {
            Ok(copied) => return Ok(copied),
            Err(fault) => {
                if !may_pass(fault) {
                    return Err(fault);
                }
                last = fault;
                to.shorten(0);
                to_second.shorten(0);
            }
        }
    }
    Err(last)
}

// Whether it may be otherwise the next time: the log was begun anew meanwhile, or a record looked damaged, as one does that is
// just being written where a system lets a read see the half of a write.
fn may_pass(fault: CopyFault) -> bool {
    matches!(fault, CopyFault::Moved | CopyFault::Damaged { .. })
}

// Copies it, unless it is begun anew meanwhile.
fn copy_once<S: Source, D: Disk>(
    alloc: Global,
    first: &mut S,
    second: &mut S,
    to: &mut D,
    to_second: &mut D,
    log_bytes: u64,
) -> Result<Copied, CopyFault>
    ensures copies { S.honest → D.honest
        → IfOk result (CopiesFrom S.state D.seen log_bytes (first.old, second.old) (first.new, second.new)
        (to.new, to_second.new)) }
    ensures durable { D.honest → OnOk result (Only (D.seen to.new) (D.may_leave to.new)) }
    ensures durable_second { D.honest → OnOk result (Only (D.seen to_second.new) (D.may_leave to_second.new)) }
    ensures goes { S.honest → Goes (S.state first.old) (S.state first.new) }
    ensures goes_second { S.honest → Goes (S.state second.old) (S.state second.new) }
{
    let head = head_of(alloc, first)?;
    let other = head_of(alloc, second)?;
    if is_first(&head, &other) {
        let copied = copy_file(alloc, first, head, true, to, to_second, log_bytes)?;
        return Ok(copied);
    }
    let copied = copy_file(alloc, second, other, false, to, to_second, log_bytes)?;
    Ok(copied)
}

// Copies a file that begins so.
fn copy_file<S: Source, D: Disk>(
    alloc: Global,
    source: &mut S,
    head: Option<Head>,
    on_first: bool,
    to: &mut D,
    to_second: &mut D,
    log_bytes: u64,
) -> Result<Copied, CopyFault>
    ensures copies { S.honest → D.honest → Tells (S.state source.old) → IsHead (S.state source.old).file head
        → IfOk result (CopiesTo log_bytes (S.state source.old) (S.state source.new) (D.seen to.new) (D.seen to_second.new)) }
    ensures on_first { IfOk result (λ copied. copied.on_first ≡ on_first) }
    ensures some { OnOk result (IsSome head) }
    ensures durable { D.honest → OnOk result (Only (D.seen to.new) (D.may_leave to.new)) }
    ensures durable_second { D.honest → OnOk result (Only (D.seen to_second.new) (D.may_leave to_second.new)) }
    ensures goes { S.honest → Goes (S.state source.old) (S.state source.new) }
{
    let Some(head) = head else {
        return Err(CopyFault::NotALog);
    };
    ensure_empty(to)?;
    ensure_empty(to_second)?;
    let mut copying = Copying::new(alloc, head.format, log_bytes)?;
    let copied = copying.copy_records(source, to, log_bytes);
    ensure_same(alloc, source, &head)?;
    copied?;
    let copied = Copied {
        records: copying.records,
        end: copying.end(),
        generation: head.generation,
        on_first,
        format: copying.format,
        digest: copying.digest,
        is_snapshot: copying.is_snapshot,
    };
    close(to, copying.gather)?;
    close(to_second, Gather::new(alloc, &head.front)?)?;
    Ok(copied)
}

// Whether nothing stands in a file.
fn ensure_empty<D: Disk>(disk: &mut D) -> Result<(), CopyFault>
    ensures empty { D.honest → OnOk result (D.seen disk.new ≡ []) }
{
    if disk.length()? > 0 {
        return Err(CopyFault::NotEmpty);
    }
    Ok(())
}

// Whether a log still has its generation, so that it wasn't begun anew since it was read.
pub(crate) fn ensure_same<S: Source>(
    alloc: Global,
    source: &mut S,
    head: &Head,
) -> Result<(), CopyFault>
    ensures same { S.honest → (begin : State) → Tells begin → Heads begin.file head.now
        → OnOk result ((S.state source.new).life ≡ begin.life) }
    ensures tells { S.honest → OnOk result (Tells (S.state source.new)) }
    ensures goes { S.honest → Goes (S.state source.old) (S.state source.new) }
{
    match head_of(alloc, source)? {
        Some(now) if now.generation == head.generation => Ok(()),
        _ => Err(CopyFault::Moved),
    }
}

// Writes what is gathered and a closing length to a file, and makes it last.
fn close<D: Disk>(to: &mut D, gather: Gather) -> Result<(), CopyFault>
    requires room { gather.pending ≤ length gather.buffer.items }
    requires small { end_of gather < 2 ^ 64 }
    ensures closed { D.honest → (text : List ℕ) → Gathers text (D.seen to.old) gather
        → OnOk result (D.seen to.new ≡ text ++ closing) }
    ensures durable { D.honest → OnOk result (Only (D.seen to.new) (D.may_leave to.new)) }
{
    let mut gather = gather;
    gather.flush(to)?;
    to.write_at(gather.written, [0; LENGTH_BYTES].as_slice())?;
    to.sync()?;
    Ok(())
}

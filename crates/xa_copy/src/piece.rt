//! What a source has after a log that was copied, read in pieces.
ghost use Rattle.std.specs.Prelude.{◌≡◌, ◌+◌, ◌≤◌, ◌<◌, ◌^◌, ◌++◌, List, [], ℕ, true, false, IfOk, IfSome, OnOk};
ghost use Rattle.std.specs.Prelude.{length, take, drop, slice_index};
ghost use Rattle.xa_limits.specs.declared.TheConstants.{LENGTH_BYTES};
ghost use Rattle.xa_log.specs.Believed.Chain.{IsBody};
ghost use Rattle.xa_log.specs.Believed.Damage.{is_appended};
ghost use Rattle.xa_copy.specs.Follows.{AreTaken, IsNext, IsPiece, IsResumed, taken};
ghost use Rattle.xa_copy.specs.Gathers.{end_of};
ghost use Rattle.xa_copy.specs.Marks.{Marks};
ghost use Rattle.xa_copy.specs.Moving.{Goes, OnlyAppended, State};
ghost use Rattle.xa_copy.specs.Progress.{Follows, Has, IsWithin};

use crate::CopyFault;
use crate::copied::Copied;
use crate::copying::Copying;
use crate::gather::Gather;
use crate::record::is_appended;
use crate::source::Source;
use std::alloc::Global;
use xa_limits::{AROUND_BODY, LENGTH_BYTES};
use xa_log::MOST_GROUP;

/// A body that was read, and how far the log was read with it.
#[derive(Debug, Drop)]
pub struct Next {
    pub body: Vec<u8>,
    pub at: Copied,
}

/// Bodies that were read after a log that was copied, and how far it was read with them.
#[derive(Debug, Drop)]
pub struct Piece {
    pub bodies: Vec<Vec<u8>>,
    pub at: Copied,
    /// Whether a closing length stands after them.
    pub is_last: bool,
}

// The log as far as it was copied, of at most `log_bytes`, with an empty buffer.
fn resume(alloc: Global, at: &Copied, log_bytes: u64) -> Result<Copying, CopyFault>
    ensures within { IfOk result (IsWithin log_bytes) }
    ensures same { IfOk result (IsResumed at.now) }
{
    if log_bytes < LENGTH_BYTES as u64 || at.end > log_bytes - LENGTH_BYTES as u64 {
        return Err(CopyFault::TooLong);
    }
    // Each record has more than one byte.
    if at.records > at.end {
        return Err(CopyFault::TooLong);
    }
    Ok(Copying {
        format: at.format,
        digest: at.digest,
        records: at.records,
        is_snapshot: at.is_snapshot,
        gather: Gather {
            buffer: Vec::new(alloc),
            pending: 0,
            written: at.end,
        },
    })
}

// Reads the record that a source has after those that were copied, in a log of at most `log_bytes`; none, if it has none.
pub(crate) fn read_next<S: Source>(
    alloc: Global,
    source: &mut S,
    at: &Copied,
    log_bytes: u64,
) -> Result<Option<Next>, CopyFault>
    ensures next { (begin : State) (bodies : List (List ℕ)) → Marks bodies at.now
        → (S.honest → Follows at.now.format bodies begin (S.state source.old))
        → IfOk result (IsNext S.honest begin (S.state source.new) bodies at.now) }
    ensures body { IfOk result (λ next. IfSome next (λ n. IsBody at.now.format n.body.items)) }
    ensures format { IfOk result (λ next. IfSome next (λ n. n.at.format ≡ at.now.format)) }
    ensures on_first { IfOk result (λ next. IfSome next (λ n. n.at.on_first ≡ at.now.on_first)) }
    ensures goes { S.honest → Goes (S.state source.old) (S.state source.new) }
{
    let mut copying = resume(alloc, at, log_bytes)?;
    let Some(size) = copying.next_size(source, log_bytes)? else {
        return Ok(None);
    };
    let damaged = copying.damaged();
    copying.gather.buffer.resize(AROUND_BODY + size, 0)?;
    if !copying.take_record(source, at.end, size)? {
        return Err(damaged);
    }
    let body = body_of(alloc, &copying.gather.buffer, size)?;
    Ok(Some(Next {
        body,
        at: mark_of(&copying, at),
    }))
}

// The body of a record with a body of this size.
fn body_of(alloc: Global, bytes: &[u8], size: usize) -> Result<Vec<u8>, CopyFault>
    requires { LENGTH_BYTES + size ≤ length bytes.now }
    ensures { IfOk result (λ body. body.items ≡ take size (drop LENGTH_BYTES bytes.now)) }
{
    let body = Vec::from_slice(alloc, &bytes[LENGTH_BYTES..LENGTH_BYTES + size])?;
    Ok(body)
}

// How far a log was read, of which so much was copied before.
fn mark_of(copying: &Copying, at: &Copied) -> Copied
    requires { end_of copying.now.gather < 2 ^ 64 }
    ensures marks { (bodies : List (List ℕ)) → Has bodies copying.now → Marks bodies result }
    ensures format { result.format ≡ copying.now.format }
    ensures on_first { result.on_first ≡ at.now.on_first }
{
    Copied {
        records: copying.records,
        end: copying.end(),
        generation: at.generation,
        on_first: at.on_first,
        format: copying.format,
        digest: copying.digest,
        is_snapshot: copying.is_snapshot,
    }
}

impl Piece {
    // As many records as a group may have, of those that a source has after those that were copied: in a log of at most
    // `log_bytes`.
    pub(crate) fn read<S: Source>(
        alloc: Global,
        source: &mut S,
        at: &Copied,
        log_bytes: u64,
    ) -> Result<Piece, CopyFault>
        ensures piece { (begin : State) (bodies : List (List ℕ)) → Marks bodies at.now
            → (S.honest → Follows at.now.format bodies begin (S.state source.old))
            → IfOk result (IsPiece S.honest begin (S.state source.new) bodies) }
        ensures whole { S.honest → (begin : State) (bodies : List (List ℕ)) → Marks bodies at.now
            → Follows at.now.format bodies begin (S.state source.old)
            → IfOk result (λ piece. (S.state source.new).life ≡ begin.life
            → OnlyAppended piece.at.format (bodies ++ taken piece) (S.state source.new).file) }
        ensures taken { IfOk result (λ piece. AreTaken piece.at.format (taken piece)) }
        ensures format { IfOk result (λ piece. piece.at.format ≡ at.now.format) }
        ensures on_first { IfOk result (λ piece. piece.at.on_first ≡ at.now.on_first) }
        ensures goes { S.honest → Goes (S.state source.old) (S.state source.new) }
    {
        let mut piece = Piece {
            bodies: Vec::new(alloc),
            at: *at,
            is_last: false,
        };
        'records: for _ in 0..u64::MAX {
            if !piece.read_more(alloc, source, at.end, log_bytes)? {
                return Ok(piece);
            }
        }
        Err(CopyFault::Moved)
    }

    // Reads one record more, if there is one, and if the piece stays as short as a group may be; its records begin at an offset.
    // Returns whether there may be another one.
    fn read_more<S: Source>(
        &mut self,
        alloc: Global,
        source: &mut S,
        from: u64,
        log_bytes: u64,
    ) -> Result<bool, CopyFault>
        requires { self.old.is_last ≡ false }
        ensures piece { (begin : State) (bodies : List (List ℕ)) → IsPiece S.honest begin (S.state source.old) bodies self.old
            → OnOk result (IsPiece S.honest begin (S.state source.new) bodies self.new) }
        ensures whole { S.honest → (begin : State) (bodies : List (List ℕ)) → IsPiece S.honest begin (S.state source.old) bodies self.old
            → IfOk result (λ more. more ≡ false → (S.state source.new).life ≡ begin.life
            → OnlyAppended self.new.at.format (bodies ++ taken self.new) (S.state source.new).file) }
        ensures taken { AreTaken self.old.at.format (taken self.old) → OnOk result (AreTaken self.new.at.format (taken self.new)) }
        ensures more { IfOk result (λ more. more ≡ true → self.new.is_last ≡ false) }
        ensures format { self.new.at.format ≡ self.old.at.format }
        ensures on_first { self.new.at.on_first ≡ self.old.at.on_first }
        ensures goes { S.honest → Goes (S.state source.old) (S.state source.new) }
    {
        let Some(next) = read_next(alloc, source, &self.at, log_bytes)? else {
            self.is_last = true;
            return Ok(false);
        };
        if !begins_appended(&next.body) {
            return Err(CopyFault::Damaged {
                number: next.at.records,
                at: self.at.end,
            });
        }
        if !self.bodies.is_empty() && next.at.end.saturating_sub(from) > MOST_READ {
            return Ok(false);
        }
        let Next { body, at } = next;
        self.bodies.push(body)?;
        self.at = at;
        Ok(true)
    }
}

// The most bytes of the records of a piece that has several: with a closing length as long as a group may be.
const MOST_READ: u64 = (MOST_GROUP - LENGTH_BYTES) as u64;

// Whether a body begins as one does that was appended.
pub(crate) fn begins_appended(body: &[u8]) -> bool
    requires { 1 ≤ length body.now }
    ensures { result ≡ is_appended (slice_index body.now 0) }
{
    is_appended(body[0])
}

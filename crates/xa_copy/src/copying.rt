//! One record after another is copied, up to the closing length.
ghost use Rattle.std.specs.Prelude.{◌≡◌, ◌||◌, ◌&&◌, ◌==◌, not, false, min, ◌+◌, ◌≤◌, ◌<◌, ◌^◌, List, [], ℕ, true};
ghost use Rattle.std.specs.Prelude.{IfErr, IfOk, IfSome, OnOk, None, length, drop, take};
ghost use Rattle.xa_log.specs.Believed.Chain.{closing, magic, most_body, text};
ghost use Rattle.xa_limits.specs.declared.TheConstants.{AROUND_CLOSED};
ghost use Rattle.xa_log.specs.declared.format.TheConstants.{PREAMBLE_BYTES};
ghost use Rattle.xa_copy.specs.Gathers.{Gathers, end_of};
ghost use Rattle.xa_copy.specs.Moving.{Goes, State, Tells};
ghost use Rattle.xa_copy.specs.Progress.{Closes, Ends, Follows, GoesOn, Has, IsWithin, Stands, Steps, Takes};
ghost use Rattle.xa_log.specs.Believed.Damage.{is_appended};
ghost use Rattle.std.specs.Str.{bytes_eq};

use crate::CopyFault;
use crate::gather::{Gather, read_part};
use crate::named::{first_digest, name_of};
use crate::record::{chained, is_appended, size_of};
use crate::source::Source;
use std::alloc::Global;
use xa_disk::Disk;
use xa_limits::{AROUND_BODY, AROUND_CLOSED, DIGEST_BYTES, LENGTH_BYTES};
use xa_log::{Format, PREAMBLE_BYTES};

/// A log that is being copied, up to some record: its format, that record's digest, how many there are, and their bytes.
#[derive(Debug, Drop)]
pub struct Copying {
    pub format: Format,
    pub digest: [u8; DIGEST_BYTES],
    pub records: u64,
    /// Whether none of them was appended: a checkpoint's alone.
    pub is_snapshot: bool,
    pub gather: Gather,
}

impl Copying {
    // No record yet, of a log of at most `log_bytes`.
    pub(crate) fn new(alloc: Global, format: Format, log_bytes: u64) -> Result<Copying, CopyFault>
        ensures has { IfOk result (Has []) }
        ensures gathers { IfOk result (λ copying. Gathers (text format []) [] copying.gather) }
        ensures within { IfOk result (IsWithin log_bytes) }
        ensures format { IfOk result (λ copying. copying.format ≡ format) }
    {
        if log_bytes < PREAMBLE_BYTES as u64 {
            return Err(CopyFault::TooLong);
        }
        let gather = Gather::new(alloc, name_of(format).as_slice())?;
        Ok(Copying {
            format,
            digest: first_digest(format),
            records: 0,
            is_snapshot: true,
            gather,
        })
    }

    // Where the next record begins.
    pub(crate) fn end(&self) -> u64
        requires { end_of self.now.gather < 2 ^ 64 }
        ensures { result ≡ end_of self.now.gather }
    {
        self.gather.written + self.gather.pending as u64
    }

    // What stands where the next record should begin isn't as it was written.
    pub(crate) fn damaged(&self) -> CopyFault
        requires room { end_of self.now.gather < 2 ^ 64 }
        requires counted { self.now.records ≤ end_of self.now.gather }
    {
        CopyFault::Damaged {
            number: self.records.saturating_add(1),
            at: self.end(),
        }
    }

    // Copies all records of a log of at most `log_bytes`, up to the closing length.
    pub(crate) fn copy_records<S: Source, D: Disk>(
        &mut self,
        source: &mut S,
        to: &mut D,
        log_bytes: u64,
    ) -> Result<(), CopyFault>
        requires { IsWithin log_bytes self.old }
        ensures within { OnOk result (IsWithin log_bytes self.new) }
        ensures ends { (begin : State) (bodies : List (List ℕ))
            → Stands S.honest D.honest begin (S.state source.old) (D.seen to.old) bodies self.old
            → OnOk result (Ends S.honest D.honest begin (S.state source.new) (D.seen to.new) self.new) }
        ensures goes { S.honest → Goes (S.state source.old) (S.state source.new) }
        ensures format { self.new.format ≡ self.old.format }
    {
        'records: while self.copy_record(source, to, log_bytes)? {}
        Ok(())
    }

    // Copies the next record of a log of at most `log_bytes`, and returns whether there is one.
    fn copy_record<S: Source, D: Disk>(
        &mut self,
        source: &mut S,
        to: &mut D,
        log_bytes: u64,
    ) -> Result<bool, CopyFault>
        requires { IsWithin log_bytes self.old }
        ensures within { OnOk result (IsWithin log_bytes self.new) }
        ensures longer { IfOk result (λ more. more ≡ true → end_of self.old.gather < end_of self.new.gather) }
        ensures steps { (begin : State) (bodies : List (List ℕ))
            → Stands S.honest D.honest begin (S.state source.old) (D.seen to.old) bodies self.old
            → IfOk result (Steps S.honest D.honest begin (S.state source.new) (D.seen to.new) bodies self.new) }
        ensures goes { S.honest → Goes (S.state source.old) (S.state source.new) }
        ensures format { self.new.format ≡ self.old.format }
    {
        let Some(size) = self.next_size(source, log_bytes)? else {
            return Ok(false);
        };
        let at = self.end();
        let damaged = self.damaged();
        self.gather.make_room(to, AROUND_BODY + size)?;
        if !self.take_record(source, at, size)? {
            return Err(damaged);
        }
        Ok(true)
    }

    // The size of the next record's body, in a log of at most `log_bytes`; none, if a closing length stands there.
    pub(crate) fn next_size<S: Source>(
        &self,
        source: &mut S,
        log_bytes: u64,
    ) -> Result<Option<usize>, CopyFault>
        requires { IsWithin log_bytes self.now }
        ensures some { IfOk result (λ found. IfSome found (λ size. 1 ≤ size)) }
        ensures small { IfOk result (λ found. IfSome found (λ size. size ≤ most_body self.now.format)) }
        ensures fits { IfOk result (λ found. IfSome found (λ size. end_of self.now.gather + (AROUND_CLOSED + size) ≤ log_bytes)) }
        ensures none { S.honest → (begin : State) (bodies : List (List ℕ)) → Has bodies self.now
            → Follows self.now.format bodies begin (S.state source.old)
            → IfOk result (λ found. found ≡ None → (S.state source.new).life ≡ begin.life
            → Closes self.now.format bodies (S.state source.new).file) }
        ensures goes { S.honest → Goes (S.state source.old) (S.state source.new) }
    {
        let at = self.end();
        let damaged = self.damaged();
        let mut front = [0; LENGTH_BYTES + 1];
        let have = source.read_at(at, &mut front)?;
        if have < LENGTH_BYTES {
            return Err(damaged);
        }
        if is_closing(&front) {
            if self.is_cut(&front, have) {
                return Err(damaged);
            }
            return Ok(None);
        }
        let size = size_of(&front);
        if size > self.format.most_body() {
            return Err(damaged);
        }
        if log_bytes - at < (AROUND_CLOSED + size) as u64 {
            return Err(CopyFault::TooLong);
        }
        Ok(Some(size))
    }

    // Whether what stands after the records can't stand there: a closing length that has taken a record's place. As many bytes
    // of it were read as there are, and of a length and one byte more.
    fn is_cut(&self, front: &[u8], have: usize) -> bool
        requires { length front.now ≡ LENGTH_BYTES + 1 }
        ensures { (tail : List ℕ) → have ≡ min (LENGTH_BYTES + 1) (length tail) → LENGTH_BYTES ≤ have
            → take have front.now ≡ take have tail → result ≡ false → GoesOn self.now tail }
    {
        if have <= LENGTH_BYTES {
            return false;
        }
        if !self.is_snapshot {
            return false;
        }
        match self.format {
            Format::One => false,
            Format::Two => !may_follow(front[LENGTH_BYTES]),
        }
    }

    // Takes the record that stands at an offset, with a body of this size, and returns whether it chains.
    pub(crate) fn take_record<S: Source>(
        &mut self,
        source: &mut S,
        at: u64,
        size: usize,
    ) -> Result<bool, CopyFault>
        requires some { 1 ≤ size }
        requires small { size ≤ most_body self.old.format }
        requires room { self.old.gather.pending + (AROUND_BODY + size) ≤ length self.old.gather.buffer.items }
        requires counted { self.old.records + 1 < 2 ^ 64 }
        ensures takes { IfOk result (λ yes. yes ≡ true → Takes S.honest at (S.state source.new) self.old self.new) }
        ensures same { IfOk result (λ yes. yes ≡ true → self.new.gather.pending ≡ self.old.gather.pending + (AROUND_BODY + size)) }
        ensures long { length self.new.gather.buffer.items ≡ length self.old.gather.buffer.items }
        ensures goes { S.honest → Goes (S.state source.old) (S.state source.new) }
        ensures format { self.new.format ≡ self.old.format }
        ensures kinds { IfErr result (λ fault. fault ≡ CopyFault.Read) }
    {
        let begin = self.gather.pending;
        let count = AROUND_BODY + size;
        if !read_part(source, at, &mut self.gather.buffer, begin, count)? {
            return Ok(false);
        }
        match chained(
            &self.gather.buffer[begin..begin + count],
            size,
            &self.digest,
        ) {
            Some(digest) => {
                self.digest = digest;
                self.records += 1;
                let kind = self.gather.buffer[begin + LENGTH_BYTES];
                self.is_snapshot = still_snapshot(self.is_snapshot, kind);
                self.gather.pending = begin + count;
                Ok(true)
            }
            None => Ok(false),
        }
    }
}

// Whether these bytes begin with a closing length.
fn is_closing(front: &[u8]) -> bool
    requires { LENGTH_BYTES ≤ length front.now }
    ensures { result ≡ bytes_eq (take LENGTH_BYTES front.now) closing }
{
    &front[..LENGTH_BYTES] == [0; LENGTH_BYTES].as_slice()
}

// Whether this byte may stand after a snapshot and a closing length.
fn may_follow(byte: u8) -> bool
    ensures { result ≡ ((byte == 0) || is_appended byte) }
{
    byte == 0 || is_appended(byte)
}

// Whether records are still a checkpoint's alone, with one more whose body begins so.
fn still_snapshot(is_snapshot: bool, kind: u8) -> bool
    ensures { result ≡ (is_snapshot && not (is_appended kind)) }
{
    is_snapshot && !is_appended(kind)
}

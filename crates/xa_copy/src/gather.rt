//! What was read of a log, gathered up to where it is written, so that a write has many records.
ghost use Rattle.std.specs.Prelude.{◌≡◌, ◌⊎◌, ◌+◌, ◌≤◌, ◌<◌, ◌^◌, true, List, [], ℕ, IfErr, IfOk, OnOk, length, take};
ghost use Rattle.std.specs.Prelude.{drop};
ghost use Rattle.xa_copy.specs.Gathers.{Gathers, end_of};
ghost use Rattle.xa_copy.specs.Moving.{Goes, Tells};

use crate::CopyFault;
use crate::source::Source;
use std::alloc::Global;
use xa_disk::Disk;

/// The bytes that are gathered for a write, unless a record is longer.
pub const GATHERED: usize = 1_048_576;

/// Bytes that are still to be written, at the front of a buffer, and how many were written before them.
#[derive(Debug, Drop)]
pub struct Gather {
    pub buffer: Vec<u8>,
    pub pending: usize,
    pub written: u64,
}

// A buffer of zeros.
pub(crate) fn new_buffer(alloc: Global, len: usize) -> Result<Vec<u8>, CopyFault>
    ensures long { IfOk result (λ buffer. length buffer.items ≡ len) }
    ensures kinds { IfErr result (λ fault. fault ≡ CopyFault.Memory) }
{
    let mut buffer = Vec::new(alloc);
    buffer.resize(len, 0)?;
    Ok(buffer)
}

// Reads this many bytes into a part of a buffer, and returns whether there are this many.
pub(crate) fn read_part<S: Source>(
    source: &mut S,
    at: u64,
    buffer: &mut [u8],
    begin: usize,
    count: usize,
) -> Result<bool, CopyFault>
    requires { begin + count ≤ length buffer.old }
    ensures front { take begin buffer.new ≡ take begin buffer.old }
    ensures read { S.honest → IfOk result (λ whole. whole ≡ true
        → take count (drop begin buffer.new) ≡ take count (drop at (S.state source.new).file)) }
    ensures within { S.honest → IfOk result (λ whole. whole ≡ true
        → count ≤ length (drop at (S.state source.new).file)) }
    ensures tells { S.honest → Tells (S.state source.new) }
    ensures goes { S.honest → Goes (S.state source.old) (S.state source.new) }
    ensures kinds { IfErr result (λ fault. fault ≡ CopyFault.Read) }
{
    let have = source.read_at(at, &mut buffer[begin..begin + count])?;
    Ok(have == count)
}

impl Gather {
    // These bytes, none of them written yet.
    pub(crate) fn new(alloc: Global, first: &[u8]) -> Result<Gather, CopyFault>
        ensures gathers { IfOk result (Gathers first.now []) }
        ensures room { IfOk result (λ gather. gather.pending ≤ length gather.buffer.items) }
        ensures end { IfOk result (λ gather. end_of gather ≡ length first.now) }
    {
        let mut buffer = Vec::from_slice(alloc, first)?;
        let len = first.len().max(GATHERED);
        buffer.resize(len, 0)?;
        Ok(Gather {
            buffer,
            pending: first.len(),
            written: 0,
        })
    }

    // Writes what is gathered.
    pub(crate) fn flush<D: Disk>(&mut self, to: &mut D) -> Result<(), CopyFault>
        requires room { self.old.pending ≤ length self.old.buffer.items }
        requires small { end_of self.old < 2 ^ 64 }
        ensures gathers { D.honest → (text : List ℕ) → Gathers text (D.seen to.old) self.old
            → OnOk result (Gathers text (D.seen to.new) self.new) }
        ensures empty { OnOk result (self.new.pending ≡ 0) }
        ensures end { OnOk result (end_of self.new ≡ end_of self.old) }
        ensures buffer { self.new.buffer ≡ self.old.buffer }
        ensures kinds { IfErr result (λ fault. fault ≡ CopyFault.Device) }
    {
        if self.pending > 0 {
            to.write_at(self.written, &self.buffer[..self.pending])?;
            self.written += self.pending as u64;
            self.pending = 0;
        }
        Ok(())
    }

    // Has the buffer room for this many bytes more.
    pub(crate) fn make_room<D: Disk>(&mut self, to: &mut D, count: usize) -> Result<(), CopyFault>
        requires room { self.old.pending ≤ length self.old.buffer.items }
        requires small { end_of self.old < 2 ^ 64 }
        ensures gathers { D.honest → (text : List ℕ) → Gathers text (D.seen to.old) self.old
            → OnOk result (Gathers text (D.seen to.new) self.new) }
        ensures room { OnOk result (self.new.pending + count ≤ length self.new.buffer.items) }
        ensures end { OnOk result (end_of self.new ≡ end_of self.old) }
        ensures kinds { IfErr result (λ fault. (fault ≡ CopyFault.Device) ⊎ (fault ≡ CopyFault.Memory)) }
    {
        if count <= self.buffer.len() - self.pending {
            return Ok(());
        }
        self.flush(to)?;
        if count > self.buffer.len() {
            self.buffer.resize(count, 0)?;
        }
        Ok(())
    }
}

//! The first record of a file, by which the current one of two is told.
ghost use Rattle.std.specs.Prelude.{◌≡◌, ◌+◌, ◌≤◌, List, ℕ, None, drop, take, length, IfOk, OnOk};
ghost use Rattle.std.specs.Str.{bytes_eq};
ghost use Rattle.xa_log.specs.Believed.Chain.{format_of, magic, most_body, size_at};
ghost use Rattle.xa_log.specs.Believed.Pair.{on_first};
ghost use Rattle.xa_limits.specs.declared.TheConstants.{AROUND_BODY, FORMAT_BYTES};
ghost use Rattle.xa_copy.specs.Heads.{Heads, IsHead, is_first};
ghost use Rattle.xa_copy.specs.Moving.{Goes, Tells};

use crate::CopyFault;
use crate::gather::{new_buffer, read_part};
use crate::named::{first_digest, format_of, name_of};
use crate::record::{chained, is_appended, number_of, size_of};
use crate::source::Source;
use std::alloc::Global;
use xa_limits::{AROUND_BODY, FIRST_OFFSET, FORMAT_BYTES, LENGTH_BYTES};
use xa_log::{Format, PREAMBLE_BYTES};

// Where a file's first body begins.
const FIRST_BODY: usize = FORMAT_BYTES + LENGTH_BYTES;

/// A file that is a log with a record.
#[derive(Debug, Drop)]
pub struct Head {
    pub format: Format,
    /// The name of its format, and its first record.
    pub front: Vec<u8>,
    /// The number in its first body.
    pub generation: usize,
}

// What a file begins with.
pub(crate) fn head_of<S: Source>(alloc: Global, source: &mut S) -> Result<Option<Head>, CopyFault>
    ensures head { S.honest → IfOk result (IsHead (S.state source.new).file) }
    ensures tells { S.honest → OnOk result (Tells (S.state source.new)) }
    ensures goes { S.honest → Goes (S.state source.old) (S.state source.new) }
{
    let mut name = [0; PREAMBLE_BYTES];
    let have = source.read_at(0, &mut name)?;
    if have < PREAMBLE_BYTES {
        return Ok(None);
    }
    let Some(format) = format_of(&name[..FORMAT_BYTES])? else {
        return Ok(None);
    };
    let size = size_of(&name[FORMAT_BYTES..]);
    if size == 0 {
        return Ok(None);
    }
    if size > format.most_body() {
        return Err(lost());
    }
    first_of(alloc, source, format, size)
}

// The first record isn't as it was written.
fn lost() -> CopyFault {
    CopyFault::Damaged {
        number: 1,
        at: FIRST_OFFSET,
    }
}

// What a file of this format begins with, whose first body has this size. It may have changed since that was read.
fn first_of<S: Source>(
    alloc: Global,
    source: &mut S,
    format: Format,
    size: usize,
) -> Result<Option<Head>, CopyFault>
    requires some { 1 ≤ size }
    requires small { size ≤ most_body format }
    ensures head { S.honest → IfOk result (IsHead (S.state source.new).file) }
    ensures tells { S.honest → OnOk result (Tells (S.state source.new)) }
    ensures goes { S.honest → Goes (S.state source.old) (S.state source.new) }
{
    let mut front = new_buffer(alloc, FORMAT_BYTES + AROUND_BODY + size)?;
    let len = front.len();
    if !read_part(source, 0, &mut front, 0, len)? {
        return Err(CopyFault::Moved);
    }
    let head = head_in(front, format, size)?;
    Ok(head)
}

// What a file begins with that begins with these bytes, whose first body had this size before, and its format this name.
fn head_in(front: Vec<u8>, format: Format, size: usize) -> Result<Option<Head>, CopyFault>
    requires long { length front.items ≡ FORMAT_BYTES + AROUND_BODY + size }
    requires some { 1 ≤ size }
    requires small { size ≤ most_body format }
    ensures { (file : List ℕ) → front.items ≡ take (FORMAT_BYTES + AROUND_BODY + size) file
        → IfOk result (IsHead file) }
{
    if !is_named(&front, format) {
        return Err(CopyFault::Moved);
    }
    match chained(&front[FORMAT_BYTES..], size, &first_digest(format)) {
        Some(_) => {
            let generation = number_of(&front[FIRST_BODY..FIRST_BODY + size]);
            Ok(Some(Head {
                format,
                front,
                generation,
            }))
        }
        None => {
            unchained(&front, size)?;
            Ok(None)
        }
    }
}

// Whether these bytes begin with the name of a format.
fn is_named(front: &[u8], format: Format) -> bool
    requires { FORMAT_BYTES ≤ length front.now }
    ensures { result ≡ bytes_eq (take FORMAT_BYTES front.now) (magic format) }
{
    &front[..FORMAT_BYTES] == name_of(format).as_slice()
}

// A file that begins so, whose first record doesn't chain, has none; or it was damaged, if a checkpoint wrote that record.
// It may have changed since its first body had this size.
fn unchained(front: &[u8], size: usize) -> Result<(), CopyFault>
    requires long { FIRST_BODY + size ≤ length front.now }
    requires some { 1 ≤ size }
    ensures { OnOk result (size_at (drop FORMAT_BYTES front.now) ≡ size) }
{
    if size_of(&front[FORMAT_BYTES..]) != size {
        return Err(CopyFault::Moved);
    }
    if !is_appended(front[FIRST_BODY]) && number_of(&front[FIRST_BODY..]) > 1 {
        return Err(lost());
    }
    Ok(())
}

// Whether the first one of two files is the current one.
pub(crate) fn is_first(head: &Option<Head>, other: &Option<Head>) -> bool
    ensures { result ≡ is_first head.now other.now }
{
    match (head, other) {
        (Some(head), Some(other)) => head.generation >= other.generation,
        (head, _) => head.is_some(),
    }
}

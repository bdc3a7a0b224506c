//! The line of a record, and the line after the last one, in a format.
ghost use Rattle.std.specs.Prelude.{◌≡◌, ◌++◌, IfOk, OnOk};
ghost use Rattle.xa_scan.specs.Lines.{body_text, end_line, line_at};

use crate::format::Format;
use crate::objects::{object_end, object_line};
use crate::records::push_record;
use std::alloc::{AllocError, Global};
use xa_record::{RecordFault, read};

/// The line of a record that has this body and begins at this offset.
pub fn body_line(
    alloc: Global,
    format: Format,
    offset: u64,
    body: &[u8],
) -> Result<Vec<u8>, AllocError>
    ensures { IfOk result (λ line. line.items ≡ line_at format offset body.now) }
{
    match format {
        Format::Text => text_line(alloc, offset, body),
        Format::Json => object_line(alloc, offset, body),
    }
}

fn text_line(alloc: Global, offset: u64, body: &[u8]) -> Result<Vec<u8>, AllocError>
    ensures { IfOk result (λ line. line.items ≡ line_at Format.Text offset body.now) }
{
    let mut line = format!(in alloc; "{offset} ")?.into_bytes();
    push_body(alloc, &mut line, body)?;
    line.push(b'\n')?;
    Ok(line)
}

/// Adds the text of the record that has this body, or that it is none.
fn push_body(alloc: Global, line: &mut Vec<u8>, body: &[u8]) -> Result<(), AllocError>
    ensures { OnOk result (line.new.items ≡ line.old.items ++ body_text body.now) }
{
    match read(alloc, body) {
        Ok(record) => push_record(alloc, line, &record),
        Err(RecordFault::Malformed) => line.extend_from_slice(b"malformed"),
        Err(RecordFault::Memory) => Err(AllocError),
    }
}

/// The line that tells where the next record would begin.
pub fn last_line(alloc: Global, format: Format, offset: u64) -> Result<Vec<u8>, AllocError>
    ensures { IfOk result (λ line. line.items ≡ end_line format offset) }
{
    match format {
        Format::Text => Ok(format!(in alloc; "end {offset}\n")?.into_bytes()),
        Format::Json => object_end(alloc, offset),
    }
}

//! The line of a record as a JSON object.
ghost use Rattle.std.specs.Fmt.{decimal};
ghost use Rattle.std.specs.Prelude.{◌≡◌, ◌++◌, ◌<◌, IfOk, OnOk, codes};
ghost use Rattle.xa_record.specs.Reading.{record_at};
ghost use Rattle.xa_scan.specs.Objects.{branch_members, directed_members, end_object, front, kind_text, more_objects, number_member};
ghost use Rattle.xa_scan.specs.Objects.{object_line, quoted, record_members, record_object, stamped_members, text_member, value_object};
ghost use Rattle.xa_scan.specs.Objects.{write_object, writes_member, writes_objects};
ghost use Rattle.xa_xid.specs.Spelling.{hex, hex_digit, text_of};

use crate::records::direction_name;
use arrayvec::ArrayVec;
use std::alloc::{AllocError, Global};
use xa_codes::{Bytes, Direction, Write};
use xa_record::{Record, RecordFault, Writes, read};
use xa_xid::{MOST_TEXT, Xid};

/// The object of the record that has this body and begins at this offset, and the line's end.
pub fn object_line(alloc: Global, offset: u64, body: &[u8]) -> Result<Vec<u8>, AllocError>
    ensures { IfOk result (λ line. line.items ≡ object_line offset (record_at body.now)) }
{
    let mut line = Vec::new(alloc);
    match read(alloc, body) {
        Ok(record) => push_record(alloc, &mut line, offset, &record)?,
        Err(RecordFault::Malformed) => push_front(alloc, &mut line, "malformed", offset)?,
        Err(RecordFault::Memory) => return Err(AllocError),
    }
    line.extend_from_slice(b"}\n")?;
    Ok(line)
}

/// The object that tells where the next record would begin, and the line's end.
pub fn object_end(alloc: Global, offset: u64) -> Result<Vec<u8>, AllocError>
    ensures { IfOk result (λ line. line.items ≡ end_object offset) }
{
    let digits = format!(in alloc; "{offset}")?;
    let mut line = Vec::new(alloc);
    line.extend_from_slice(b"{\"end\":")?;
    line.extend_from_slice(digits.as_bytes())?;
    line.extend_from_slice(b"}\n")?;
    Ok(line)
}

/// Adds the object of a record, but for the mark that ends it.
fn push_record(alloc: Global, line: &mut Vec<u8>, at: u64, said: &Record) -> Result<(), AllocError>
    ensures { OnOk result (line.new.items ≡ line.old.items ++ record_object at said.now) }
{
    push_front(alloc, line, kind_text(said), at)?;
    push_members(alloc, line, said)
}

fn kind_text(said: &Record) -> &'static str
    ensures { result.now ≡ kind_text said.now }
{
    match said {
        Record::Opened { .. } => "opened",
        Record::Prepared { .. } => "prepared",
        Record::Committed { .. } => "committed",
        Record::Completed { .. } => "completed",
        Record::Decided { .. } => "decided",
        Record::Forgotten { .. } => "forgotten",
        Record::Base { .. } => "base",
        Record::Held { .. } => "held",
        Record::Known { .. } => "known",
    }
}

/// What a record speaks of.
fn push_members(alloc: Global, line: &mut Vec<u8>, said: &Record) -> Result<(), AllocError>
    ensures { OnOk result (line.new.items ≡ line.old.items ++ record_members said.now) }
{
    match said {
        Record::Opened { boot } => push_number(alloc, line, "boot", u64::from(*boot)),
        Record::Prepared {
            xid,
            timestamp,
            writes,
        }
        | Record::Committed {
            xid,
            timestamp,
            writes,
        }
        | Record::Held {
            xid,
            timestamp,
            writes,
        } => push_branch(alloc, line, xid, *timestamp, writes),
        Record::Completed { xid, direction }
        | Record::Decided { xid, direction }
        | Record::Known { xid, direction } => push_directed(line, xid, *direction),
        Record::Forgotten { xid } => push_xid(line, xid),
        Record::Base { timestamp, writes } => push_stamped(alloc, line, *timestamp, writes),
    }
}

/// The kind of a record, and its offset.
fn push_front(alloc: Global, line: &mut Vec<u8>, kind: &str, offset: u64) -> Result<(), AllocError>
    ensures { OnOk result (line.new.items ≡ line.old.items ++ front kind.now offset) }
{
    line.extend_from_slice(b"{\"record\":")?;
    push_quoted(line, kind.as_bytes())?;
    push_number(alloc, line, "offset", offset)
}

fn push_branch(
    alloc: Global,
    line: &mut Vec<u8>,
    xid: &Xid,
    timestamp: u64,
    writes: &Writes,
) -> Result<(), AllocError>
    ensures { OnOk result (line.new.items ≡ line.old.items ++ branch_members xid.now timestamp writes.now) }
{
    push_xid(line, xid)?;
    push_stamped(alloc, line, timestamp, writes)
}

fn push_stamped(
    alloc: Global,
    line: &mut Vec<u8>,
    timestamp: u64,
    writes: &Writes,
) -> Result<(), AllocError>
    ensures { OnOk result (line.new.items ≡ line.old.items ++ stamped_members timestamp writes.now) }
{
    push_number(alloc, line, "timestamp", timestamp)?;
    push_writes(line, writes)
}

fn push_directed(line: &mut Vec<u8>, xid: &Xid, direction: Direction) -> Result<(), AllocError>
    ensures { OnOk result (line.new.items ≡ line.old.items ++ directed_members xid.now direction) }
{
    push_xid(line, xid)?;
    push_text(line, "direction", direction_name(direction).as_bytes())
}

fn push_xid(line: &mut Vec<u8>, xid: &Xid) -> Result<(), AllocError>
    ensures { OnOk result (line.new.items ≡ line.old.items ++ text_member (codes "xid") (text_of xid.now)) }
{
    let mut text: ArrayVec<u8, MOST_TEXT> = ArrayVec::new();
    xid.put_text(&mut text);
    push_text(line, "xid", text.as_slice())
}

fn push_number(alloc: Global, line: &mut Vec<u8>, name: &str, number: u64) -> Result<(), AllocError>
    ensures { OnOk result (line.new.items ≡ line.old.items ++ number_member name.now number) }
{
    let digits = format!(in alloc; "{number}")?;
    line.push(b',')?;
    push_quoted(line, name.as_bytes())?;
    line.push(b':')?;
    line.extend_from_slice(digits.as_bytes())
}

fn push_text(line: &mut Vec<u8>, name: &str, text: &[u8]) -> Result<(), AllocError>
    ensures { OnOk result (line.new.items ≡ line.old.items ++ text_member name.now text.now) }
{
    line.push(b',')?;
    push_quoted(line, name.as_bytes())?;
    line.push(b':')?;
    push_quoted(line, text)
}

fn push_quoted(line: &mut Vec<u8>, text: &[u8]) -> Result<(), AllocError>
    ensures { OnOk result (line.new.items ≡ line.old.items ++ quoted text.now) }
{
    line.push(b'"')?;
    line.extend_from_slice(text)?;
    line.push(b'"')?;
    Ok(())
}

fn push_writes(line: &mut Vec<u8>, writes: &Writes) -> Result<(), AllocError>
    ensures { OnOk result (line.new.items ≡ line.old.items ++ writes_member writes.now) }
{
    line.extend_from_slice(b",\"writes\":[")?;
    push_objects(line, writes.as_slice())?;
    line.push(b']')?;
    Ok(())
}

fn push_objects(line: &mut Vec<u8>, writes: &[Write]) -> Result<(), AllocError>
    ensures { OnOk result (line.new.items ≡ line.old.items ++ writes_objects writes.now) }
{
    match writes.split_first() {
        None => Ok(()),
        Some((write, others)) => {
            push_write(line, write)?;
            push_more(line, others)
        }
    }
}

fn push_more(line: &mut Vec<u8>, writes: &[Write]) -> Result<(), AllocError>
    ensures { OnOk result (line.new.items ≡ line.old.items ++ more_objects writes.now) }
{
    for write in writes {
        line.push(b',')?;
        push_write(line, write)?;
    }
    Ok(())
}

fn push_write(line: &mut Vec<u8>, write: &Write) -> Result<(), AllocError>
    ensures { OnOk result (line.new.items ≡ line.old.items ++ write_object write.now) }
{
    line.extend_from_slice(b"{\"key\":")?;
    push_bytes(line, write.key.as_slice())?;
    line.extend_from_slice(b",\"value\":")?;
    push_value(line, &write.value)?;
    line.push(b'}')?;
    Ok(())
}

fn push_value(line: &mut Vec<u8>, value: &Option<Bytes>) -> Result<(), AllocError>
    ensures { OnOk result (line.new.items ≡ line.old.items ++ value_object value.now) }
{
    match value {
        None => line.extend_from_slice(b"null"),
        Some(bytes) => push_bytes(line, bytes.as_slice()),
    }
}

/// Bytes in lower case hexadecimal, between quotation marks.
fn push_bytes(line: &mut Vec<u8>, bytes: &[u8]) -> Result<(), AllocError>
    ensures { OnOk result (line.new.items ≡ line.old.items ++ quoted (hex bytes.now)) }
{
    line.push(b'"')?;
    push_digits(line, bytes)?;
    line.push(b'"')?;
    Ok(())
}

fn push_digits(line: &mut Vec<u8>, bytes: &[u8]) -> Result<(), AllocError>
    ensures { OnOk result (line.new.items ≡ line.old.items ++ hex bytes.now) }
{
    for byte in bytes {
        line.push(digit_byte(*byte / 16))?;
        line.push(digit_byte(*byte % 16))?;
    }
    Ok(())
}

fn digit_byte(digit: u8) -> u8
    requires { digit < 16 }
    ensures { result ≡ hex_digit digit }
{
    if digit < 10 {
        b'0' + digit
    } else {
        b'a' + (digit - 10)
    }
}

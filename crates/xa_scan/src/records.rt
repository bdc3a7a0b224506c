//! The text of a record.
ghost use Rattle.std.specs.Prelude.{◌≡◌, ◌++◌, OnOk, codes};
ghost use Rattle.xa_scan.specs.Records.{branch_text, directed_text, direction_text, record_text, stamped_text};
ghost use Rattle.xa_xid.specs.Spelling.{text_of};

use arrayvec::ArrayVec;
use std::alloc::{AllocError, Global};
use xa_codes::Direction;
use xa_record::{Record, Writes};
use xa_xid::{MOST_TEXT, Xid};

/// Adds the text of a record: its kind, and what it speaks of.
pub fn push_record(alloc: Global, line: &mut Vec<u8>, said: &Record) -> Result<(), AllocError>
    ensures { OnOk result (line.new.items ≡ line.old.items ++ record_text said.now) }
{
    match said {
        Record::Opened { boot } => push_boot(alloc, line, *boot),
        Record::Prepared {
            xid,
            timestamp,
            writes,
        } => {
            line.extend_from_slice(b"prepared ")?;
            push_branch(alloc, line, xid, *timestamp, writes)
        }
        Record::Committed {
            xid,
            timestamp,
            writes,
        } => {
            line.extend_from_slice(b"committed ")?;
            push_branch(alloc, line, xid, *timestamp, writes)
        }
        Record::Completed { xid, direction } => {
            line.extend_from_slice(b"completed ")?;
            push_directed(line, xid, *direction)
        }
        Record::Decided { xid, direction } => {
            line.extend_from_slice(b"decided ")?;
            push_directed(line, xid, *direction)
        }
        Record::Forgotten { xid } => {
            line.extend_from_slice(b"forgotten ")?;
            push_xid(line, xid)
        }
        Record::Base { timestamp, writes } => {
            line.extend_from_slice(b"base ")?;
            push_stamped(alloc, line, *timestamp, writes)
        }
        Record::Held {
            xid,
            timestamp,
            writes,
        } => {
            line.extend_from_slice(b"held ")?;
            push_branch(alloc, line, xid, *timestamp, writes)
        }
        Record::Known { xid, direction } => {
            line.extend_from_slice(b"known ")?;
            push_directed(line, xid, *direction)
        }
    }
}

fn push_boot(alloc: Global, line: &mut Vec<u8>, boot: u32) -> Result<(), AllocError>
    ensures { OnOk result (line.new.items ≡ line.old.items ++ record_text (Record.Opened boot)) }
{
    let text = format!(in alloc; "opened {boot}")?;
    line.extend_from_slice(text.as_bytes())
}

/// An XID, a timestamp and how many writes there are.
fn push_branch(
    alloc: Global,
    line: &mut Vec<u8>,
    xid: &Xid,
    timestamp: u64,
    writes: &Writes,
) -> Result<(), AllocError>
    ensures { OnOk result (line.new.items ≡ line.old.items ++ branch_text xid.now timestamp writes.now) }
{
    push_xid(line, xid)?;
    line.push(b' ')?;
    push_stamped(alloc, line, timestamp, writes)
}

/// A timestamp and how many writes there are.
fn push_stamped(
    alloc: Global,
    line: &mut Vec<u8>,
    timestamp: u64,
    writes: &Writes,
) -> Result<(), AllocError>
    ensures { OnOk result (line.new.items ≡ line.old.items ++ stamped_text timestamp writes.now) }
{
    let count = writes.as_slice().len();
    let text = format!(in alloc; "{timestamp} {count}")?;
    line.extend_from_slice(text.as_bytes())
}

/// An XID and what became of it.
fn push_directed(line: &mut Vec<u8>, xid: &Xid, direction: Direction) -> Result<(), AllocError>
    ensures { OnOk result (line.new.items ≡ line.old.items ++ directed_text xid.now direction) }
{
    push_xid(line, xid)?;
    line.push(b' ')?;
    line.extend_from_slice(direction_name(direction).as_bytes())
}

pub fn direction_name(direction: Direction) -> &'static str
    ensures { result.now ≡ direction_text direction }
{
    match direction {
        Direction::Commit => "commit",
        Direction::Rollback => "rollback",
    }
}

fn push_xid(line: &mut Vec<u8>, xid: &Xid) -> Result<(), AllocError>
    ensures { OnOk result (line.new.items ≡ line.old.items ++ text_of xid.now) }
{
    let mut text: ArrayVec<u8, MOST_TEXT> = ArrayVec::new();
    xid.put_text(&mut text);
    line.extend_from_slice(text.as_slice())
}

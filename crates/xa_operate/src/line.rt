//! The lines of branches and of counts, in a format.
ghost use Rattle.std.specs.Fmt.{decimal, signed_decimal};
ghost use Rattle.std.specs.Option.{option_copied};
ghost use Rattle.std.specs.Prelude.{◌≡◌, ◌++◌, OnOk, codes};
ghost use Rattle.xa_operate.specs.Lines.{at_work, at_work_text, branch_counts, branch_front, branch_line};
ghost use Rattle.xa_operate.specs.Lines.{count, count_line, count_member, counts_end, counts_text, end_text, line_end, member, quoted};
ghost use Rattle.xa_operate.specs.Lines.{log_counts, rolled_line, server_counts, status_text, word, xid_front, xid_line, xid_lines};
ghost use Rattle.xa_script.specs.Replies.{state_name};

use crate::format::Format;
use crate::sessions::push_sessions;
use arrayvec::ArrayVec;
use std::alloc::{AllocError, Global};
use xa_codes::Code;
use xa_frame::{AssociationCounts, BranchState, KnownBranch, Status};
use xa_xid::{MOST_TEXT, Xid};

/// Adds a line of each XID.
pub(crate) fn push_xids(line: &mut Vec<u8>, format: Format, xids: &[Xid]) -> Result<(), AllocError>
    ensures { OnOk result (line.new.items ≡ line.old.items ++ xid_lines format xids.now) }
{
    for xid in xids {
        push_xid(line, format, xid)?;
    }
    Ok(())
}

fn push_xid(line: &mut Vec<u8>, format: Format, xid: &Xid) -> Result<(), AllocError>
    ensures { OnOk result (line.new.items ≡ line.old.items ++ xid_line format xid.now) }
{
    push_front(line, format, xid)?;
    push_end(line, format)
}

/// Adds the line of a branch, with its sessions if they are known.
pub(crate) fn push_branch(
    alloc: Global,
    line: &mut Vec<u8>,
    format: Format,
    branch: &KnownBranch,
    sessions: Option<&[u64]>,
) -> Result<(), AllocError>
    ensures { OnOk result (line.new.items ≡ line.old.items ++ branch_line format branch.now (option_copied sessions.entry)) }
{
    push_branch_front(alloc, line, format, branch)?;
    push_sessions(alloc, line, format, sessions)?;
    push_end(line, format)
}

fn push_branch_front(
    alloc: Global,
    line: &mut Vec<u8>,
    format: Format,
    branch: &KnownBranch,
) -> Result<(), AllocError>
    ensures { OnOk result (line.new.items ≡ line.old.items ++ branch_front format branch.now) }
{
    push_front(line, format, &branch.xid)?;
    push_state(line, format, branch.state)?;
    push_mark(alloc, line, format, branch)?;
    push_number(alloc, line, format, "timestamp", branch.timestamp)?;
    push_counts(alloc, line, format, branch.associations)
}

fn push_mark(
    alloc: Global,
    line: &mut Vec<u8>,
    format: Format,
    branch: &KnownBranch,
) -> Result<(), AllocError>
    ensures { OnOk result (line.new.items ≡ line.old.items ++ member format (codes "mark") (signed_decimal branch.now.mark)) }
{
    push_code(alloc, line, format, "mark", branch.mark)
}

fn push_counts(
    alloc: Global,
    line: &mut Vec<u8>,
    format: Format,
    counts: AssociationCounts,
) -> Result<(), AllocError>
    ensures { OnOk result (line.new.items ≡ line.old.items ++ counts_text format counts) }
{
    push_number(alloc, line, format, "active", u64::from(counts.active))?;
    push_number(
        alloc,
        line,
        format,
        "suspended",
        u64::from(counts.suspended),
    )?;
    push_number(alloc, line, format, "loose", u64::from(counts.loose))
}

/// Adds the line of a branch that was rolled back.
pub(crate) fn push_rolled(
    alloc: Global,
    line: &mut Vec<u8>,
    format: Format,
    xid: &Xid,
    code: Code,
) -> Result<(), AllocError>
    ensures { OnOk result (line.new.items ≡ line.old.items ++ rolled_line format xid.now code) }
{
    push_front(line, format, xid)?;
    push_code(alloc, line, format, "code", code)?;
    push_end(line, format)
}

fn push_front(line: &mut Vec<u8>, format: Format, xid: &Xid) -> Result<(), AllocError>
    ensures { OnOk result (line.new.items ≡ line.old.items ++ xid_front format xid.now) }
{
    let mut text: ArrayVec<u8, MOST_TEXT> = ArrayVec::new();
    xid.put_text(&mut text);
    match format {
        Format::Text => line.extend_from_slice(text.as_slice()),
        Format::Json => {
            line.extend_from_slice(b"{\"xid\":")?;
            push_quoted(line, text.as_slice())
        }
    }
}

fn push_quoted(line: &mut Vec<u8>, text: &[u8]) -> Result<(), AllocError>
    ensures { OnOk result (line.new.items ≡ line.old.items ++ quoted text.now) }
{
    line.push(b'"')?;
    line.extend_from_slice(text)?;
    line.push(b'"')?;
    Ok(())
}

fn push_member(
    line: &mut Vec<u8>,
    format: Format,
    name: &str,
    value: &[u8],
) -> Result<(), AllocError>
    ensures { OnOk result (line.new.items ≡ line.old.items ++ member format name.now value.now) }
{
    match format {
        Format::Text => line.push(b' ')?,
        Format::Json => {
            line.push(b',')?;
            push_quoted(line, name.as_bytes())?;
            line.push(b':')?;
        }
    }
    line.extend_from_slice(value)
}

fn push_number(
    alloc: Global,
    line: &mut Vec<u8>,
    format: Format,
    name: &str,
    number: u64,
) -> Result<(), AllocError>
    ensures { OnOk result (line.new.items ≡ line.old.items ++ member format name.now (decimal number)) }
{
    let digits = format!(in alloc; "{number}")?;
    push_member(line, format, name, digits.as_bytes())
}

fn push_code(
    alloc: Global,
    line: &mut Vec<u8>,
    format: Format,
    name: &str,
    code: Code,
) -> Result<(), AllocError>
    ensures { OnOk result (line.new.items ≡ line.old.items ++ member format name.now (signed_decimal code)) }
{
    let digits = format!(in alloc; "{code}")?;
    push_member(line, format, name, digits.as_bytes())
}

fn push_state(line: &mut Vec<u8>, format: Format, state: BranchState) -> Result<(), AllocError>
    ensures { OnOk result (line.new.items ≡ line.old.items ++ member format (codes "state") (word format (state_name state))) }
{
    let name = state_name(state);
    match format {
        Format::Text => push_member(line, format, "state", name.as_bytes()),
        Format::Json => {
            line.extend_from_slice(b",\"state\":")?;
            push_quoted(line, name.as_bytes())
        }
    }
}

fn state_name(state: BranchState) -> &'static str
    ensures { result.now ≡ state_name state }
{
    match state {
        BranchState::Working => "working",
        BranchState::Prepared => "prepared",
        BranchState::Committed => "committed",
        BranchState::RolledBack => "rolledback",
    }
}

fn push_end(line: &mut Vec<u8>, format: Format) -> Result<(), AllocError>
    ensures { OnOk result (line.new.items ≡ line.old.items ++ line_end format) }
{
    match format {
        Format::Text => line.extend_from_slice(b"\n"),
        Format::Json => line.extend_from_slice(b"}\n"),
    }
}

/// Adds a name and its number: a line, or a member after a mark.
#[tactic(auto, unfolding(crate::specs::Lines::count))]
fn push_count(
    alloc: Global,
    line: &mut Vec<u8>,
    format: Format,
    mark: u8,
    name: &str,
    number: u64,
) -> Result<(), AllocError>
    ensures { OnOk result (line.new.items ≡ line.old.items ++ count format mark name.now number) }
{
    let digits = format!(in alloc; "{number}")?;
    match format {
        Format::Text => push_count_line(line, name, digits.as_bytes()),
        Format::Json => push_count_member(line, mark, name, digits.as_bytes()),
    }
}

fn push_count_line(line: &mut Vec<u8>, name: &str, digits: &[u8]) -> Result<(), AllocError>
    ensures { OnOk result (line.new.items ≡ line.old.items ++ count_line name.now digits.now) }
{
    line.extend_from_slice(name.as_bytes())?;
    line.push(b' ')?;
    line.extend_from_slice(digits)?;
    line.push(b'\n')?;
    Ok(())
}

fn push_count_member(
    line: &mut Vec<u8>,
    mark: u8,
    name: &str,
    digits: &[u8],
) -> Result<(), AllocError>
    ensures { OnOk result (line.new.items ≡ line.old.items ++ count_member mark name.now digits.now) }
{
    line.push(mark)?;
    push_quoted(line, name.as_bytes())?;
    line.push(b':')?;
    line.extend_from_slice(digits)
}

fn push_counts_end(line: &mut Vec<u8>, format: Format) -> Result<(), AllocError>
    ensures { OnOk result (line.new.items ≡ line.old.items ++ counts_end format) }
{
    match format {
        Format::Text => Ok(()),
        Format::Json => line.extend_from_slice(b"}\n"),
    }
}

/// Adds where the log ends.
pub(crate) fn push_log_end(
    alloc: Global,
    line: &mut Vec<u8>,
    format: Format,
    end: u64,
) -> Result<(), AllocError>
    ensures { OnOk result (line.new.items ≡ line.old.items ++ end_text format end) }
{
    push_count(alloc, line, format, b'{', "end", end)?;
    push_counts_end(line, format)
}

/// Adds how many branches are at work.
pub(crate) fn push_at_work(
    alloc: Global,
    line: &mut Vec<u8>,
    format: Format,
    status: Status,
) -> Result<(), AllocError>
    ensures { OnOk result (line.new.items ≡ line.old.items ++ at_work_text format status) }
{
    push_count(
        alloc,
        line,
        format,
        b'{',
        "branches at work",
        at_work(status),
    )?;
    push_counts_end(line, format)
}

fn at_work(status: Status) -> u64
    ensures { result ≡ at_work status }
{
    status
        .branches
        .saturating_sub(status.prepared)
        .saturating_sub(status.completed)
}

/// Adds how a server is doing.
pub(crate) fn push_status(
    alloc: Global,
    line: &mut Vec<u8>,
    format: Format,
    status: Status,
) -> Result<(), AllocError>
    ensures { OnOk result (line.new.items ≡ line.old.items ++ status_text format status) }
{
    push_log_counts(alloc, line, format, status)?;
    push_branch_counts(alloc, line, format, status)?;
    push_server_counts(alloc, line, format, status)?;
    push_counts_end(line, format)
}

fn push_log_counts(
    alloc: Global,
    line: &mut Vec<u8>,
    format: Format,
    status: Status,
) -> Result<(), AllocError>
    ensures { OnOk result (line.new.items ≡ line.old.items ++ log_counts format status) }
{
    push_count(alloc, line, format, b'{', "boot", status.boot)?;
    push_count(alloc, line, format, b',', "end", status.end)?;
    push_count(alloc, line, format, b',', "bytes", status.bytes)
}

fn push_branch_counts(
    alloc: Global,
    line: &mut Vec<u8>,
    format: Format,
    status: Status,
) -> Result<(), AllocError>
    ensures { OnOk result (line.new.items ≡ line.old.items ++ branch_counts format status) }
{
    push_count(alloc, line, format, b',', "branches", status.branches)?;
    push_count(alloc, line, format, b',', "prepared", status.prepared)?;
    push_count(alloc, line, format, b',', "completed", status.completed)
}

fn push_server_counts(
    alloc: Global,
    line: &mut Vec<u8>,
    format: Format,
    status: Status,
) -> Result<(), AllocError>
    ensures { OnOk result (line.new.items ≡ line.old.items ++ server_counts format status) }
{
    push_count(alloc, line, format, b',', "sessions", status.sessions)?;
    push_count(alloc, line, format, b',', "versions", status.versions)?;
    push_count(alloc, line, format, b',', "calls", status.calls)?;
    push_count(alloc, line, format, b',', "seconds", status.seconds)
}

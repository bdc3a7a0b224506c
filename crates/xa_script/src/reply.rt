ghost use Rattle.std.specs.Prelude.{◌≡◌, ◌∷◌, ◌++◌, IfOk, OnOk, codes, true};
ghost use Rattle.std.specs.Fmt.{decimal, signed_decimal};
ghost use Rattle.xa_script.specs.Replies.{body_in, body_text, branch_text, branches_text, code_text, counts_text, line_in, line_of};
ghost use Rattle.xa_script.specs.Replies.{name_of, named_text, state_name, status_text, value_text, xids_text};

use crate::hexadecimal::push_digits;
use crate::style::Style;
use crate::text::push_quoted;
use arrayvec::ArrayVec;
use std::alloc::{AllocError, Global};
use xa_codes::{Code, Detail, code_name};
use xa_frame::{AssociationCounts, Body, BranchState, KnownBranch, Reply, Status};
use xa_xid::{MOST_TEXT, Xid};

/// The line that shows a reply: the code, the detail's name and the body, with the line's end.
pub fn reply_line(alloc: Global, reply: &Reply) -> Result<Vec<u8>, AllocError>
    ensures { IfOk result (λ line. line.items ≡ line_of reply.now) }
{
    let style = Style {
        has_names: false,
        has_texts: false,
    };
    styled_line(alloc, reply, style)
}

/// The same in a style.
pub fn styled_line(alloc: Global, reply: &Reply, style: Style) -> Result<Vec<u8>, AllocError>
    ensures { IfOk result (λ line. line.items ≡ line_in style reply.now) }
{
    let mut line = line_front(alloc, reply.code, reply.detail, style.has_names)?;
    push_styled(alloc, &mut line, &reply.body, style.has_texts)?;
    line.push(b'\n')?;
    Ok(line)
}

pub(crate) fn line_front(
    alloc: Global,
    code: Code,
    detail: Detail,
    has_names: bool,
) -> Result<Vec<u8>, AllocError>
    ensures { IfOk result (λ front. front.items ≡ code_text has_names code ++ 32 ∷ name_of detail) }
{
    if has_names {
        return named_front(alloc, code, code_name(code), detail_name(detail));
    }
    let detail = detail_name(detail);
    Ok(format!(in alloc; "{code} {detail}")?.into_bytes())
}

fn named_front(alloc: Global, code: Code, name: &str, detail: &str) -> Result<Vec<u8>, AllocError>
    ensures { IfOk result
        (λ front. front.items ≡ (signed_decimal code ++ 32 ∷ name.now) ++ 32 ∷ detail.now) }
{
    Ok(format!(in alloc; "{code} {name} {detail}")?.into_bytes())
}

/// Adds the body, with a value as text where there are texts.
fn push_styled(
    alloc: Global,
    line: &mut Vec<u8>,
    body: &Body,
    has_texts: bool,
) -> Result<(), AllocError>
    ensures { OnOk result (line.new.items ≡ line.old.items ++ body_in has_texts body.now) }
{
    if has_texts {
        push_with_text(alloc, line, body)
    } else {
        push_body(alloc, line, body)
    }
}

fn push_with_text(alloc: Global, line: &mut Vec<u8>, body: &Body) -> Result<(), AllocError>
    ensures { OnOk result (line.new.items ≡ line.old.items ++ body_in true body.now) }
{
    match body {
        Body::Value(value) => {
            line.extend_from_slice(b" value ")?;
            push_quoted(line, value.as_slice())
        }
        _ => push_body(alloc, line, body),
    }
}

fn push_body(alloc: Global, line: &mut Vec<u8>, body: &Body) -> Result<(), AllocError>
    ensures { OnOk result (line.new.items ≡ line.old.items ++ body_text body.now) }
{
    match body {
        Body::Nothing => Ok(()),
        Body::Number(number) => {
            let text = format!(in alloc; " number {number}")?;
            line.extend_from_slice(text.as_bytes())
        }
        Body::Value(value) => {
            line.extend_from_slice(b" value ")?;
            push_value(line, value.as_slice())
        }
        Body::Absent => line.extend_from_slice(b" absent"),
        Body::Xids(xids) => push_xids(line, xids.as_slice()),
        Body::Branches(branches) => {
            line.extend_from_slice(b" branches")?;
            push_branches(alloc, line, branches.as_slice())
        }
        Body::Status(status) => {
            line.extend_from_slice(b" status")?;
            push_status(alloc, line, *status)
        }
    }
}

/// Appends a value's digits, or the dash of the empty one.
pub(crate) fn push_value(line: &mut Vec<u8>, value: &[u8]) -> Result<(), AllocError>
    ensures { OnOk result (line.new.items ≡ line.old.items ++ value_text value.now) }
{
    if value.is_empty() {
        line.extend_from_slice(b"-")
    } else {
        push_digits(line, value)
    }
}

fn push_xids(line: &mut Vec<u8>, xids: &[Xid]) -> Result<(), AllocError>
    ensures { OnOk result (line.new.items ≡ line.old.items ++ (codes " xids" ++ xids_text xids.now)) }
{
    line.extend_from_slice(b" xids")?;
    let mut text: ArrayVec<u8, MOST_TEXT> = ArrayVec::new();
    for xid in xids {
        xid.put_text(&mut text);
        line.push(b' ')?;
        line.extend_from_slice(text.as_slice())?;
    }
    Ok(())
}

fn push_branches(
    alloc: Global,
    line: &mut Vec<u8>,
    branches: &[KnownBranch],
) -> Result<(), AllocError>
    ensures { OnOk result (line.new.items ≡ line.old.items ++ branches_text branches.now) }
{
    for branch in branches {
        push_branch(alloc, line, branch)?;
    }
    Ok(())
}

fn push_branch(alloc: Global, line: &mut Vec<u8>, branch: &KnownBranch) -> Result<(), AllocError>
    ensures { OnOk result (line.new.items ≡ line.old.items ++ branch_text branch.now) }
{
    let mut text: ArrayVec<u8, MOST_TEXT> = ArrayVec::new();
    branch.xid.put_text(&mut text);
    push_word(line, text.as_slice())?;
    push_word(line, state_name(branch.state).as_bytes())?;
    push_mark(alloc, line, branch.mark)?;
    push_number(alloc, line, branch.timestamp)?;
    push_counts(alloc, line, branch.associations)?;
    Ok(())
}

fn push_counts(
    alloc: Global,
    line: &mut Vec<u8>,
    counts: AssociationCounts,
) -> Result<(), AllocError>
    ensures { OnOk result (line.new.items ≡ line.old.items ++ counts_text counts) }
{
    push_number(alloc, line, u64::from(counts.active))?;
    push_number(alloc, line, u64::from(counts.suspended))?;
    push_number(alloc, line, u64::from(counts.loose))?;
    Ok(())
}

fn push_status(alloc: Global, line: &mut Vec<u8>, status: Status) -> Result<(), AllocError>
    ensures { OnOk result (line.new.items ≡ line.old.items ++ status_text status) }
{
    push_named(alloc, line, "boot", status.boot)?;
    push_named(alloc, line, "end", status.end)?;
    push_named(alloc, line, "bytes", status.bytes)?;
    push_named(alloc, line, "branches", status.branches)?;
    push_named(alloc, line, "prepared", status.prepared)?;
    push_named(alloc, line, "completed", status.completed)?;
    push_named(alloc, line, "sessions", status.sessions)?;
    push_named(alloc, line, "versions", status.versions)?;
    push_named(alloc, line, "calls", status.calls)?;
    push_named(alloc, line, "seconds", status.seconds)?;
    Ok(())
}

/// Appends a name and its number, each after a blank.
fn push_named(alloc: Global, line: &mut Vec<u8>, name: &str, number: u64) -> Result<(), AllocError>
    ensures { OnOk result (line.new.items ≡ line.old.items ++ named_text name.now number) }
{
    push_word(line, name.as_bytes())?;
    push_number(alloc, line, number)
}

/// Appends a word after a blank.
pub(crate) fn push_word(line: &mut Vec<u8>, word: &[u8]) -> Result<(), AllocError>
    ensures { OnOk result (line.new.items ≡ line.old.items ++ 32 ∷ word.now) }
{
    line.push(b' ')?;
    line.extend_from_slice(word)
}

pub(crate) fn push_number(alloc: Global, line: &mut Vec<u8>, number: u64) -> Result<(), AllocError>
    ensures { OnOk result (line.new.items ≡ line.old.items ++ 32 ∷ decimal number) }
{
    let text = format!(in alloc; " {number}")?;
    line.extend_from_slice(text.as_bytes())
}

fn push_mark(alloc: Global, line: &mut Vec<u8>, mark: Code) -> Result<(), AllocError>
    ensures { OnOk result (line.new.items ≡ line.old.items ++ 32 ∷ signed_decimal mark) }
{
    let text = format!(in alloc; " {mark}")?;
    line.extend_from_slice(text.as_bytes())
}

fn state_name(state: BranchState) -> &'static str
    ensures { result.now ≡ state_name state }
{
    match state {
        BranchState::Working => "working",
        BranchState::Prepared => "prepared",
        BranchState::Committed => "committed",
        BranchState::RolledBack => "rolledback",
    }
}

fn detail_name(detail: Detail) -> &'static str
    ensures { result.now ≡ name_of detail }
{
    match detail {
        Detail::Nothing => "Nothing",
        Detail::Memory => "Memory",
        Detail::Device => "Device",
        Detail::Busy => "Busy",
        Detail::Late => "Late",
        Detail::Limit => "Limit",
        Detail::Frame => "Frame",
        Detail::LogFull => "LogFull",
        Detail::Access => "Access",
    }
}

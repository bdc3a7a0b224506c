//! The sessions that are at work for a branch, as its line has them.
ghost use Rattle.std.specs.Fmt.{decimal};
ghost use Rattle.std.specs.Option.{option_copied};
ghost use Rattle.std.specs.Prelude.{◌≡◌, ◌++◌, OnOk, Some};
ghost use Rattle.xa_operate.specs.Lines.{behind_comma, behind_commas, comma_list, sessions_text};

use crate::format::Format;
use std::alloc::{AllocError, Global};

pub(crate) fn push_sessions(
    alloc: Global,
    line: &mut Vec<u8>,
    format: Format,
    sessions: Option<&[u64]>,
) -> Result<(), AllocError>
    ensures { OnOk result (line.new.items ≡ line.old.items ++ sessions_text format (option_copied sessions.entry)) }
{
    match (format, sessions) {
        (Format::Text, None | Some([])) => line.extend_from_slice(b" -"),
        (Format::Text, Some(numbers)) => {
            line.push(b' ')?;
            push_list(alloc, line, numbers)
        }
        (Format::Json, None) => Ok(()),
        (Format::Json, Some(numbers)) => push_member(alloc, line, numbers),
    }
}

fn push_member(alloc: Global, line: &mut Vec<u8>, sessions: &[u64]) -> Result<(), AllocError>
    ensures { OnOk result (line.new.items ≡ line.old.items ++ sessions_text Format.Json (Some sessions.now)) }
{
    line.extend_from_slice(b",\"sessions\":[")?;
    push_list(alloc, line, sessions)?;
    line.extend_from_slice(b"]")
}

/// Adds numbers with commas between them.
fn push_list(alloc: Global, line: &mut Vec<u8>, numbers: &[u64]) -> Result<(), AllocError>
    ensures { OnOk result (line.new.items ≡ line.old.items ++ comma_list numbers.now) }
{
    let [first, others @ ..] = numbers else {
        return Ok(());
    };
    push_number(alloc, line, *first)?;
    push_others(alloc, line, others)
}

fn push_others(alloc: Global, line: &mut Vec<u8>, numbers: &[u64]) -> Result<(), AllocError>
    ensures { OnOk result (line.new.items ≡ line.old.items ++ behind_commas numbers.now) }
{
    for number in numbers {
        push_behind_comma(alloc, line, *number)?;
    }
    Ok(())
}

fn push_behind_comma(alloc: Global, line: &mut Vec<u8>, number: u64) -> Result<(), AllocError>
    ensures { OnOk result (line.new.items ≡ line.old.items ++ behind_comma number) }
{
    line.push(b',')?;
    push_number(alloc, line, number)
}

fn push_number(alloc: Global, line: &mut Vec<u8>, number: u64) -> Result<(), AllocError>
    ensures { OnOk result (line.new.items ≡ line.old.items ++ decimal number) }
{
    let digits = format!(in alloc; "{number}")?;
    line.extend_from_slice(digits.as_bytes())
}

//! The line of a file, and the one that tells which of two isn't a log's.
ghost use Rattle.std.specs.Fmt.{decimal};
ghost use Rattle.std.specs.Prelude.{◌≡◌, ◌++◌, ◌∷◌, [], IfOk, OnOk};
ghost use Rattle.xa_check.specs.Lines.{break_text, check_text, current_text, damage_text, file_text, head_text, left_text, line_of, log_text, size_text};
ghost use Rattle.xa_check.specs.Lines.{missing_text, stray_text, told_text, unfit_text};

use crate::fit::{is_first, is_second, unfit};
use crate::told::{Break, LogTold, Told};
use std::alloc::{AllocError, Global};
use xa_log::Unfit;

/// The lines of two files, of which the first one is at this path.
#[tactic(auto, unfolding(crate::specs::Lines::check_text))]
pub(crate) fn check_text(
    alloc: Global,
    path: &str,
    first: &Told,
    second: &Told,
) -> Result<Vec<u8>, AllocError>
    ensures { IfOk result (λ text. text.items ≡ check_text path.now first.now second.now) }
{
    let mut text = Vec::new(alloc);
    push_line(
        alloc,
        &mut text,
        path,
        false,
        first,
        is_first(first, second),
    )?;
    push_line(
        alloc,
        &mut text,
        path,
        true,
        second,
        is_second(first, second),
    )?;
    push_unfit(&mut text, path, unfit(first, second))?;
    Ok(text)
}

/// Adds the line of a file.
#[tactic(auto, unfolding(crate::specs::Lines::line_of))]
fn push_line(
    alloc: Global,
    text: &mut Vec<u8>,
    path: &str,
    is_second: bool,
    told: &Told,
    is_current: bool,
) -> Result<(), AllocError>
    ensures { OnOk result (text.new.items ≡ text.old.items ++ line_of path.now is_second told.now is_current) }
{
    push_file(text, path, is_second)?;
    push_told(alloc, text, told, is_current)?;
    text.push(b'\n')?;
    Ok(())
}

/// Adds the path of a file.
fn push_file(text: &mut Vec<u8>, path: &str, is_second: bool) -> Result<(), AllocError>
    ensures { OnOk result (text.new.items ≡ text.old.items ++ file_text path.now is_second) }
{
    text.extend_from_slice(path.as_bytes())?;
    if is_second {
        text.extend_from_slice(b".2")?;
    }
    Ok(())
}

/// Adds what stands in a file.
#[tactic(auto, unfolding(crate::specs::Lines::told_text))]
fn push_told(
    alloc: Global,
    text: &mut Vec<u8>,
    told: &Told,
    is_current: bool,
) -> Result<(), AllocError>
    ensures { OnOk result (text.new.items ≡ text.old.items ++ told_text told.now is_current) }
{
    match told {
        Told::Log(log) => push_log(alloc, text, log, is_current),
        Told::Nothing => text.extend_from_slice(b": nothing"),
        Told::Stray => text.extend_from_slice(b": not a log"),
        Told::Later => text.extend_from_slice(b": log too new"),
        Told::TooLong => text.extend_from_slice(b": log too long"),
    }
}

#[tactic(auto, unfolding(crate::specs::Lines::log_text))]
fn push_log(
    alloc: Global,
    text: &mut Vec<u8>,
    log: &LogTold,
    is_current: bool,
) -> Result<(), AllocError>
    ensures { OnOk result (text.new.items ≡ text.old.items ++ log_text log.now is_current) }
{
    push_head(alloc, text, log)?;
    push_size(alloc, text, log)?;
    push_current(text, is_current)?;
    push_damage(alloc, text, &log.damage)
}

#[tactic(auto, unfolding(crate::specs::Lines::head_text))]
fn push_head(alloc: Global, text: &mut Vec<u8>, log: &LogTold) -> Result<(), AllocError>
    ensures { OnOk result (text.new.items ≡ text.old.items ++ head_text log.now) }
{
    push_number(alloc, text, ": format ", log.format.number() as u64)?;
    push_number(alloc, text, ", generation ", log.generation as u64)
}

#[tactic(auto, unfolding(crate::specs::Lines::size_text))]
fn push_size(alloc: Global, text: &mut Vec<u8>, log: &LogTold) -> Result<(), AllocError>
    ensures { OnOk result (text.new.items ≡ text.old.items ++ size_text log.now) }
{
    push_number(alloc, text, ", ", log.records as u64)?;
    push_number(alloc, text, " records, end ", log.end)
}

fn push_damage(alloc: Global, text: &mut Vec<u8>, damage: &Option<Break>) -> Result<(), AllocError>
    ensures { OnOk result (text.new.items ≡ text.old.items ++ damage_text damage.now) }
{
    match damage {
        Some(damage) => push_break(alloc, text, damage),
        None => Ok(()),
    }
}

/// Adds some words and a number.
fn push_number(
    alloc: Global,
    text: &mut Vec<u8>,
    words: &str,
    number: u64,
) -> Result<(), AllocError>
    ensures { OnOk result (text.new.items ≡ text.old.items ++ words.now ++ decimal number) }
{
    text.extend_from_slice(words.as_bytes())?;
    let digits = format!(in alloc; "{number}")?;
    text.extend_from_slice(digits.as_bytes())
}

fn push_current(text: &mut Vec<u8>, is_current: bool) -> Result<(), AllocError>
    ensures { OnOk result (text.new.items ≡ text.old.items ++ current_text is_current) }
{
    if is_current {
        text.extend_from_slice(b", current")?;
    }
    Ok(())
}

/// Adds where a log breaks off, and what comes after.
#[tactic(auto, unfolding(crate::specs::Lines::break_text))]
fn push_break(alloc: Global, text: &mut Vec<u8>, damage: &Break) -> Result<(), AllocError>
    ensures { OnOk result (text.new.items ≡ text.old.items ++ break_text damage.now) }
{
    push_number(alloc, text, ", damaged: record ", damage.number as u64)?;
    push_number(alloc, text, " at byte ", damage.at)?;
    push_left(alloc, text, damage.behind as u64, damage.prepared as u64)
}

/// Adds how many records come after it, and how many branches are prepared in them, if there are any.
#[tactic(auto, unfolding(crate::specs::Lines::left_text))]
fn push_left(
    alloc: Global,
    text: &mut Vec<u8>,
    behind: u64,
    prepared: u64,
) -> Result<(), AllocError>
    ensures { OnOk result (text.new.items ≡ text.old.items ++ left_text behind prepared) }
{
    if behind == 0 {
        return Ok(());
    }
    push_number(alloc, text, ", ", behind)?;
    push_number(alloc, text, " records behind it, ", prepared)?;
    text.extend_from_slice(b" branches prepared in them")
}

/// Adds the line that tells which of two files isn't a log's.
#[tactic(auto, unfolding(crate::specs::Lines::unfit_text))]
fn push_unfit(text: &mut Vec<u8>, path: &str, unfit: Unfit) -> Result<(), AllocError>
    ensures { OnOk result (text.new.items ≡ text.old.items ++ unfit_text path.now unfit) }
{
    match unfit {
        Unfit::Neither => Ok(()),
        Unfit::MissingFirst => push_missing(text, path, false),
        Unfit::MissingSecond => push_missing(text, path, true),
        Unfit::StrayFirst => push_stray(text, path, false),
        Unfit::StraySecond => push_stray(text, path, true),
    }
}

#[tactic(auto, unfolding(crate::specs::Lines::missing_text))]
fn push_missing(text: &mut Vec<u8>, path: &str, is_second: bool) -> Result<(), AllocError>
    ensures { OnOk result (text.new.items ≡ text.old.items ++ missing_text path.now is_second) }
{
    text.extend_from_slice(b"log file missing or empty: ")?;
    push_file(text, path, is_second)?;
    text.push(b'\n')?;
    Ok(())
}

#[tactic(auto, unfolding(crate::specs::Lines::stray_text))]
fn push_stray(text: &mut Vec<u8>, path: &str, is_second: bool) -> Result<(), AllocError>
    ensures { OnOk result (text.new.items ≡ text.old.items ++ stray_text path.now is_second) }
{
    push_file(text, path, is_second)?;
    push_ended(text, ": not a log, and not empty")
}

/// Adds some words and a line's end.
fn push_ended(text: &mut Vec<u8>, words: &str) -> Result<(), AllocError>
    ensures { OnOk result (text.new.items ≡ text.old.items ++ words.now ++ 10 ∷ []) }
{
    text.extend_from_slice(words.as_bytes())?;
    text.push(b'\n')?;
    Ok(())
}

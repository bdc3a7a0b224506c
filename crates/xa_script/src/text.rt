//! Bytes as text in quotes.
ghost use Rattle.std.specs.Prelude.{◌≡◌, ◌++◌, ◌&&◌, ◌||◌, IfOk, OnOk, nat_eq, nat_le};
ghost use Rattle.xa_script.specs.Hexadecimal.{byte_of};
ghost use Rattle.xa_script.specs.Texts.{is_end, is_marked, is_plain, next_of, quoted, spelled, spelled_byte, text_by};

use crate::hexadecimal::{push_digits, read_byte};
use std::alloc::{AllocError, Global};
use xa_codes::Bytes;

/// Where the reading of a text is.
#[derive(Clone, Copy, Debug, PartialEq, Eq)]
pub enum Stage {
    /// Between two bytes' spellings.
    Between,
    /// Behind a backslash.
    Escaped,
    /// Behind `\x`.
    Hexadecimal,
    /// Behind `\x` and its first digit.
    Digit(u8),
    /// Behind the quote that ends the text.
    Ended,
}

/// The bytes of a text, after the quote that begins it.
pub fn read_text(alloc: Global, text: &[u8]) -> Result<Option<Bytes>, AllocError>
    ensures { IfOk result (λ bytes. bytes ≡ text_by Stage.Between text.now) }
{
    let mut bytes = Vec::new(alloc);
    let mut stage = Stage::Between;
    for character in text {
        let Some((next, byte)) = next_of(stage, *character) else {
            return Ok(None);
        };
        if let Some(byte) = byte {
            bytes.push(byte)?;
        }
        stage = next;
    }
    if is_end(stage) {
        Ok(Some(Bytes::new(bytes)))
    } else {
        Ok(None)
    }
}

fn is_end(stage: Stage) -> bool
    ensures { result ≡ is_end stage }
{
    match stage {
        Stage::Ended => true,
        _ => false,
    }
}

/// Where the reading is after one more character, and the byte that it ends the spelling of.
fn next_of(stage: Stage, character: u8) -> Option<(Stage, Option<u8>)>
    ensures { result ≡ next_of stage character }
{
    match stage {
        Stage::Between => next_between(character),
        Stage::Escaped => next_escaped(character),
        Stage::Hexadecimal => Some((Stage::Digit(character), None)),
        Stage::Digit(high) => {
            let byte = read_byte(high, character)?;
            Some((Stage::Between, Some(byte)))
        }
        Stage::Ended => None,
    }
}

fn next_between(character: u8) -> Option<(Stage, Option<u8>)>
    ensures { result ≡ next_of Stage.Between character }
{
    if is_plain(character) {
        Some((Stage::Between, Some(character)))
    } else if character == b'"' {
        Some((Stage::Ended, None))
    } else if character == b'\\' {
        Some((Stage::Escaped, None))
    } else {
        None
    }
}

fn next_escaped(character: u8) -> Option<(Stage, Option<u8>)>
    ensures { result ≡ next_of Stage.Escaped character }
{
    if is_marked(character) {
        Some((Stage::Between, Some(character)))
    } else if character == b'x' {
        Some((Stage::Hexadecimal, None))
    } else {
        None
    }
}

/// Adds bytes as text in quotes.
pub fn push_quoted(text: &mut Vec<u8>, bytes: &[u8]) -> Result<(), AllocError>
    ensures { OnOk result (text.new.items ≡ text.old.items ++ quoted bytes.now) }
{
    text.push(b'"')?;
    push_spelled(text, bytes)?;
    text.push(b'"')?;
    Ok(())
}

/// Adds bytes as a text has them between its quotes.
pub fn push_spelled(text: &mut Vec<u8>, bytes: &[u8]) -> Result<(), AllocError>
    ensures { OnOk result (text.new.items ≡ text.old.items ++ spelled bytes.now) }
{
    for byte in bytes {
        push_byte(text, *byte)?;
    }
    Ok(())
}

fn push_byte(text: &mut Vec<u8>, byte: u8) -> Result<(), AllocError>
    ensures { OnOk result (text.new.items ≡ text.old.items ++ spelled_byte byte) }
{
    if is_plain(byte) {
        text.push(byte)?;
        return Ok(());
    }
    text.push(b'\\')?;
    if is_marked(byte) {
        text.push(byte)?;
        return Ok(());
    }
    text.push(b'x')?;
    push_digits(text, &[byte])
}

/// Whether a byte stands for itself: from a blank to `~`, but a quote and a backslash.
fn is_plain(byte: u8) -> bool
    ensures { result ≡ is_plain byte }
{
    (byte == b' ' || byte.is_ascii_graphic()) && !is_marked(byte)
}

/// Whether a byte stands after a backslash.
fn is_marked(byte: u8) -> bool
    ensures { result ≡ is_marked byte }
{
    byte == b'"' || byte == b'\\'
}

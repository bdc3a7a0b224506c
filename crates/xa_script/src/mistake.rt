//! What is told of a line that asks nothing.
use crate::call_effect::read_effect;
use crate::flags::read_flags;
use crate::line::without_return;
use crate::numbers::{read_byte_count, read_call_number, read_count, read_moment, read_number};
use crate::request::{is_name, read_direction, read_key, read_value};
use crate::text::push_spelled;
use crate::verb::read_verb;
use crate::words::{first_word, is_unended};
use std::alloc::{AllocError, Global};
use xa_codes::Call;
use xa_xid::Xid;

/// What a word of a line is.
#[derive(Clone, Copy, Debug, PartialEq, Eq)]
enum Part {
    Flags,
    Name,
    Xid,
    Count,
    Moment,
    Key,
    Value,
    Direction,
    DeviceCall,
    Effect,
    Bytes,
    Session,
}

/// Why a line asks nothing, as it is told to people: which word isn't as it has to be, and that word. Lines for disks in
/// memory ask something only where there are such disks.
pub fn mistake_text(alloc: Global, line: &[u8], has_disks: bool) -> Result<Vec<u8>, AllocError> {
    let (first, behind) = first_word(without_return(line));
    if is_for_disks(first) {
        return if has_disks {
            disks_mistake(alloc, first, behind)
        } else {
            told(alloc, "only xarm play has disks", first)
        };
    }
    let Some(asked) = behind else {
        return told(alloc, "line", first);
    };
    if read_number(first).is_none() {
        return told(alloc, "session", first);
    }
    let (verb, words) = first_word(asked);
    match read_verb(verb) {
        Some(call) => first_mistake(alloc, parts_of(call), words),
        None if verb == b"disconnect".as_slice() => first_mistake(alloc, &[Part::Session], words),
        None if verb == b"sessions".as_slice() => first_mistake(alloc, &[Part::Xid], words),
        None if is_bare(verb) => told(alloc, "too many words", words.unwrap_or(verb)),
        None => told(alloc, "call", verb),
    }
}

/// The same of a line for disks in memory, by its first word and those after it.
fn disks_mistake(alloc: Global, first: &[u8], words: Option<&[u8]>) -> Result<Vec<u8>, AllocError> {
    let parts = disk_parts(first);
    match words.map(first_word) {
        Some((word, others)) if word == b"other".as_slice() && !parts.is_empty() => {
            first_mistake(alloc, parts, others)
        }
        _ => first_mistake(alloc, parts, words),
    }
}

/// What stands after such a first word, but for the one that names the other file.
fn disk_parts(word: &[u8]) -> &'static [Part] {
    if word == b"fail".as_slice() {
        &[Part::DeviceCall, Part::Effect]
    } else if word == b"stop".as_slice() {
        &[Part::DeviceCall]
    } else if word == b"crash".as_slice() {
        &[Part::Bytes]
    } else {
        &[]
    }
}

/// Whether a word begins a line for disks in memory.
fn is_for_disks(word: &[u8]) -> bool {
    word == b"fail".as_slice()
        || word == b"stop".as_slice()
        || word == b"reopen".as_slice()
        || word == b"crash".as_slice()
}

/// Whether a word is asked alone.
fn is_bare(verb: &[u8]) -> bool {
    verb == b"hangup".as_slice()
        || verb == b"status".as_slice()
        || verb == b"shutdown".as_slice()
        || verb == b"hello".as_slice()
        || verb == b"metrics".as_slice()
}

/// The first word that isn't as such parts have to be.
fn first_mistake(
    alloc: Global,
    parts: &[Part],
    words: Option<&[u8]>,
) -> Result<Vec<u8>, AllocError> {
    let mut rest = words;
    for part in parts {
        let Some(others) = rest else {
            return told(alloc, part_name(*part), b"");
        };
        let (word, behind) = first_word(others);
        if !is_read(alloc, *part, word)? {
            return told(alloc, mistake_name(*part, word), word);
        }
        rest = behind;
    }
    told(alloc, "too many words", rest.unwrap_or(b""))
}

/// What stands after a call. Behind branches an XID may stand, too.
fn parts_of(call: Call) -> &'static [Part] {
    match call {
        Call::Open => &[Part::Flags, Part::Name],
        Call::Close => &[Part::Flags],
        Call::Start | Call::End | Call::Prepare | Call::Commit | Call::Rollback | Call::Forget => &[
            Part::Flags,
            Part::Xid,
        ],
        Call::Recover => &[Part::Flags, Part::Count],
        Call::Get | Call::Delete => &[Part::Key],
        Call::Put => &[Part::Key, Part::Value],
        Call::Decide => &[Part::Direction, Part::Xid],
        Call::Doom => &[Part::Xid],
        Call::Restart | Call::Trim => &[],
        Call::Timeout => &[Part::Count],
        Call::Tick => &[Part::Moment],
        Call::Branches => &[Part::Count, Part::Xid],
    }
}

fn part_name(part: Part) -> &'static str {
    match part {
        Part::Flags => "flags",
        Part::Name => "name",
        Part::Xid => "XID",
        Part::Count => "number",
        Part::Moment => "moment",
        Part::Key => "key",
        Part::Value => "value",
        Part::Direction => "direction",
        Part::DeviceCall => "device call",
        Part::Effect => "effect",
        Part::Bytes => "bytes",
        Part::Session => "session",
    }
}

/// What is wrong with a word that isn't such a part.
fn mistake_name(part: Part, word: &[u8]) -> &'static str {
    match part {
        Part::Key | Part::Value if is_unended(word) => "no quote at the end",
        _ => part_name(part),
    }
}

/// Whether a word is such a part.
fn is_read(alloc: Global, part: Part, word: &[u8]) -> Result<bool, AllocError> {
    Ok(match part {
        Part::Flags => read_flags(word).is_some(),
        Part::Name => is_name(word),
        Part::Xid => Xid::take_text(word).is_some(),
        Part::Count => read_count(word).is_some(),
        Part::Moment => read_moment(word).is_some(),
        Part::Key => read_key(alloc, word)?.is_some(),
        Part::Value => read_value(alloc, word)?.is_some(),
        Part::Direction => read_direction(word).is_some(),
        Part::DeviceCall => read_call_number(word).is_some(),
        Part::Effect => read_effect(word).is_some(),
        Part::Bytes => read_byte_count(word).is_some(),
        Part::Session => read_number(word).is_some(),
    })
}

/// What is wrong, and the word: at most its first bytes, each as in a text.
fn told(alloc: Global, what: &str, word: &[u8]) -> Result<Vec<u8>, AllocError> {
    let mut text = Vec::new(alloc);
    text.extend_from_slice(what.as_bytes())?;
    text.extend_from_slice(b": ")?;
    let shown = match word.split_at_checked(MOST_SHOWN) {
        Some((front, _)) => front,
        None => word,
    };
    if shown.is_empty() {
        text.extend_from_slice(b"missing")?;
    }
    push_spelled(&mut text, shown)?;
    Ok(text)
}

// How many bytes of a word are shown.
const MOST_SHOWN: usize = 100;

//! The line that asks something of a session.
ghost use Rattle.std.specs.Prelude.{◌≡◌, ◌∷◌, ◌++◌, [], IfOk, OnOk, codes};
ghost use Rattle.std.specs.Fmt.{decimal};
ghost use Rattle.std.specs.Option.{option_map};
ghost use Rattle.xa_xid.specs.Spelling.{hex, text_of};
ghost use Rattle.xa_script.specs.Asking.{cursor_words, direction_text, flags_name, flags_text, info_text, request_line};
ghost use Rattle.xa_script.specs.Asking.{words_of, words_text};
ghost use Rattle.xa_script.specs.Replies.{value_text};

use crate::hexadecimal::push_digits;
use crate::reply::{push_number, push_value, push_word};
use crate::request::is_name;
use arrayvec::ArrayVec;
use std::alloc::{AllocError, Global};
use xa_codes::{
    Direction, TMASYNC, TMENDRSCAN, TMFAIL, TMJOIN, TMMIGRATE, TMMULTIPLE, TMNOFLAGS, TMNOWAIT,
    TMONEPHASE, TMRESUME, TMSTARTRSCAN, TMSUCCESS, TMSUSPEND,
};
use xa_frame::Request;
use xa_xid::{MOST_TEXT, Xid};

/// A scan of all XIDs in one call (C193).
const WHOLE_SCAN: u32 = TMSTARTRSCAN | TMENDRSCAN;
/// A suspension after which any session may go on (C193).
const SUSPENDED_LOOSE: u32 = TMSUSPEND | TMMIGRATE;

/// The line that asks this of a session, without the line's end, as `read_line` reads it. The info of an Open stands in
/// it if it is a name, which is all that a script spells, and else `?`.
pub fn request_line(alloc: Global, session: u64, request: &Request) -> Result<Vec<u8>, AllocError>
    ensures { IfOk result (λ line. line.items ≡ request_line session request.now) }
{
    let mut line = format!(in alloc; "{session}")?.into_bytes();
    push_request(alloc, &mut line, request)?;
    Ok(line)
}

/// Adds the verb of a request and the words after it, each after a blank.
fn push_request(alloc: Global, line: &mut Vec<u8>, request: &Request) -> Result<(), AllocError>
    ensures { OnOk result (line.new.items ≡ line.old.items ++ words_text (words_of request.now)) }
{
    match request {
        Request::Open { flags, info } => push_open(line, *flags, info.as_slice()),
        Request::Close { flags } => push_close(line, *flags),
        Request::Start { flags, xid } => push_branch(line, b"start", *flags, xid),
        Request::End { flags, xid } => push_branch(line, b"end", *flags, xid),
        Request::Prepare { flags, xid } => push_branch(line, b"prepare", *flags, xid),
        Request::Commit { flags, xid } => push_branch(line, b"commit", *flags, xid),
        Request::Rollback { flags, xid } => push_branch(line, b"rollback", *flags, xid),
        Request::Forget { flags, xid } => push_branch(line, b"forget", *flags, xid),
        Request::Recover { flags, count } => push_recover(alloc, line, *flags, *count),
        Request::Get { key } => push_key(line, b"get", key.as_slice()),
        Request::Put { key, value } => push_put(line, key.as_slice(), value.as_slice()),
        Request::Delete { key } => push_key(line, b"delete", key.as_slice()),
        Request::Decide { direction, xid } => push_decide(line, *direction, xid),
        Request::Doom { xid } => push_doom(line, xid),
        Request::Restart => push_word(line, b"restart"),
        Request::Timeout { seconds } => push_counted(alloc, line, b"timeout", u64::from(*seconds)),
        Request::Tick { moment } => push_counted(alloc, line, b"tick", *moment),
        Request::Trim => push_word(line, b"trim"),
        Request::Branches { count, after } => push_listing(alloc, line, *count, after),
    }
}

fn push_open(line: &mut Vec<u8>, flags: u32, info: &[u8]) -> Result<(), AllocError>
    ensures { OnOk result (line.new.items
        ≡ line.old.items ++ words_text (codes "open" ∷ flags_text flags ∷ info_text info.now ∷ [])) }
{
    push_word(line, b"open")?;
    push_flags(line, flags)?;
    if is_name(info) {
        push_word(line, info)
    } else {
        push_word(line, b"?")
    }
}

fn push_close(line: &mut Vec<u8>, flags: u32) -> Result<(), AllocError>
    ensures { OnOk result (line.new.items ≡ line.old.items ++ words_text (codes "close" ∷ flags_text flags ∷ [])) }
{
    push_word(line, b"close")?;
    push_flags(line, flags)
}

/// Adds a verb, flags and an XID.
fn push_branch(line: &mut Vec<u8>, verb: &[u8], flags: u32, xid: &Xid) -> Result<(), AllocError>
    ensures { OnOk result (line.new.items
        ≡ line.old.items ++ words_text (verb.now ∷ flags_text flags ∷ text_of xid.now ∷ [])) }
{
    push_word(line, verb)?;
    push_flags(line, flags)?;
    push_xid(line, xid)
}

fn push_recover(alloc: Global, line: &mut Vec<u8>, flags: u32, count: u32) -> Result<(), AllocError>
    ensures { OnOk result (line.new.items
        ≡ line.old.items ++ words_text (codes "recover" ∷ flags_text flags ∷ decimal count ∷ [])) }
{
    push_word(line, b"recover")?;
    push_flags(line, flags)?;
    push_number(alloc, line, u64::from(count))
}

/// Adds a verb and a key.
fn push_key(line: &mut Vec<u8>, verb: &[u8], key: &[u8]) -> Result<(), AllocError>
    ensures { OnOk result (line.new.items ≡ line.old.items ++ words_text (verb.now ∷ hex key.now ∷ [])) }
{
    push_word(line, verb)?;
    line.push(b' ')?;
    push_digits(line, key)
}

fn push_put(line: &mut Vec<u8>, key: &[u8], value: &[u8]) -> Result<(), AllocError>
    ensures { OnOk result (line.new.items
        ≡ line.old.items ++ words_text (codes "put" ∷ hex key.now ∷ value_text value.now ∷ [])) }
{
    push_key(line, b"put", key)?;
    line.push(b' ')?;
    push_value(line, value)
}

fn push_decide(line: &mut Vec<u8>, direction: Direction, xid: &Xid) -> Result<(), AllocError>
    ensures { OnOk result (line.new.items
        ≡ line.old.items ++ words_text (codes "decide" ∷ direction_text direction ∷ text_of xid.now ∷ [])) }
{
    push_word(line, b"decide")?;
    push_word(line, direction_text(direction))?;
    push_xid(line, xid)
}

fn direction_text(direction: Direction) -> &'static [u8]
    ensures { result.now ≡ direction_text direction }
{
    match direction {
        Direction::Commit => b"commit",
        Direction::Rollback => b"rollback",
    }
}

fn push_doom(line: &mut Vec<u8>, xid: &Xid) -> Result<(), AllocError>
    ensures { OnOk result (line.new.items ≡ line.old.items ++ words_text (codes "doom" ∷ text_of xid.now ∷ [])) }
{
    push_word(line, b"doom")?;
    push_xid(line, xid)
}

/// Adds a verb and a number.
fn push_counted(
    alloc: Global,
    line: &mut Vec<u8>,
    verb: &[u8],
    number: u64,
) -> Result<(), AllocError>
    ensures { OnOk result (line.new.items ≡ line.old.items ++ words_text (verb.now ∷ decimal number ∷ [])) }
{
    push_word(line, verb)?;
    push_number(alloc, line, number)
}

fn push_listing(
    alloc: Global,
    line: &mut Vec<u8>,
    count: u32,
    after: &Option<Xid>,
) -> Result<(), AllocError>
    ensures { OnOk result (line.new.items
        ≡ line.old.items ++ words_text (codes "branches" ∷ decimal count ∷ cursor_words after.now)) }
{
    push_counted(alloc, line, b"branches", u64::from(count))?;
    match after {
        None => Ok(()),
        Some(xid) => push_xid(line, xid),
    }
}

/// Adds the text of an XID after a blank.
fn push_xid(line: &mut Vec<u8>, xid: &Xid) -> Result<(), AllocError>
    ensures { OnOk result (line.new.items ≡ line.old.items ++ 32 ∷ text_of xid.now) }
{
    let mut text: ArrayVec<u8, MOST_TEXT> = ArrayVec::new();
    xid.put_text(&mut text);
    push_word(line, text.as_slice())
}

/// Adds flags after a blank: by names where they have a text of names, and else as eight hexadecimal digits.
fn push_flags(line: &mut Vec<u8>, flags: u32) -> Result<(), AllocError>
    ensures { OnOk result (line.new.items ≡ line.old.items ++ 32 ∷ flags_text flags) }
{
    if let Some(names) = flags_name(flags) {
        return push_word(line, names.as_bytes());
    }
    push_word(line, b"0x")?;
    push_digits(line, &flags.to_be_bytes())
}

/// The text of flags that go by names.
fn flags_name(flags: u32) -> Option<&'static str>
    ensures { option_map (λ name. name.now) result ≡ flags_name flags }
{
    match flags {
        TMNOFLAGS => Some("TMNOFLAGS"),
        WHOLE_SCAN => Some("TMSTARTRSCAN|TMENDRSCAN"),
        SUSPENDED_LOOSE => Some("TMSUSPEND|TMMIGRATE"),
        TMASYNC => Some("TMASYNC"),
        TMONEPHASE => Some("TMONEPHASE"),
        TMFAIL => Some("TMFAIL"),
        TMNOWAIT => Some("TMNOWAIT"),
        TMRESUME => Some("TMRESUME"),
        TMSUCCESS => Some("TMSUCCESS"),
        TMSUSPEND => Some("TMSUSPEND"),
        TMSTARTRSCAN => Some("TMSTARTRSCAN"),
        TMENDRSCAN => Some("TMENDRSCAN"),
        TMMULTIPLE => Some("TMMULTIPLE"),
        TMJOIN => Some("TMJOIN"),
        TMMIGRATE => Some("TMMIGRATE"),
        _ => None,
    }
}

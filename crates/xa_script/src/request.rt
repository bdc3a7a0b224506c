ghost use Rattle.std.specs.Option.{option_copied, option_map};
ghost use Rattle.std.specs.Prelude.{◌≡◌, ℕ, IfOk, IfSome, List, Option, Some, option_and_then};
ghost use Rattle.xa_frame.specs.declared.request.Request.{Request};
ghost use Rattle.xa_frame.specs.Limits.{IsKey, IsRequest, IsValue};
ghost use Rattle.xa_xid.specs.Triple.{Triple};
ghost use Rattle.xa_script.specs.{Flags.flags_of, Numbers.count_of, Numbers.moment_of};
ghost use Rattle.xa_script.specs.Requests.{ReadsTexts, branch_pair, branches_by, cursor_of, direction_of, is_graphic};
ghost use Rattle.xa_script.specs.Requests.{between, is_name, key_of, open_by, put_by, request_of, value_of};
ghost use Rattle.xa_script.specs.Texts.{is_quoted, text_of};
ghost use Rattle.xa_script.specs.Words.{alone, by_one, by_two, one_of, words_behind};

use crate::flags::read_flags;
use crate::hexadecimal::read_bytes;
use crate::numbers::{read_count, read_moment};
use crate::text::read_text;
use crate::words::{first_word, only_word, two_words};
use std::alloc::{AllocError, Global};
use xa_codes::{Bytes, Call, Direction};
use xa_fields::Key;
use xa_frame::Request;
use xa_limits::{MOST_INFO, MOST_KEY, MOST_VALUE};
use xa_xid::Xid;

/// The request of a call and the words after it, where they are as it wants them.
pub fn read_request(
    alloc: Global,
    call: Call,
    words: Option<&[u8]>,
) -> Result<Option<Request>, AllocError>
    ensures value { (xid_of : List ℕ → Option Triple) → ReadsTexts xid_of →
        IfOk result (λ request. request ≡ request_of xid_of call (words_behind (option_copied words.entry))) }
    ensures limits { IfOk result (λ request. IfSome request IsRequest) }
{
    match call {
        Call::Open => read_open(alloc, words),
        Call::Close => Ok(read_close(words)),
        Call::Start => Ok(read_branch(words).map(|(flags, xid)| Request::Start { flags, xid })),
        Call::End => Ok(read_branch(words).map(|(flags, xid)| Request::End { flags, xid })),
        Call::Prepare => Ok(read_branch(words).map(|(flags, xid)| Request::Prepare { flags, xid })),
        Call::Commit => Ok(read_branch(words).map(|(flags, xid)| Request::Commit { flags, xid })),
        Call::Rollback => {
            Ok(read_branch(words).map(|(flags, xid)| Request::Rollback { flags, xid }))
        }
        Call::Forget => Ok(read_branch(words).map(|(flags, xid)| Request::Forget { flags, xid })),
        Call::Recover => Ok(read_recover(words)),
        Call::Get => Ok(read_only_key(alloc, words)?.map(|key| Request::Get { key })),
        Call::Put => read_put(alloc, words),
        Call::Delete => Ok(read_only_key(alloc, words)?.map(|key| Request::Delete { key })),
        Call::Decide => Ok(read_decide(words)),
        Call::Doom => Ok(read_doom(words)),
        Call::Restart => Ok(read_alone(Request::Restart, words)),
        Call::Timeout => Ok(read_timeout(words)),
        Call::Tick => Ok(read_tick(words)),
        Call::Trim => Ok(read_alone(Request::Trim, words)),
        Call::Branches => Ok(read_branches(words)),
    }
}

fn read_branch(words: Option<&[u8]>) -> Option<(u32, Xid)>
    ensures { (xid_of : List ℕ → Option Triple) → ReadsTexts xid_of →
        result ≡ branch_pair xid_of (words_behind (option_copied words.entry)) }
{
    let (flags, xid) = two_words(words)?;
    Some((read_flags(flags)?, Xid::take_text(xid)?))
}

fn read_close(words: Option<&[u8]>) -> Option<Request>
    ensures { result ≡ by_one flags_of (λ flags. Request.Close flags) (words_behind (option_copied words.entry)) }
{
    let flags = read_flags(only_word(words)?)?;
    Some(Request::Close { flags })
}

fn read_recover(words: Option<&[u8]>) -> Option<Request>
    ensures value { result ≡ by_two flags_of count_of (λ flags count. Request.Recover flags count) (words_behind (option_copied words.entry)) }
    ensures limits { IfSome result IsRequest }
{
    let (flags, count) = two_words(words)?;
    Some(Request::Recover {
        flags: read_flags(flags)?,
        count: read_count(count)?,
    })
}

fn read_decide(words: Option<&[u8]>) -> Option<Request>
    ensures value { (xid_of : List ℕ → Option Triple) → ReadsTexts xid_of →
        result ≡ by_two direction_of xid_of (λ direction xid. Request.Decide direction xid) (words_behind (option_copied words.entry)) }
    ensures limits { IfSome result IsRequest }
{
    let (direction, xid) = two_words(words)?;
    Some(Request::Decide {
        direction: read_direction(direction)?,
        xid: Xid::take_text(xid)?,
    })
}

pub fn read_direction(word: &[u8]) -> Option<Direction>
    ensures { result ≡ direction_of word.now }
{
    if word == b"commit".as_slice() {
        Some(Direction::Commit)
    } else if word == b"rollback".as_slice() {
        Some(Direction::Rollback)
    } else {
        None
    }
}

/// The request, if no words stand after its call.
fn read_alone(request: Request, words: Option<&[u8]>) -> Option<Request>
    requires { IsRequest request }
    ensures value { result ≡ alone request (words_behind (option_copied words.entry)) }
    ensures limits { IfSome result IsRequest }
{
    match words {
        None => Some(request),
        Some(_) => None,
    }
}

fn read_timeout(words: Option<&[u8]>) -> Option<Request>
    ensures value { result ≡ by_one count_of (λ seconds. Request.Timeout seconds) (words_behind (option_copied words.entry)) }
    ensures limits { IfSome result IsRequest }
{
    let seconds = read_count(only_word(words)?)?;
    Some(Request::Timeout { seconds })
}

fn read_tick(words: Option<&[u8]>) -> Option<Request>
    ensures value { result ≡ by_one moment_of (λ moment. Request.Tick moment) (words_behind (option_copied words.entry)) }
    ensures limits { IfSome result IsRequest }
{
    let moment = read_moment(only_word(words)?)?;
    Some(Request::Tick { moment })
}

/// A count, and an XID or none.
fn read_branches(words: Option<&[u8]>) -> Option<Request>
    ensures value { (xid_of : List ℕ → Option Triple) → ReadsTexts xid_of →
        result ≡ branches_by xid_of (words_behind (option_copied words.entry)) }
    ensures limits { IfSome result IsRequest }
{
    let (count, rest) = first_word(words?);
    let count = read_count(count)?;
    let after = read_cursor(rest)?;
    Some(Request::Branches { count, after })
}

fn read_cursor(words: Option<&[u8]>) -> Option<Option<Xid>>
    ensures { (xid_of : List ℕ → Option Triple) → ReadsTexts xid_of →
        result ≡ cursor_of xid_of (words_behind (option_copied words.entry)) }
{
    match words {
        None => Some(None),
        Some(_) => {
            let xid = read_xid(words)?;
            Some(Some(xid))
        }
    }
}

fn read_xid(words: Option<&[u8]>) -> Option<Xid>
    ensures { (xid_of : List ℕ → Option Triple) → ReadsTexts xid_of →
        result ≡ option_and_then xid_of (one_of (words_behind (option_copied words.entry))) }
{
    Xid::take_text(only_word(words)?)
}

fn read_doom(words: Option<&[u8]>) -> Option<Request>
    ensures value { (xid_of : List ℕ → Option Triple) → ReadsTexts xid_of →
        result ≡ by_one xid_of (λ xid. Request.Doom xid) (words_behind (option_copied words.entry)) }
    ensures limits { IfSome result IsRequest }
{
    let xid = Xid::take_text(only_word(words)?)?;
    Some(Request::Doom { xid })
}

fn read_open(alloc: Global, words: Option<&[u8]>) -> Result<Option<Request>, AllocError>
    ensures value { IfOk result (λ request. request ≡ open_by (words_behind (option_copied words.entry))) }
    ensures limits { IfOk result (λ request. IfSome request IsRequest) }
{
    let Some((flags, name)) = two_words(words) else {
        return Ok(None);
    };
    if !is_name(name) {
        return Ok(None);
    }
    let Some(flags) = read_flags(flags) else {
        return Ok(None);
    };
    let info = Bytes::from_slice(alloc, name)?;
    Ok(Some(Request::Open { flags, info }))
}

/// Whether a word is a name: 1 to `MOST_INFO` bytes from `!` to `~`.
pub fn is_name(word: &[u8]) -> bool
    ensures { result ≡ is_name word.now }
{
    !word.is_empty() && word.len() <= MOST_INFO && is_graphic(word)
}

fn is_graphic(word: &[u8]) -> bool
    ensures { result ≡ is_graphic word.now }
{
    word.iter().all(|byte| byte.is_ascii_graphic())
}

/// The key, if it is all of the words.
fn read_only_key(alloc: Global, words: Option<&[u8]>) -> Result<Option<Key>, AllocError>
    ensures value { IfOk result
        (λ key. key ≡ option_and_then key_of (one_of (words_behind (option_copied words.entry)))) }
    ensures limits { IfOk result (λ key. IfSome key IsKey) }
{
    match only_word(words) {
        Some(word) => read_key(alloc, word),
        None => Ok(None),
    }
}

fn read_put(alloc: Global, words: Option<&[u8]>) -> Result<Option<Request>, AllocError>
    ensures value { IfOk result (λ request. request ≡ put_by (words_behind (option_copied words.entry))) }
    ensures limits { IfOk result (λ request. IfSome request IsRequest) }
{
    let Some((key, value)) = two_words(words) else {
        return Ok(None);
    };
    let Some(key) = read_key(alloc, key)? else {
        return Ok(None);
    };
    Ok(read_value(alloc, value)?.map(|value| Request::Put { key, value }))
}

/// A key of 1 to `MOST_KEY` bytes.
pub fn read_key(alloc: Global, word: &[u8]) -> Result<Option<Key>, AllocError>
    ensures value { IfOk result (λ key. key ≡ key_of word.now) }
    ensures limits { IfOk result (λ key. IfSome key IsKey) }
{
    if is_quoted(word) {
        return read_key_text(alloc, word);
    }
    if word.is_empty() || word.len() > 2 * MOST_KEY {
        return Ok(None);
    }
    match read_bytes(alloc, word)? {
        Some(bytes) => Ok(made_key(bytes.as_slice())),
        None => Ok(None),
    }
}

/// A key as text in quotes.
fn read_key_text(alloc: Global, word: &[u8]) -> Result<Option<Key>, AllocError>
    ensures value { IfOk result (λ key. key ≡ option_and_then (between 1 MOST_KEY) (text_of word.now)) }
    ensures limits { IfOk result (λ key. IfSome key IsKey) }
{
    match read_quoted(alloc, word)? {
        Some(bytes) => Ok(limited_key(bytes.as_slice())),
        None => Ok(None),
    }
}

/// The key with these bytes, if they are as many as a key has.
fn limited_key(bytes: &[u8]) -> Option<Key>
    ensures value { result ≡ between 1 MOST_KEY bytes.now }
    ensures limits { IfSome result IsKey }
{
    if bytes.is_empty() || bytes.len() > MOST_KEY {
        None
    } else {
        made_key(bytes)
    }
}

/// Whether a word is text in quotes.
fn is_quoted(word: &[u8]) -> bool
    ensures { result ≡ is_quoted word.now }
{
    !word.is_empty() && word[0] == b'"'
}

/// The bytes of text in quotes, after the quote that begins it.
fn read_quoted(alloc: Global, word: &[u8]) -> Result<Option<Bytes>, AllocError>
    ensures { IfOk result (λ bytes. bytes ≡ text_of word.now) }
{
    match word.split_first() {
        Some((_, text)) => read_text(alloc, text),
        None => Ok(None),
    }
}

/// The key with these bytes.
#[tactic(auto, using(crate::proofs::Keys::is_made))]
fn made_key(bytes: &[u8]) -> Option<Key>
    requires { IsKey bytes.now }
    ensures { result ≡ Some bytes.now }
{
    Key::new(bytes)
}

/// A value of at most `MOST_VALUE` bytes. The empty one is `-`.
pub fn read_value(alloc: Global, word: &[u8]) -> Result<Option<Bytes>, AllocError>
    ensures value { IfOk result (λ value. value ≡ value_of word.now) }
    ensures limits { IfOk result (λ value. IfSome value IsValue) }
{
    if is_quoted(word) {
        return read_value_text(alloc, word);
    }
    if word == b"-".as_slice() {
        return Ok(Some(Bytes::new(Vec::new(alloc))));
    }
    if word.is_empty() || word.len() > 2 * MOST_VALUE {
        return Ok(None);
    }
    read_bytes(alloc, word)
}

/// A value as text in quotes.
fn read_value_text(alloc: Global, word: &[u8]) -> Result<Option<Bytes>, AllocError>
    ensures value { IfOk result (λ value. value ≡ option_and_then (between 0 MOST_VALUE) (text_of word.now)) }
    ensures limits { IfOk result (λ value. IfSome value IsValue) }
{
    match read_quoted(alloc, word)? {
        Some(bytes) => Ok(limited_value(bytes)),
        None => Ok(None),
    }
}

/// A value, if it isn't too long.
fn limited_value(bytes: Bytes) -> Option<Bytes>
    ensures value { result ≡ between 0 MOST_VALUE bytes }
    ensures limits { IfSome result IsValue }
{
    if bytes.as_slice().len() > MOST_VALUE {
        None
    } else {
        Some(bytes)
    }
}

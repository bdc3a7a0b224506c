ghost use Rattle.std.specs.Io.BufRead.{strip_last};
ghost use Rattle.std.specs.Option.{option_copied};
ghost use Rattle.std.specs.Prelude.{◌≡◌, ◌≢◌, ◌∷◌, [], ℕ, IfOk, IfSome, List, Option, false, unwrap_or};
ghost use Rattle.xa_xid.specs.Triple.{Triple};
ghost use Rattle.xa_script.specs.Lines.{IsWithinLimits, asked_of, asks_of, by_file, by_words, call_of, crash_of, disconnect_of};
ghost use Rattle.xa_script.specs.Lines.{fail_of, file_of, line_of, said_of, sessions_of, sole_of, stop_of};
ghost use Rattle.xa_script.specs.Requests.{ReadsTexts};
ghost use Rattle.xa_script.specs.Words.{alone, words, words_behind};

use crate::call_effect::{CallEffect, read_effect};
use crate::log_file::LogFile;
use crate::numbers::{read_byte_count, read_call_number, read_number};
use crate::request::read_request;
use crate::verb::read_verb;
use crate::words::{first_word, only_word, two_words};
use std::alloc::{AllocError, Global};
use xa_control::{Control, Hello, REVISION};
use xa_frame::Request;
use xa_xid::Xid;

/// What a line of a script says.
#[derive(Debug, Drop)]
pub enum Line {
    /// Nothing is done and nothing printed: an empty line or a comment.
    Silent,
    /// No line that is known.
    Unknown,
    Connect,
    /// A session is gone.
    Hangup(u64),
    /// A request of a session.
    Call(u64, Request),
    /// A session asks how the server is doing.
    Status(u64),
    /// A session asks the server something.
    Control(u64, Control),
    /// A device call of a log file's disk is to fail.
    Fail {
        file: LogFile,
        /// Counted from now: 1 is the next one, and 1,000 the last that can be named.
        call: u64,
        effect: CallEffect,
    },
    /// From a device call of a log file's disk on each of them fails, until a crash.
    Stop {
        file: LogFile,
        /// Counted as that of `Fail`.
        call: u64,
    },
    /// The manager is dropped, and opened again on its disks as a read gives them.
    Reopen,
    /// As a reopening, after both disks have lost what no sync made stable, but for some bytes of a log file's.
    Crash {
        file: LogFile,
        /// How many bytes stay of those that were written to it since its last sync, in the order of the writes: at
        /// most 16,777,216.
        keeps: u64,
    },
}

/// What a line says.
pub fn read_line(alloc: Global, line: &[u8]) -> Result<Line, AllocError>
    ensures value { (xid_of : List ℕ → Option Triple) → ReadsTexts xid_of →
        IfOk result (λ said. said ≡ line_of xid_of line.now) }
    ensures limits { IfOk result IsWithinLimits }
{
    read_text_of(alloc, without_return(line))
}

/// A line without the carriage return that ends it, where one does.
pub fn without_return(line: &[u8]) -> &[u8]
    ensures { result.now ≡ strip_last 13 line.now }
{
    let length = line.len();
    if length > 0 && line[length - 1] == b'\r' {
        &line[..length - 1]
    } else {
        line
    }
}

/// What a line says that has no carriage return at its end.
fn read_text_of(alloc: Global, line: &[u8]) -> Result<Line, AllocError>
    ensures value { (xid_of : List ℕ → Option Triple) → ReadsTexts xid_of →
        IfOk result (λ said. said ≡ said_of xid_of line.now) }
    ensures limits { IfOk result IsWithinLimits }
{
    if line.is_empty() || line[0] == b'#' {
        return Ok(Line::Silent);
    }
    match first_word(line) {
        (word, None) => Ok(read_sole(word)),
        (first, Some(others)) => read_words(alloc, first, others),
    }
}

/// What a line says that has one word.
fn read_sole(word: &[u8]) -> Line
    ensures value { result ≡ sole_of word.now }
    ensures limits { IsWithinLimits result }
{
    if word == b"connect".as_slice() {
        Line::Connect
    } else if word == b"reopen".as_slice() {
        Line::Reopen
    } else if word == b"crash".as_slice() {
        Line::Crash {
            file: LogFile::Current,
            keeps: 0,
        }
    } else {
        Line::Unknown
    }
}

/// What a line says that has more than one word.
#[tactic(auto, using(crate::proofs::Places::more_words))]
fn read_words(alloc: Global, first: &[u8], others: &[u8]) -> Result<Line, AllocError>
    ensures value { (xid_of : List ℕ → Option Triple) → ReadsTexts xid_of →
        IfOk result (λ said. said ≡ by_words xid_of (first.now ∷ words others.now)) }
    ensures limits { IfOk result IsWithinLimits }
{
    if first == b"fail".as_slice() {
        Ok(read_fail(others).unwrap_or(Line::Unknown))
    } else if first == b"stop".as_slice() {
        Ok(read_stop(others).unwrap_or(Line::Unknown))
    } else if first == b"crash".as_slice() {
        Ok(read_crash(others).unwrap_or(Line::Unknown))
    } else {
        read_call(alloc, first, others)
    }
}

/// Which log file words speak of, by `other` in front of them, and the words after that.
fn read_file(asked: &[u8]) -> (LogFile, Option<&[u8]>)
    ensures { (result.0, words_behind (option_copied result.1)) ≡ file_of (words asked.now) }
{
    match first_word(asked) {
        (word, others) if word == b"other".as_slice() => (LogFile::Other, others),
        _ => (LogFile::Current, Some(asked)),
    }
}

/// What the words after `fail` ask: a device call that is to fail, and its effect.
fn read_fail(asked: &[u8]) -> Option<Line>
    ensures value { result ≡ by_file fail_of (words asked.now) }
    ensures limits { IfSome result IsWithinLimits }
{
    let (file, plan) = read_file(asked);
    let (call, effect) = two_words(plan)?;
    Some(Line::Fail {
        file,
        call: read_call_number(call)?,
        effect: read_effect(effect)?,
    })
}

/// What the words after `stop` ask: the first device call that is to fail.
fn read_stop(asked: &[u8]) -> Option<Line>
    ensures value { result ≡ by_file stop_of (words asked.now) }
    ensures limits { IfSome result IsWithinLimits }
{
    let (file, call) = read_file(asked);
    let call = read_call_number(only_word(call)?)?;
    Some(Line::Stop { file, call })
}

/// What the words after `crash` ask: how many bytes it keeps.
fn read_crash(asked: &[u8]) -> Option<Line>
    ensures value { result ≡ by_file crash_of (words asked.now) }
    ensures limits { IfSome result IsWithinLimits }
{
    let (file, keeps) = read_file(asked);
    let keeps = read_byte_count(only_word(keeps)?)?;
    Some(Line::Crash { file, keeps })
}

/// What a session's number says, and the words after it.
fn read_call(alloc: Global, session: &[u8], call: &[u8]) -> Result<Line, AllocError>
    ensures value { (xid_of : List ℕ → Option Triple) → ReadsTexts xid_of →
        IfOk result (λ said. said ≡ unwrap_or (asked_of xid_of session.now (words call.now)) Line.Unknown) }
    ensures limits { IfOk result IsWithinLimits }
{
    let (verb, words) = first_word(call);
    let Some(session) = read_number(session) else {
        return Ok(Line::Unknown);
    };
    if verb == b"hangup".as_slice() {
        return Ok(read_bare(Line::Hangup(session), words));
    }
    if verb == b"status".as_slice() {
        return Ok(read_bare(Line::Status(session), words));
    }
    read_asks(alloc, session, verb, words)
}

/// What a session asks of its server, or by the verb of a request, and the words after it.
fn read_asks(
    alloc: Global,
    session: u64,
    verb: &[u8],
    words: Option<&[u8]>,
) -> Result<Line, AllocError>
    ensures value { (xid_of : List ℕ → Option Triple) → ReadsTexts xid_of →
        IfOk result (λ said. said ≡ unwrap_or (asks_of xid_of session verb.now (words_behind (option_copied words.entry))) Line.Unknown) }
    ensures limits { IfOk result IsWithinLimits }
{
    if verb == b"shutdown".as_slice() {
        return Ok(read_bare(Line::Control(session, Control::Shutdown), words));
    }
    if verb == b"hello".as_slice() {
        let hello = Hello {
            revision: REVISION,
            features: 0,
        };
        return Ok(read_bare(Line::Control(session, Control::Hello(hello)), words));
    }
    if verb == b"metrics".as_slice() {
        return Ok(read_bare(Line::Control(session, Control::Metrics), words));
    }
    if verb == b"disconnect".as_slice() {
        return Ok(read_disconnect(session, words).unwrap_or(Line::Unknown));
    }
    if verb == b"sessions".as_slice() {
        return Ok(read_sessions(session, words).unwrap_or(Line::Unknown));
    }
    read_request_of(alloc, session, verb, words)
}

/// What the word after `disconnect` asks: that the session of that number be hung up.
fn read_disconnect(session: u64, words: Option<&[u8]>) -> Option<Line>
    ensures value { result ≡ disconnect_of session (words_behind (option_copied words.entry)) }
    ensures limits { IfSome result IsWithinLimits }
{
    let other = read_number(only_word(words)?)?;
    Some(Line::Control(session, Control::Disconnect(other)))
}

/// What the word after `sessions` asks: which sessions have an association with the branch of that XID.
fn read_sessions(session: u64, words: Option<&[u8]>) -> Option<Line>
    ensures value { (xid_of : List ℕ → Option Triple) → ReadsTexts xid_of →
        result ≡ sessions_of xid_of session (words_behind (option_copied words.entry)) }
    ensures limits { IfSome result IsWithinLimits }
{
    let xid = Xid::take_text(only_word(words)?)?;
    Some(Line::Control(session, Control::Sessions(xid)))
}

/// What a session asks by the verb of a request, and the words after it.
fn read_request_of(
    alloc: Global,
    session: u64,
    verb: &[u8],
    words: Option<&[u8]>,
) -> Result<Line, AllocError>
    ensures value { (xid_of : List ℕ → Option Triple) → ReadsTexts xid_of →
        IfOk result (λ said. said ≡ unwrap_or (call_of xid_of session verb.now (words_behind (option_copied words.entry))) Line.Unknown) }
    ensures limits { IfOk result IsWithinLimits }
{
    let Some(verb) = read_verb(verb) else {
        return Ok(Line::Unknown);
    };
    match read_request(alloc, verb, words)? {
        Some(request) => Ok(Line::Call(session, request)),
        None => Ok(Line::Unknown),
    }
}

/// A line after whose verb no words stand.
fn read_bare(said: Line, words: Option<&[u8]>) -> Line
    requires { IsWithinLimits said }
    ensures value { result ≡ unwrap_or (alone said (words_behind (option_copied words.entry))) Line.Unknown }
    ensures limits { IsWithinLimits result }
{
    match words {
        None => said,
        Some(_) => Line::Unknown,
    }
}

//! A script is read line by line, and each reply is written as soon as it is there.
ghost use Rattle.std.specs.Io.BufRead.{strip_last};
ghost use Rattle.std.specs.Io.KnownBytes.{Appends};
ghost use Rattle.std.specs.IoError.{error_kind};
ghost use Rattle.std.specs.Prelude.{◌≡◌, ◌≢◌, List, ℕ};
ghost use Rattle.xa_talk.specs.declared.dial.Connection.{Connection};
ghost use Rattle.xa_talk.specs.Talks.{Helps, LineTalked, NextRead, Shows, Talks, ends_at};

use crate::answer::answer;
use crate::answered::{Answered, answered_line, is_error};
use crate::connections::Connections;
use crate::dial::Dial;
use crate::fault::TalkFault;
use crate::help::{asks_help, help_text};
use crate::manner::Manner;
use crate::prompter::Prompter;
use std::alloc::Global;
use std::io::{BufRead, Error, ErrorKind, Read, Write};
use xa_output::write_text;
use xa_script::{Line, Teller, read_line};

/// Reads a script line by line. Each line is answered, and its reply written in a style and flushed, before the next one
/// is read. Where the script is typed, the line `help` is answered with the calls. Before each line the prompter is told.
///
/// It ends with the input, or with the first fault: a line that couldn't be read, or beyond which none can be counted
/// (`Read`); no memory; no connection where the line asks for one (`Connect`); one that broke (`Broken`), or brought
/// what is no reply (`NoReply`), where the line's request goes over it; a reply that couldn't be written (`Write`), or that
/// is an error where the script is talked strictly (`Refused`).
pub fn talk_run<
    I: BufRead + Drop,
    O: Write,
    R: Read + Drop,
    W: Write + Drop,
    D: Dial<R, W>,
    T: Teller + Prompter,
>(
    alloc: Global,
    input: &mut I,
    output: &mut O,
    dial: &mut D,
    teller: &mut T,
    manner: Manner,
) -> Result<(), TalkFault>
    ensures { Talks {C = Connection R W} manner (λ c. W.contents c.writer) (λ c. R.remaining c.reader) result
        (I.remaining input.old) (I.remaining input.new) (O.contents output.old) (O.contents output.new) }
{
    let mut connections = Connections::new(alloc);
    let mut line = Vec::new(alloc);
    for index in 0..u64::MAX {
        teller.prompt();
        if !read_next(input, &mut line)? {
            return Ok(());
        }
        talk_line(
            alloc,
            dial,
            teller,
            &mut connections,
            output,
            index,
            without_end(line.as_slice()),
            manner,
        )?;
    }
    Err(TalkFault::Read)
}

/// Reads the next line with the line feed that ends it, and says whether there is one.
pub fn read_next<I: BufRead>(input: &mut I, line: &mut Vec<u8>) -> Result<bool, TalkFault>
    ensures { NextRead result (I.remaining input.old) line.new.items (I.remaining input.new) }
{
    line.clear();
    match input.read_until(b'\n', line) {
        Ok(0) => Ok(false),
        Ok(_) => Ok(true),
        Err(error) => Err(read_fault(&error)),
    }
}

/// Answers one line, of which this many stand before it: its reply is written and flushed.
fn talk_line<O: Write, R: Read + Drop, W: Write + Drop, D: Dial<R, W>, T: Teller>(
    alloc: Global,
    dial: &mut D,
    teller: &mut T,
    connections: &mut Connections<R, W>,
    output: &mut O,
    index: u64,
    line: &[u8],
    manner: Manner,
) -> Result<(), TalkFault>
    ensures { (text : List ℕ) × Appends (O.contents output.old) (O.contents output.new) text
        × LineTalked manner (λ c. W.contents c.writer) (λ c. R.remaining c.reader) line.now result text
        connections.old.numbered.items connections.new.numbered.items }
{
    if asks_help(manner, line) {
        return write_help(output);
    }
    let said = read_line(alloc, line)?;
    tell_unasked(teller, index, line, &said);
    let Some(answered) = answer(alloc, dial, connections, said)? else {
        return Ok(());
    };
    write_answer(alloc, output, &answered, manner)
}

/// Tells of a line that asks nothing which a server could be asked.
fn tell_unasked<T: Teller>(teller: &mut T, index: u64, line: &[u8], said: &Line) {
    if let Line::Unknown
    | Line::Fail { .. }
    | Line::Stop { .. }
    | Line::Reopen
    | Line::Crash { .. } = said
    {
        teller.tell(index, line);
    }
}

/// Writes the calls, and flushes them.
fn write_help<O: Write>(output: &mut O) -> Result<(), TalkFault>
    ensures { (text : List ℕ) × Appends (O.contents output.old) (O.contents output.new) text × Helps result text }
{
    if !write_text(output, help_text().as_bytes()) {
        return Err(TalkFault::Write);
    }
    match output.flush() {
        Ok(()) => Ok(()),
        Err(_) => Err(TalkFault::Write),
    }
}

/// Writes the line of an answer, and flushes it.
fn write_answer<O: Write>(
    alloc: Global,
    output: &mut O,
    answered: &Answered,
    manner: Manner,
) -> Result<(), TalkFault>
    ensures { (text : List ℕ) × Appends (O.contents output.old) (O.contents output.new) text
        × Shows manner answered.now result text }
{
    let text = answered_line(alloc, answered, manner.style)?;
    if !write_text(output, text.as_slice()) {
        return Err(TalkFault::Write);
    }
    match output.flush() {
        Ok(()) => {
            if ends_at(answered, manner.is_strict) {
                Err(TalkFault::Refused)
            } else {
                Ok(())
            }
        }
        Err(_) => Err(TalkFault::Write),
    }
}

/// Whether a script ends at an answer.
fn ends_at(answered: &Answered, is_strict: bool) -> bool
    ensures { result ≡ ends_at is_strict answered.now }
{
    is_strict && is_error(answered)
}

/// A line without the line feed that ends it.
pub fn without_end(line: &[u8]) -> &[u8]
    ensures { result.now ≡ strip_last 10 line.now }
{
    let length = line.len();
    if length > 0 && line[length - 1] == b'\n' {
        &line[..length - 1]
    } else {
        line
    }
}

/// What a reading that failed comes to, by the kind of its error.
fn read_fault(error: &Error) -> TalkFault
    ensures memory { error_kind error.now ≡ ErrorKind.OutOfMemory → result ≡ TalkFault.Memory }
    ensures failed { error_kind error.now ≢ ErrorKind.OutOfMemory → result ≡ TalkFault.Read }
{
    match error.kind() {
        ErrorKind::OutOfMemory => TalkFault::Memory,
        _ => TalkFault::Read,
    }
}

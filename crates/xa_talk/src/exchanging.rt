//! A frame goes over a connection, and its reply comes back.
ghost use Rattle.std.specs.Io.KnownBytes.{Consumes};
ghost use Rattle.std.specs.Prelude.{◌≡◌, Err, IfOk, MatchOption, MatchResult, length};
ghost use Rattle.xa_desk.specs.Believed.Frames.{frame};
ghost use Rattle.xa_frame.specs.Questions.{IsQuestion};
ghost use Rattle.xa_control.specs.Answers.{SpellsAnswer};
ghost use Rattle.xa_talk.specs.Exchanges.{Asked, Brought, Closes, Exchanged, LacksContent, LacksFrame, ReadsLength, Receives, ReceivesBy};
ghost use Rattle.xa_talk.specs.Exchanges.{Sends, Tells, control_frame, question_frame, shutdown_frame};

use crate::dial::Connection;
use crate::fault::TalkFault;
use std::alloc::{AllocError, Global};
use std::io::{Read, Write};
use xa_bytes::{number_of, put_u32};
use xa_control::{Answer, Control, SHUTDOWN, answer_of, control_content};
use xa_frame::{FrameFault, Question, Reply, decode_reply, encode_question};
use xa_limits::MOST_CONTENT;
use xa_output::write_text;

/// Sends the frame of a question, by one write where the writer takes it whole, and gives the reply that comes back.
pub fn exchange<R: Read, W: Write>(
    alloc: Global,
    connection: &mut Connection<R, W>,
    question: &Question,
) -> Result<Reply, TalkFault>
    requires { IsQuestion question.now }
    ensures { Exchanged question.now result
        (W.contents connection.old.writer) (W.contents connection.new.writer)
        (R.remaining connection.old.reader) (R.remaining connection.new.reader) }
{
    let frame = frame_of(alloc, question)?;
    exchange_frame(alloc, connection, frame.as_slice())
}

/// Asks a server something, and gives its answer.
pub fn ask_control<R: Read, W: Write>(
    alloc: Global,
    connection: &mut Connection<R, W>,
    control: &Control,
) -> Result<Answer, TalkFault>
    ensures { Tells control.now result
        (W.contents connection.old.writer) (W.contents connection.new.writer)
        (R.remaining connection.old.reader) (R.remaining connection.new.reader) }
{
    let frame = control_frame_of(alloc, control)?;
    send(&mut connection.writer, frame.as_slice())?;
    match receive_answer(alloc, &mut connection.reader) {
        Ok(Some(answer)) => Ok(answer),
        Ok(None) => Err(TalkFault::Broken),
        Err(fault) => Err(fault),
    }
}

/// Sends a frame, and gives the reply that comes back.
fn exchange_frame<R: Read, W: Write>(
    alloc: Global,
    connection: &mut Connection<R, W>,
    frame: &[u8],
) -> Result<Reply, TalkFault>
    ensures { Brought frame.now result
        (W.contents connection.old.writer) (W.contents connection.new.writer)
        (R.remaining connection.old.reader) (R.remaining connection.new.reader) }
{
    match ask(alloc, connection, frame) {
        Ok(Some(reply)) => Ok(reply),
        Ok(None) => Err(TalkFault::Broken),
        Err(fault) => Err(fault),
    }
}

/// Asks a server to end: none where it closes the connection, which is the answer, else the reply that comes back.
pub fn ask_end<R: Read, W: Write>(
    alloc: Global,
    connection: &mut Connection<R, W>,
) -> Result<Option<Reply>, TalkFault>
    ensures { Asked shutdown_frame result
        (W.contents connection.old.writer) (W.contents connection.new.writer)
        (R.remaining connection.old.reader) (R.remaining connection.new.reader) }
{
    let [version, operation] = SHUTDOWN;
    ask(alloc, connection, &[0, 0, 0, 2, version, operation])
}

/// Sends a frame, and gives the reply that comes back, or none where the connection ends before it.
fn ask<R: Read, W: Write>(
    alloc: Global,
    connection: &mut Connection<R, W>,
    frame: &[u8],
) -> Result<Option<Reply>, TalkFault>
    ensures { Asked frame.now result
        (W.contents connection.old.writer) (W.contents connection.new.writer)
        (R.remaining connection.old.reader) (R.remaining connection.new.reader) }
{
    send(&mut connection.writer, frame)?;
    receive(alloc, &mut connection.reader)
}

/// Writes a frame.
fn send<W: Write>(writer: &mut W, frame: &[u8]) -> Result<(), TalkFault>
    ensures { Sends frame.now result (W.contents writer.old) (W.contents writer.new) }
{
    if write_text(writer, frame) {
        Ok(())
    } else {
        Err(TalkFault::Broken)
    }
}

/// A question's content after its length.
fn frame_of(alloc: Global, question: &Question) -> Result<Vec<u8>, AllocError>
    requires { IsQuestion question.now }
    ensures { IfOk result (λ bytes. bytes.items ≡ question_frame question.now) }
{
    let content = encode_question(alloc, question)?;
    let mut bytes = Vec::with_capacity(alloc, 4 + content.len())?;
    put_u32(&mut bytes, content.len() as u32)?;
    bytes.extend_from_slice(content.as_slice())?;
    Ok(bytes)
}

/// The same of what a server is asked.
fn control_frame_of(alloc: Global, control: &Control) -> Result<Vec<u8>, AllocError>
    ensures { IfOk result (λ bytes. bytes.items ≡ control_frame control.now) }
{
    let content = control_content(alloc, control)?;
    let mut bytes = Vec::with_capacity(alloc, 4 + content.len())?;
    put_u32(&mut bytes, content.len() as u32)?;
    bytes.extend_from_slice(content.as_slice())?;
    Ok(bytes)
}

/// Reads the frame of a reply, or finds none.
fn receive<R: Read>(alloc: Global, reader: &mut R) -> Result<Option<Reply>, TalkFault>
    ensures { Receives result (R.remaining reader.old) (R.remaining reader.new) }
{
    let Some(content) = read_content(alloc, reader)? else {
        return Ok(None);
    };
    match decode_reply(alloc, content.as_slice()) {
        Ok(reply) => Ok(Some(reply)),
        Err(FrameFault::Memory) => Err(TalkFault::Memory),
        Err(_) => Err(TalkFault::NoReply),
    }
}

/// Reads the frame of a server's own answer, or finds none.
fn receive_answer<R: Read>(alloc: Global, reader: &mut R) -> Result<Option<Answer>, TalkFault>
    ensures { ReceivesBy SpellsAnswer result (R.remaining reader.old) (R.remaining reader.new) }
{
    let Some(content) = read_content(alloc, reader)? else {
        return Ok(None);
    };
    match answer_of(alloc, content.as_slice())? {
        Some(answer) => Ok(Some(answer)),
        None => Err(TalkFault::NoReply),
    }
}

/// Reads the content of a frame, or finds none.
fn read_content<R: Read>(alloc: Global, reader: &mut R) -> Result<Option<Vec<u8>>, TalkFault>
    ensures { MatchResult result
        (λ content. MatchOption content (Closes (R.remaining reader.old) (R.remaining reader.new))
        (λ bytes. Consumes (R.remaining reader.old) (R.remaining reader.new) (frame bytes.items)))
        (λ fault. LacksFrame fault (R.remaining reader.old) (R.remaining reader.new)) }
{
    let Some(count) = read_length(reader)? else {
        return Ok(None);
    };
    match read_bytes(alloc, reader, count) {
        Ok(content) => Ok(Some(content)),
        Err(fault) => Err(fault),
    }
}

/// Reads the length of a frame, or finds none.
fn read_length<R: Read>(reader: &mut R) -> Result<Option<u32>, TalkFault>
    ensures { ReadsLength result (R.remaining reader.old) (R.remaining reader.new) }
{
    let mut front = [0u8; 4];
    let count = match reader.read(&mut front) {
        Ok(0) => return Ok(None),
        Ok(count) => count,
        Err(_) => return Err(TalkFault::Broken),
    };
    match reader.read_exact(&mut front[count..]) {
        Ok(()) => Ok(Some(number_of(front[0], front[1], front[2], front[3]))),
        Err(_) => Err(TalkFault::Broken),
    }
}

/// Reads this many bytes, the content of a frame.
fn read_bytes<R: Read>(alloc: Global, reader: &mut R, count: u32) -> Result<Vec<u8>, TalkFault>
    ensures { MatchResult result
        (λ content. (length content.items ≡ count)
        × Consumes (R.remaining reader.old) (R.remaining reader.new) content.items)
        (λ fault. LacksContent count fault (R.remaining reader.old) (R.remaining reader.new)) }
{
    if count as usize > MOST_CONTENT {
        return Err(TalkFault::NoReply);
    }
    let mut content = vec![in alloc; 0u8; count as usize]?;
    match reader.read_exact(content.as_mut_slice()) {
        Ok(()) => Ok(content),
        Err(_) => Err(TalkFault::Broken),
    }
}

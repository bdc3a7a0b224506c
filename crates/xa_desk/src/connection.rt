ghost use Rattle.std.specs.Int.{to_be_bytes, w32};
ghost use Rattle.std.specs.Prelude.{◌≡◌, ◌<◌, ◌≤◌, ◌++◌, drop, length, IfOk, IfErr, OnOk, true, false, Some};
ghost use Rattle.std.specs.Io.KnownBytes.{Consumes};
ghost use Rattle.xa_limits.specs.declared.TheConstants.{MOST_CONTENT};
ghost use Rattle.xa_frame.specs.Limits.{IsReply};
ghost use Rattle.xa_desk.specs.{declared.connection.TheConstants.MOST_FRAMES, Believed.Frames.reply_frame};
ghost use Rattle.xa_desk.specs.{Believed.Frames.without_memory, Believed.Serving.Answers};
ghost use Rattle.xa_desk.specs.{Believed.Serving.Talks};
ghost use Rattle.xa_desk.specs.Steps.{Fills, Lacks, ReadsLength, Sends, end_of};

use crate::door::Door;
use crate::served::Served;
use std::alloc::{AllocError, Global};
use std::io::{Read, Write};
use xa_bytes::{number_of, put_u32};
use xa_codes::{Detail, XAER_RMFAIL};
use xa_frame::{Body, FrameFault, Question, Reply, decode_question, put_reply};
use xa_limits::MOST_CONTENT;
use xa_output::write_text;

/// The most frames of a connection.
pub const MOST_FRAMES: u32 = 4_294_967_295;

/// How far a buffer was filled.
#[derive(Drop)]
enum Filled {
    Whole,
    /// The input ended after this many bytes.
    Ended(usize),
    /// A read failed after this many bytes.
    Fault(usize),
}

// Fills a buffer, in whatever pieces the reader gives.
fn fill<R: Read>(reader: &mut R, buffer: &mut [u8]) -> Filled
    ensures { Fills result (R.remaining reader.old) (R.remaining reader.new) buffer.new }
{
    let mut count = 0;
    while count < buffer.len() {
        match reader.read(&mut buffer[count..]) {
            Ok(0) => return Filled::Ended(count),
            Ok(n) => count += n,
            Err(_) => return Filled::Fault(count),
        }
    }
    Filled::Whole
}

// The length of the next frame. An end is the input's, or a length that is cut.
fn read_length<R: Read>(reader: &mut R) -> Result<u32, Served>
    ensures { ReadsLength result (R.remaining reader.old) (R.remaining reader.new) }
{
    let mut front = [0u8; 4];
    match fill(reader, &mut front) {
        Filled::Whole => Ok(number_of(front[0], front[1], front[2], front[3])),
        Filled::Ended(0) => Err(Served::Ended),
        Filled::Ended(_) | Filled::Fault(_) => Err(Served::ReadFault),
    }
}

fn is_too_long(length: u32) -> bool
    ensures long { result ≡ true → MOST_CONTENT < length }
    ensures fits { result ≡ false → length ≤ MOST_CONTENT }
{
    length as usize > MOST_CONTENT
}

/// The reply if decoding found no memory.
fn without_memory() -> Reply
    ensures reply { result ≡ without_memory }
    ensures limits { IsReply result }
{
    Reply::detailed(XAER_RMFAIL, Detail::Memory)
}

/// Makes these bytes the frame of a reply, in place of what they were. Takes no memory if there is room for it.
pub fn make_frame(bytes: &mut Vec<u8>, reply: &Reply) -> Result<(), AllocError>
    requires { IsReply reply.now }
    ensures { OnOk result (bytes.new.items ≡ reply_frame reply.now) }
{
    bytes.clear();
    put_u32(bytes, 0)?;
    put_reply(bytes, reply)?;
    let count = (bytes.len() - 4) as u32;
    set_front(bytes.as_mut_slice(), count);
    Ok(())
}

// Sets the first four bytes to a number.
fn set_front(bytes: &mut [u8], number: u32)
    requires { 4 ≤ length bytes.old }
    ensures { bytes.new ≡ to_be_bytes w32 number ++ drop 4 bytes.old }
{
    bytes[..4].copy_from_slice(&number.to_be_bytes());
}

fn frame_of(alloc: Global, reply: &Reply) -> Result<Vec<u8>, AllocError>
    requires { IsReply reply.now }
    ensures { IfOk result (λ v. v.items ≡ reply_frame reply.now) }
{
    let mut frame = Vec::new(alloc);
    make_frame(&mut frame, reply)?;
    Ok(frame)
}

// Writes the frame of a reply. An end is lack of memory or a failed write.
fn send<W: Write>(alloc: Global, writer: &mut W, reply: &Reply) -> Result<(), Served>
    requires { IsReply reply.now }
    ensures { Sends result (reply_frame reply.now) (W.contents writer.old) (W.contents writer.new) }
{
    let frame = frame_of(alloc, reply)?;
    if write_text(writer, frame.as_slice()) {
        Ok(())
    } else {
        Err(Served::WriteFault)
    }
}

// The content of a frame. An end is lack of memory or a content that is cut.
fn read_content<R: Read>(alloc: Global, reader: &mut R, count: usize) -> Result<Vec<u8>, Served>
    ensures read { IfOk result (λ v. (length v.items ≡ count)
        × Consumes (R.remaining reader.old) (R.remaining reader.new) v.items) }
    ensures ends { IfErr result (λ end. Lacks end count (R.remaining reader.old) (R.remaining reader.new)) }
{
    let mut content = vec![in alloc; 0u8; count]?;
    match fill(reader, content.as_mut_slice()) {
        Filled::Whole => Ok(content),
        Filled::Ended(_) | Filled::Fault(_) => Err(Served::ReadFault),
    }
}

// Reads a frame and answers it. An end, or Ok if it goes on.
fn exchange<D: Door, R: Read, W: Write>(
    alloc: Global,
    door: &mut D,
    reader: &mut R,
    writer: &mut W,
    session: u64,
) -> Result<(), Served>
    ensures { Talks (D.called session) 1 (end_of result)
        (R.remaining reader.old) (R.remaining reader.new) (W.contents writer.old) (W.contents writer.new)
        door.old door.new }
{
    let length = read_length(reader)?;
    if is_too_long(length) {
        send(alloc, writer, &Reply::bad_frame())?;
        return Err(Served::TooLong);
    }
    let content = read_content(alloc, reader, length as usize)?;
    let reply = answer(alloc, door, session, content.as_slice());
    send(alloc, writer, &reply)
}

/// The reply to a content: the door's, how it is doing, or one to a content that has a fault or couldn't be decoded for
/// lack of memory.
pub fn answer<D: Door>(alloc: Global, door: &mut D, session: u64, content: &[u8]) -> Reply
    ensures answers { Answers (D.called session) door.old content.now result door.new }
    ensures limits { IsReply result }
{
    match decode_question(alloc, content) {
        Ok(Question::Call(request)) => door.call(session, request),
        Ok(Question::Status) => Reply::carrying(Body::Status(door.status())),
        Err(FrameFault::Memory) => without_memory(),
        Err(_) => Reply::bad_frame(),
    }
}

// Answers frames, `most` of them at most. An end, or Ok after the last of them.
fn converse<D: Door, R: Read, W: Write>(
    alloc: Global,
    door: &mut D,
    reader: &mut R,
    writer: &mut W,
    session: u64,
    most: u32,
) -> Result<(), Served>
    ensures { Talks (D.called session) most (end_of result)
        (R.remaining reader.old) (R.remaining reader.new) (W.contents writer.old) (W.contents writer.new)
        door.old door.new }
{
    for _ in 0..most {
        exchange(alloc, door, reader, writer, session)?;
    }
    Ok(())
}

/// Serves a session on a connection until it ends, and hangs the session up, always and once. After `most` frames it
/// ends with `ReadFault`, and reads no further.
///
/// Of each frame it reads the length and then the content, each by one read if the reader gives all that is asked,
/// and nothing beyond: what stands after the last frame or after a length above `MOST_CONTENT` is left in the reader.
/// So the caller may hand in a reader with a buffer. The frame of each reply is handed to the writer whole, and again
/// only if the writer took a part. A read that fails ends the connection, whatever its error, and so does a write
/// that fails, unless it was interrupted: then it is retried.
pub fn serve_upto<D: Door, R: Read, W: Write>(
    alloc: Global,
    door: &mut D,
    reader: &mut R,
    writer: &mut W,
    session: u64,
    most: u32,
) -> Served
    ensures { (d : D) × Talks (D.called session) most (Some result)
        (R.remaining reader.old) (R.remaining reader.new) (W.contents writer.old) (W.contents writer.new)
        door.old d × D.left session d door.new }
{
    let ended = converse(alloc, door, reader, writer, session, most);
    door.hangup(session);
    ended.err().unwrap_or(Served::ReadFault)
}

/// Serves a session on a connection as [`serve_upto`] does, for `MOST_FRAMES` frames at most.
pub fn serve<D: Door, R: Read, W: Write>(
    alloc: Global,
    door: &mut D,
    reader: &mut R,
    writer: &mut W,
    session: u64,
) -> Served
    ensures { (d : D) × Talks (D.called session) MOST_FRAMES (Some result)
        (R.remaining reader.old) (R.remaining reader.new) (W.contents writer.old) (W.contents writer.new)
        door.old d × D.left session d door.new }
{
    serve_upto(alloc, door, reader, writer, session, MOST_FRAMES)
}

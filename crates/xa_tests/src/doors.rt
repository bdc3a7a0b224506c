ghost use Rattle.xa_frame.specs.Limits.{IsRequest};

use std::alloc::Global;
use std::io;
use std::io::{Read, Write};
use xa_codes::{Detail, XA_OK};
use xa_desk::{Door, Served, serve};
use xa_frame::{Body, Reply, Request, Status, encode_request};

/// What a keeper tells of itself.
const STATUS: Status = Status {
    boot: 3,
    end: 4711,
    bytes: 1_073_741_824,
    branches: 2,
    prepared: 1,
    completed: 0,
    sessions: 4,
    versions: 1000,
    calls: 123,
    seconds: 86_400,
};

/// A door that keeps what it was asked, and answers with the places and numbers of a list.
#[derive(Drop)]
struct Keeper<'a> {
    alloc: Global,
    answers: &'a [(u64, u64)],
    asked: Vec<(u64, Vec<u8>)>,
    left: Vec<u64>,
}

/// A door that was asked nothing.
fn new_keeper(alloc: Global, answers: &[(u64, u64)]) -> Keeper {
    Keeper {
        alloc,
        answers,
        asked: Vec::new(alloc),
        left: Vec::new(alloc),
    }
}

impl Keeper<'_> {
    fn keep(&mut self, session: u64, request: &Request)
        requires { IsRequest request.now }
    {
        if let Ok(content) = encode_request(self.alloc, request) {
            let _ = self.asked.push((session, content));
        }
    }

    fn answer(&mut self) -> (u64, u64) {
        match self.answers.split_first() {
            Some((first, rest)) => {
                self.answers = rest;
                *first
            }
            None => (0, 0),
        }
    }
}

impl Door for Keeper<'_> {
    ghost called = { λ session door request reply after. Unit {0} };

    ghost left = { λ session door after. Unit {0} };

    fn call(&mut self, session: u64, request: Request) -> Reply {
        self.keep(session, &request);
        let (place, number) = self.answer();
        Reply {
            code: XA_OK,
            detail: Detail::Nothing,
            place,
            body: Body::Number(number),
        }
    }

    fn status(&self) -> Status {
        STATUS
    }

    fn hangup(&mut self, session: u64) {
        let _ = self.left.push(session);
    }
}

/// A reader that gives its bytes, at most `step` at a time, and then ends or fails.
#[derive(Drop)]
pub struct Source<'a> {
    pub bytes: &'a [u8],
    pub step: usize,
    pub fails: bool,
}

impl Read for Source<'_> {
    fn read(&mut self, buf: &mut [u8]) -> io::Result<usize> {
        let n = self.step.min(self.bytes.len()).min(buf.len());
        if n == 0 && self.fails {
            return Err(io::Error::other("the reader fails"));
        }
        let (given, rest) = self.bytes.split_at(n);
        buf[..n].copy_from_slice(given);
        self.bytes = rest;
        Ok(n)
    }
}

/// A writer that takes `room` bytes, at most `step` at once, and then takes none or fails.
#[derive(Drop)]
pub struct Sink {
    pub taken: Vec<u8>,
    pub room: usize,
    pub step: usize,
    pub fails: bool,
}

impl Sink {
    /// It has taken nothing.
    pub fn new(alloc: Global, room: usize, step: usize, fails: bool) -> Sink {
        Sink {
            taken: Vec::new(alloc),
            room,
            step,
            fails,
        }
    }
}

impl Write for Sink {
    fn write(&mut self, buf: &[u8]) -> io::Result<usize> {
        let n = self.step.min(self.room).min(buf.len());
        if n == 0 && self.fails {
            return Err(io::Error::other("the writer fails"));
        }
        self.taken.extend_from_slice(&buf[..n])?;
        self.room -= n;
        Ok(n)
    }

    fn flush(&mut self) -> io::Result<()> {
        Ok(())
    }
}

/// What a connection of session 7 came to.
#[derive(Drop)]
pub struct Outcome {
    pub served: Served,
    pub unread: usize,
    pub written: Vec<u8>,
    pub asked: Vec<(u64, Vec<u8>)>,
    pub left: Vec<u64>,
}

/// Serves a connection of session 7.
pub fn play(
    alloc: Global,
    mut reader: Source,
    mut writer: Sink,
    answers: &[(u64, u64)],
) -> Outcome {
    let mut door = new_keeper(alloc, answers);
    let served = serve(alloc, &mut door, &mut reader, &mut writer, 7);
    let Keeper { asked, left, .. } = door;
    Outcome {
        served,
        unread: reader.bytes.len(),
        written: writer.taken,
        asked,
        left,
    }
}

/// How long the frame of a get is, if the key is a number in four bytes.
pub const GET: usize = 11;

/// What was asked is each frame's content, in order and for session 7.
fn are_frames(asked: &[(u64, Vec<u8>)], input: &[u8]) -> bool {
    for ((session, content), frame) in asked.iter().zip(input.chunks(GET)) {
        if *session != 7 || content.as_slice() != frame.get(4..).unwrap_or_default() {
            return false;
        }
    }
    true
}

/// The door was asked the first `frames` gets of the input, and then it was hung up once.
pub fn is_asked(outcome: &Outcome, input: &[u8], frames: usize) -> bool {
    outcome.asked.len() == frames
        && are_frames(&outcome.asked, input)
        && outcome.left.as_slice() == [7].as_slice()
}

/// It ended like this, and this was written.
pub fn is_answered(outcome: &Outcome, served: Served, written: &[u8]) -> bool {
    outcome.served == served && outcome.written.as_slice() == written
}

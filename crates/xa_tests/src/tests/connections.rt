//! One connection over readers and writers that end, fail, and take a few bytes at a time.
use crate::doors::{GET, Sink, Source, is_answered, is_asked, play};
use crate::tests::rows::none_wrong;
use std::alloc::{AllocError, Global};
use xa_desk::Served;

fn put_get(out: &mut Vec<u8>, number: u32) -> Result<(), AllocError> {
    out.extend_from_slice(&[0, 0, 0, 7, 1, 10, 4])?;
    out.extend_from_slice(&number.to_be_bytes())?;
    Ok(())
}

/// How long the frame of a reply with a number is.
const NUMBERED: usize = 27;

fn put_numbered(out: &mut Vec<u8>, place: u64, number: u64) -> Result<(), AllocError> {
    out.extend_from_slice(&[0, 0, 0, 23, 1, 0, 0, 0, 0, 0])?;
    out.extend_from_slice(&place.to_be_bytes())?;
    out.push(1)?;
    out.extend_from_slice(&number.to_be_bytes())?;
    Ok(())
}

/// Gets of the keys 0, 1, .., what the door has to answer, and the frames of the answers.
#[derive(Drop)]
struct Talk {
    input: Vec<u8>,
    answers: Vec<(u64, u64)>,
    output: Vec<u8>,
}

impl Talk {
    fn put(&mut self, number: u32) -> Result<(), AllocError> {
        let place = u64::from(number) + 3;
        let answer = u64::from(number) + 0x1_0000_0001;
        put_get(&mut self.input, number)?;
        self.answers.push((place, answer))?;
        put_numbered(&mut self.output, place, answer)
    }
}

fn gets(alloc: Global, frames: u32) -> Result<Talk, AllocError> {
    let mut talk = Talk {
        input: Vec::new(alloc),
        answers: Vec::new(alloc),
        output: Vec::new(alloc),
    };
    for number in 0..frames {
        talk.put(number)?;
    }
    Ok(talk)
}

/// The input is cut after `n` bytes, where the reader ends or fails.
fn is_read(alloc: Global, talk: &Talk, n: usize, fails: bool) -> bool {
    let reader = Source {
        bytes: talk.input.get(..n).unwrap_or_default(),
        step: 4,
        fails,
    };
    let writer = Sink::new(alloc, usize::MAX, 4, false);
    let outcome = play(alloc, reader, writer, &talk.answers);
    let end = if n % GET == 0 && !fails {
        Served::Ended
    } else {
        Served::ReadFault
    };
    let length = (n / GET).saturating_mul(NUMBERED);
    is_answered(&outcome, end, talk.output.get(..length).unwrap_or_default())
        && is_asked(&outcome, &talk.input, n / GET)
}

fn wrong_read(alloc: Global, talk: &Talk, fails: bool) -> Option<usize> {
    (0..=talk.input.len()).find(|n| !is_read(alloc, talk, *n, fails))
}

/// The writer takes `n` bytes, and then nothing or fails.
fn is_written(alloc: Global, talk: &Talk, n: usize, fails: bool) -> bool {
    let reader = Source {
        bytes: &talk.input,
        step: 4,
        fails: false,
    };
    let writer = Sink::new(alloc, n, 4, fails);
    let outcome = play(alloc, reader, writer, &talk.answers);
    is_answered(
        &outcome,
        Served::WriteFault,
        talk.output.get(..n).unwrap_or_default(),
    ) && is_asked(&outcome, &talk.input, n / NUMBERED + 1)
}

fn wrong_write(alloc: Global, talk: &Talk, fails: bool) -> Option<usize> {
    (0..talk.output.len()).find(|n| !is_written(alloc, talk, *n, fails))
}

#[test]
fn broken_readers_and_writers(rt: HostRuntime) {
    let talk = gets(rt.alloc(), 2).expect(&rt, "a talk");
    assert!(rt; talk.input.len() == 2 * GET && talk.output.len() == 2 * NUMBERED);
    none_wrong(&rt, wrong_read(rt.alloc(), &talk, false));
    none_wrong(&rt, wrong_read(rt.alloc(), &talk, true));
    none_wrong(&rt, wrong_write(rt.alloc(), &talk, false));
    none_wrong(&rt, wrong_write(rt.alloc(), &talk, true));
}

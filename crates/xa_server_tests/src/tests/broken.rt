use crate::tests::callers::{Asks, Visit, is_visited};
use crate::tests::clients::OPEN;
use crate::tests::rows::none_wrong;
use std::alloc::Global;
use std::io;
use std::io::{Read, Write};
use std::rt::Clock;
use std::sync::Wait;
use std::thread::Threads;
use xa_desk::{Served, serve, serve_upto};
use xa_history::Receipt;
use xa_model::Event;

// Connections to a room that break.

/// Gives its bytes, with a failing read before one of them, once.
#[derive(Drop)]
struct Faulty<'a> {
    bytes: &'a [u8],
    given: usize,
    fails_at: usize,
}

impl Read for Faulty<'_> {
    fn read(&mut self, buf: &mut [u8]) -> io::Result<usize> {
        if self.given == self.fails_at {
            self.fails_at = usize::MAX;
            return Err(io::Error::other("the reader fails"));
        }
        let before = if self.given < self.fails_at {
            self.fails_at - self.given
        } else {
            usize::MAX
        };
        let n = before.min(self.bytes.len()).min(buf.len());
        let (given, rest) = self.bytes.split_at(n);
        buf[..n].copy_from_slice(given);
        self.bytes = rest;
        self.given = self.given.saturating_add(n);
        Ok(n)
    }
}

/// Takes its bytes, and fails before one, once.
#[derive(Drop)]
struct Full {
    taken: Vec<u8>,
    fails_at: usize,
}

impl Write for Full {
    fn write(&mut self, buf: &[u8]) -> io::Result<usize> {
        if self.taken.len() == self.fails_at {
            self.fails_at = usize::MAX;
            return Err(io::Error::other("the writer fails"));
        }
        let before = self.fails_at.saturating_sub(self.taken.len());
        let n = before.min(buf.len());
        self.taken.extend_from_slice(&buf[..n])?;
        Ok(n)
    }

    fn flush(&mut self) -> io::Result<()> {
        Ok(())
    }
}

/// How a first connection breaks: its input is cut, or a read or a write fails before that byte; how many frames it may
/// have; and what is wanted of it: its end, how many bytes of the replies were written, how many frames were answered, and how
/// many bytes were not read.
#[derive(Clone, Copy, Drop)]
struct Connection {
    cut: usize,
    read: usize,
    write: usize,
    most: u32,
    end: Served,
    written: usize,
    answered: usize,
    left: usize,
}

/// It doesn't break.
const WHOLE: Connection = Connection {
    cut: usize::MAX,
    read: usize::MAX,
    write: usize::MAX,
    most: u32::MAX,
    end: Served::Ended,
    written: FRAMES * REPLY,
    answered: FRAMES,
    left: 0,
};

/// Three opens, and their replies after the connect, each of this many bytes.
const FRAMES: usize = 3;

const REPLY: usize = 19;

const OPENS: [u8; 45] = [
    0, 0, 0, 11, 1, 1, 0, 0, 0, 0, 4, 0x78, 0x61, 0x72, 0x6d, //
    0, 0, 0, 11, 1, 1, 0, 0, 0, 0, 4, 0x78, 0x61, 0x72, 0x6d, //
    0, 0, 0, 11, 1, 1, 0, 0, 0, 0, 4, 0x78, 0x61, 0x72, 0x6d,
];

const REPLIES: [u8; 57] = [
    0, 0, 0, 15, 1, 0, 0, 0, 0, 0, 0, 0, 0, 0, 0, 0, 0, 2, 0, //
    0, 0, 0, 15, 1, 0, 0, 0, 0, 0, 0, 0, 0, 0, 0, 0, 0, 3, 0, //
    0, 0, 0, 15, 1, 0, 0, 0, 0, 0, 0, 0, 0, 0, 0, 0, 0, 4, 0,
];

fn is_hangup(receipt: &Receipt) -> bool {
    matches!(&receipt.event, Event::Hangup(1))
}

/// A connect, `calls` calls, and one hang-up, the last of all.
fn are_recorded(kept: &[Receipt], calls: usize) -> bool {
    let hung_up = kept.iter().filter(|receipt| is_hangup(receipt)).count();
    let last = kept.last().map_or(false, is_hangup);
    last && hung_up == 1 && kept.len() - 1 == calls.saturating_add(1)
}

fn front(bytes: &[u8], length: usize) -> &[u8] {
    bytes.get(..length).unwrap_or(bytes)
}

// Whether a session that sends the opens ends as wanted.
fn ends<D: Asks>(alloc: Global, caller: &mut D, session: u64, how: &Connection) -> bool {
    let mut reader = Faulty {
        bytes: front(&OPENS, how.cut),
        given: 0,
        fails_at: how.read,
    };
    let mut writer = Full {
        taken: Vec::new(alloc),
        fails_at: how.write,
    };
    let end = if how.most == u32::MAX {
        serve(alloc, caller, &mut reader, &mut writer, session)
    } else {
        serve_upto(alloc, caller, &mut reader, &mut writer, session, how.most)
    };
    end == how.end
        && writer.taken.as_slice() == front(&REPLIES, how.written)
        && reader.bytes.len() == how.left
}

impl Visit for Connection {
    fn visit<D: Asks>(&self, alloc: Global, caller: &mut D) -> bool {
        match caller.connect() {
            Some(session) => ends(alloc, caller, session, self),
            None => false,
        }
    }

    fn judge(&self, _alloc: Global, kept: &[Receipt], lost: u64, _told: Vec<Receipt>) -> bool {
        lost == 0 && are_recorded(kept, self.answered)
    }
}

/// The first of `places` places at which a connection that breaks there doesn't end like that.
fn wrong_place<R: AllocGlobal + Clock + Threads + Wait + Sync, F: Fn(usize) -> Connection>(
    rt: &R,
    places: usize,
    broken: F,
) -> Option<usize>
    requires { F.IsAlwaysCallable broken }
{
    (0..places).find(|n| !is_visited(rt, 1, &broken(*n)))
}

/// The input is cut after `n` bytes.
fn cut(n: usize) -> Connection {
    let answered = n / OPEN.len();
    Connection {
        cut: n,
        end: if n % OPEN.len() == 0 {
            Served::Ended
        } else {
            Served::ReadFault
        },
        written: answered.saturating_mul(REPLY),
        answered,
        ..WHOLE
    }
}

#[test]
fn inputs_that_are_cut(rt: HostRuntime) {
    none_wrong(&rt, wrong_place(&rt, OPENS.len() + 1, |n| cut(n)));
}

/// A read fails once, before this byte or the end.
fn unread(n: usize) -> Connection {
    let answered = n / OPEN.len();
    Connection {
        read: n,
        end: Served::ReadFault,
        written: answered.saturating_mul(REPLY),
        answered,
        left: OPENS.len().saturating_sub(n),
        ..WHOLE
    }
}

#[test]
fn reads_that_fail_once(rt: HostRuntime) {
    none_wrong(&rt, wrong_place(&rt, OPENS.len() + 1, |n| unread(n)));
}

/// A write fails once, before this byte.
fn unwritten(n: usize) -> Connection {
    let answered = n / REPLY + 1;
    Connection {
        write: n,
        end: Served::WriteFault,
        written: n,
        answered,
        left: FRAMES.saturating_sub(answered) * OPEN.len(),
        ..WHOLE
    }
}

#[test]
fn writes_that_fail_once(rt: HostRuntime) {
    none_wrong(&rt, wrong_place(&rt, REPLIES.len(), |n| unwritten(n)));
}

/// A connection may have `most` frames. After the last one nothing is read, nor is it seen that the input ended.
fn bounded(most: usize) -> Connection {
    let answered = FRAMES.min(most);
    Connection {
        most: u32::try_from(most).unwrap_or(u32::MAX),
        end: if most > FRAMES {
            Served::Ended
        } else {
            Served::ReadFault
        },
        written: answered.saturating_mul(REPLY),
        answered,
        left: (FRAMES - answered) * OPEN.len(),
        ..WHOLE
    }
}

#[test]
fn a_bound_of_frames(rt: HostRuntime) {
    none_wrong(&rt, wrong_place(&rt, FRAMES + 2, |n| bounded(n)));
}

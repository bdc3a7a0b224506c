//! A clock that can't be read, which the system's always can be.
use crate::doors::Sink;
use crate::tests::rows::none_wrong;
use std::alloc::Global;
use std::io::{self, ErrorKind};
use xa_frame::Reply;
use xa_rows::first_wrong;
use xa_talk::{Connection, Dial, TalkFault, TickFault, Ticker, tick_run};

/// A clock that gives these moments and can't be read after them, and counts what it has to report.
#[derive(Drop)]
struct Bell<'a> {
    moments: &'a [u64],
    told: usize,
}

impl Ticker for Bell<'_> {
    ghost gives = { λ bell moment after. Unit {0} };

    ghost tells = { λ bell refusal after. Unit {0} };

    fn next_moment(&mut self) -> Option<u64> {
        let (moment, rest) = self.moments.split_first()?;
        self.moments = rest;
        Some(*moment)
    }

    fn tell(&mut self, refusal: &Reply) {
        self.told = self.told.saturating_add(1);
    }
}

/// A server whose one connection gives these bytes.
#[derive(Drop)]
struct Server<'a> {
    alloc: Global,
    answers: Option<&'a [u8]>,
}

impl<'a> Dial<&'a [u8], Sink> for Server<'a> {
    fn dial(&mut self) -> io::Result<Connection<&'a [u8], Sink>> {
        let Some(reader) = self.answers else {
            return Err(io::Error::from(ErrorKind::ConnectionRefused));
        };
        self.answers = None;
        let writer = Sink::new(self.alloc, usize::MAX, usize::MAX, false);
        Ok(Connection { reader, writer })
    }

    fn hang_up(&mut self, _connection: Connection<&'a [u8], Sink>) {}
}

/// No branch has reached its limit, and then the moment is one that went back.
const REPLIES: [u8; 46] = [
    0, 0, 0, 0x17, 1, 0, 0, 0, 0, 0, 0, 0, 0, 0, 0, 0, 0, 2, 1, 0, 0, 0, 0, 0, 0, 0, 0, //
    0, 0, 0, 0x0f, 1, 255, 255, 255, 251, 0, 0, 0, 0, 0, 0, 0, 0, 3, 0,
];

/// What a clock gives, what a server answers if it is reached, how many refusals are told, and the end.
type Row = (&'static [u64], Option<&'static [u8]>, usize, TickFault);

const ROWS: [Row; 5] = [
    (&[], Some(&[]), 0, TickFault::Clock),
    (&[9], Some(&REPLIES), 0, TickFault::Clock),
    (&[9, 8], Some(&REPLIES), 1, TickFault::Clock),
    (
        &[9, u64::MAX, 1],
        Some(&REPLIES),
        1,
        TickFault::Talk(TalkFault::Broken),
    ),
    (&[9], None, 0, TickFault::Talk(TalkFault::Connect)),
];

fn is_row(alloc: Global, row: &Row) -> bool {
    let (moments, answers, told, end) = *row;
    let mut bell = Bell { moments, told: 0 };
    let mut server = Server { alloc, answers };
    tick_run(alloc, &mut bell, &mut server) == Err(end) && bell.told == told
}

fn wrong_row(alloc: Global, rows: &[Row]) -> Option<usize> {
    first_wrong(rows, |row| is_row(alloc, row))
}

fn is_told(alloc: Global, fault: TickFault, text: &str) -> bool {
    match format!(in alloc; "xarm: {fault}") {
        Ok(line) => line.as_str() == text,
        Err(_) => false,
    }
}

#[test]
fn clocks(rt: HostRuntime) {
    none_wrong(&rt, wrong_row(rt.alloc(), &ROWS));
    assert!(rt; is_told(rt.alloc(), TickFault::Clock, "xarm: cannot read the clock"));
}

use crate::tests::rows::none_wrong;
use std::alloc::{AllocError, Global};
use std::io::{self, ErrorKind, Read, Write};
use xa_codes::Bytes;
use xa_log::OpenFault;
use xa_manager::{ManagerFault, Settings};
use xa_play::{PlayFault, play_run};
use xa_rows::{INFO_BYTES, LEAST_LOG_BYTES, LOG_BYTES, first_wrong};
use xa_script::Teller;

fn settings(alloc: Global, log_bytes: u64) -> Result<Settings, AllocError> {
    Ok(Settings {
        name: Bytes::from_slice(alloc, b"xarm")?,
        log_bytes,
    })
}

/// Is told of lines that ask nothing.
#[derive(Drop)]
struct Nobody;

impl Teller for Nobody {
    fn tell(&mut self, _index: u64, _line: &[u8]) {}
}

/// How a play between a reader and a writer under these settings ends.
fn played<R: Read + Drop, W: Write>(
    alloc: Global,
    reader: &mut R,
    writer: &mut W,
    settings: Settings,
) -> Result<(), PlayFault> {
    play_run(alloc, reader, writer, &mut Nobody, settings)
}

fn reads_as(alloc: Global, fault: PlayFault, text: &str) -> bool {
    match format!(in alloc; "xarm: {fault}") {
        Ok(line) => line.as_str() == text,
        Err(_) => false,
    }
}

/// Gives zeros, and then fails or ends.
#[derive(Drop)]
struct Zeros {
    left: usize,
    error: Option<ErrorKind>,
}

impl Read for Zeros {
    fn read(&mut self, buf: &mut [u8]) -> io::Result<usize> {
        if let (0, Some(kind)) = (self.left, self.error) {
            return Err(io::Error::from(kind));
        }
        let count = self.left.min(buf.len());
        self.left -= count;
        for byte in buf.iter_mut() {
            *byte = 0;
        }
        Ok(count)
    }
}

/// How the play of zeros ends, with the length of what it wrote.
fn zeros_played(
    alloc: Global,
    left: usize,
    error: Option<ErrorKind>,
) -> Option<(Result<(), PlayFault>, usize)> {
    let mut output: Vec<u8> = Vec::new(alloc);
    let mut reader = Zeros { left, error };
    let settings = settings(alloc, LOG_BYTES).ok()?;
    let outcome = played(alloc, &mut reader, &mut output, settings);
    Some((outcome, output.len()))
}

/// How many zeros come, with the error after them, and how their play ends. Nothing is written.
const UNPLAYED: [(usize, Option<ErrorKind>, PlayFault); 4] = [
    (16_777_217, None, PlayFault::TooLong),
    (usize::MAX, None, PlayFault::TooLong),
    (1_000, Some(ErrorKind::BrokenPipe), PlayFault::Read),
    (1_000, Some(ErrorKind::OutOfMemory), PlayFault::Memory),
];

fn wrong_unplayed(alloc: Global, rows: &[(usize, Option<ErrorKind>, PlayFault)]) -> Option<usize> {
    first_wrong(
        rows,
        |(left, error, fault)| zeros_played(alloc, *left, *error) == Some((Err(*fault), 0)),
    )
}

#[test]
fn scripts_that_are_not_played(rt: HostRuntime) {
    none_wrong(&rt, wrong_unplayed(rt.alloc(), &UNPLAYED));
}

/// Settings outside their limits are found before the reader fails.
fn is_bad_setting(alloc: Global, name: Bytes, log_bytes: u64) -> bool {
    let mut output: Vec<u8> = Vec::new(alloc);
    let mut reader = Zeros {
        left: 0,
        error: Some(ErrorKind::BrokenPipe),
    };
    let settings = Settings { name, log_bytes };
    played(alloc, &mut reader, &mut output, settings) == Err(PlayFault::Setting)
}

fn is_bad(alloc: Global, length: usize, log_bytes: u64) -> bool {
    match vec![in alloc; b'a'; length] {
        Ok(name) => is_bad_setting(alloc, Bytes::new(name), log_bytes),
        Err(_) => false,
    }
}

#[test]
fn settings_come_first(rt: HostRuntime) {
    assert!(rt; is_bad(rt.alloc(), INFO_BYTES as usize + 1, LOG_BYTES));
    assert!(rt; is_bad(rt.alloc(), 4, LEAST_LOG_BYTES - 1));
    assert!(rt; is_bad(rt.alloc(), 4, LOG_BYTES + 1));
}

/// Takes `left` writes of one byte, and then fails or takes nothing.
#[derive(Drop)]
struct Narrow {
    left: usize,
    fails: bool,
}

impl Write for Narrow {
    fn write(&mut self, buf: &[u8]) -> io::Result<usize> {
        if self.left == 0 && self.fails {
            return Err(io::Error::from(ErrorKind::BrokenPipe));
        }
        let count = self.left.min(buf.len()).min(1);
        self.left -= count;
        Ok(count)
    }

    fn flush(&mut self) -> io::Result<()> {
        Ok(())
    }
}

fn narrow_played(alloc: Global, left: usize, fails: bool) -> Option<Result<(), PlayFault>> {
    let mut writer = Narrow { left, fails };
    let mut reader = b"connect".as_slice();
    let settings = settings(alloc, LOG_BYTES).ok()?;
    Some(played(alloc, &mut reader, &mut writer, settings))
}

fn is_played(alloc: Global, left: usize, fails: bool, outcome: Result<(), PlayFault>) -> bool {
    narrow_played(alloc, left, fails) == Some(outcome)
}

#[test]
fn output_that_is_not_taken(rt: HostRuntime) {
    // The reply takes 19 bytes.
    assert!(rt; is_played(rt.alloc(), 19, true, Ok(())));
    assert!(rt; is_played(rt.alloc(), 18, true, Err(PlayFault::Write)));
    assert!(rt; is_played(rt.alloc(), 18, false, Err(PlayFault::Write)));
    assert!(rt; is_played(rt.alloc(), 0, true, Err(PlayFault::Write)));
}

/// Takes all, and fails to flush it.
#[derive(Drop)]
struct Unflushed;

impl Write for Unflushed {
    fn write(&mut self, buf: &[u8]) -> io::Result<usize> {
        Ok(buf.len())
    }

    fn flush(&mut self) -> io::Result<()> {
        Err(io::Error::from(ErrorKind::StorageFull))
    }
}

fn is_unflushed(alloc: Global, script: &str) -> bool {
    let mut reader = script.as_bytes();
    match settings(alloc, LOG_BYTES) {
        Ok(settings) => {
            played(alloc, &mut reader, &mut Unflushed, settings) == Err(PlayFault::Write)
        }
        Err(_) => false,
    }
}

#[test]
fn output_that_is_not_flushed(rt: HostRuntime) {
    assert!(rt; is_unflushed(rt.alloc(), "connect"));
    assert!(rt; is_unflushed(rt.alloc(), ""));
}

const FAULTS: [(PlayFault, &str); 17] = [
    (PlayFault::Memory, "xarm: no memory"),
    (PlayFault::Setting, "xarm: bad setting"),
    (PlayFault::TooLong, "xarm: script too long"),
    (PlayFault::Read, "xarm: cannot read"),
    (PlayFault::Write, "xarm: cannot write"),
    (
        PlayFault::Manager(ManagerFault::Log(OpenFault::NotALog)),
        "xarm: not a log",
    ),
    (
        PlayFault::Manager(ManagerFault::Log(OpenFault::TooNew)),
        "xarm: log too new",
    ),
    (
        PlayFault::Manager(ManagerFault::Log(OpenFault::TooLong)),
        "xarm: log too long",
    ),
    (
        PlayFault::Manager(ManagerFault::Log(OpenFault::Device)),
        "xarm: device fault",
    ),
    (
        PlayFault::Manager(ManagerFault::Log(OpenFault::Memory)),
        "xarm: no memory",
    ),
    (
        PlayFault::Manager(ManagerFault::MissingFirst),
        "xarm: first file missing",
    ),
    (
        PlayFault::Manager(ManagerFault::MissingSecond),
        "xarm: second file missing",
    ),
    (
        PlayFault::Manager(ManagerFault::Malformed(3)),
        "xarm: record 3 malformed",
    ),
    (
        PlayFault::Manager(ManagerFault::Order(0)),
        "xarm: record 0 out of order",
    ),
    (
        PlayFault::Manager(ManagerFault::Boots),
        "xarm: boots used up",
    ),
    (PlayFault::Manager(ManagerFault::LogFull), "xarm: log full"),
    (
        PlayFault::Manager(ManagerFault::Device),
        "xarm: device fault",
    ),
];

fn wrong_fault(alloc: Global, rows: &[(PlayFault, &str)]) -> Option<usize> {
    first_wrong(rows, |(fault, text)| reads_as(alloc, *fault, text))
}

#[test]
fn faults_have_their_lines(rt: HostRuntime) {
    none_wrong(&rt, wrong_fault(rt.alloc(), &FAULTS));
}

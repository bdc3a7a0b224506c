//! An output that takes all lines of a scan, and can't be flushed.
use crate::log_pairs::{OLD, log_of};
use std::alloc::Global;
use std::io::{self, ErrorKind, Write};
use xa_scan::{Format, ScanFault, offsets_in_the_file, scan_run, worked_scans};

#[derive(Drop)]
struct Unflushed {
    taken: Vec<u8>,
}

impl Write for Unflushed {
    fn write(&mut self, buf: &[u8]) -> io::Result<usize> {
        self.taken.extend_from_slice(buf)?;
        Ok(buf.len())
    }

    fn flush(&mut self) -> io::Result<()> {
        Err(io::Error::from(ErrorKind::BrokenPipe))
    }
}

const LINES: &[u8] = b"8 opened 1\n49 prepared 1:aa:bb 4294967297 1\nend 110\n";

fn is_not_flushed(alloc: Global) -> Option<bool> {
    let (mut first, _second) = log_of(alloc, &OLD)?.into_disks();
    let mut writer = Unflushed {
        taken: Vec::new(alloc),
    };
    let end = scan_run(alloc, &mut first, &mut writer, Format::Text);
    Some(end == Err(ScanFault::Write) && writer.taken.as_slice() == LINES)
}

#[test]
fn lines_that_are_not_flushed(rt: HostRuntime) {
    worked_scans();
    offsets_in_the_file();
    assert!(rt; is_not_flushed(rt.alloc()) == Some(true));
}

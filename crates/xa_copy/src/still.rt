ghost use Rattle.std.specs.Prelude.{◌≤◌, length};
ghost use Rattle.xa_copy.specs.Moving.{ReadsUpto};

use crate::source::{Source, SourceFault};
use std::io;

/// A file that nobody writes to: bytes in memory. What is said of an honest source is proved of it.
#[derive(Debug, Drop)]
pub struct StillSource {
    pub bytes: Vec<u8>,
}

impl Source for StillSource {
    ghost use Rattle.xa_copy.specs.Still.{state_of};

    ghost honest = { Unit {0} };

    ghost state = { λ source. state_of source.bytes.items };

    fn read_at(&mut self, at: u64, into: &mut [u8]) -> Result<usize, SourceFault> {
        Ok(copy_from(&self.bytes, at, into))
    }

    fn error(&self) -> Option<io::Error> {
        None
    }
}

// Fills the front of `into` with the bytes from an offset on, as many as there are.
fn copy_from(bytes: &[u8], at: u64, into: &mut [u8]) -> usize
    ensures count { result ≤ length into.old }
    ensures read { ReadsUpto bytes.now at into.new result }
{
    if at > bytes.len() as u64 {
        return 0;
    }
    let begin = at as usize;
    let count = into.len().min(bytes.len() - begin);
    into[..count].copy_from_slice(&bytes[begin..begin + count]);
    count
}

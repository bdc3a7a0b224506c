use std::fmt;
use std::io::{Error, ErrorKind, Result, Write};

/// Standard error as a writer of texts, each of which it takes whole.
#[derive(Drop)]
pub(crate) struct Errors<'a, R> {
    pub(crate) rt: &'a R,
}

impl<R: Eprint> Write for Errors<'_, R> {
    fn write(&mut self, buf: &[u8]) -> Result<usize> {
        let Ok(text) = str::from_utf8(buf) else {
            return Err(Error::from(ErrorKind::InvalidData));
        };
        eprint!(self.rt; "{text}")?;
        Ok(buf.len())
    }

    fn flush(&mut self) -> Result<()> {
        Ok(())
    }
}

impl<R> fmt::Debug for Errors<'_, R> {
    fn fmt<W: fmt::Write>(&self, f: &mut fmt::Formatter<W>) -> fmt::Result {
        f.debug_struct("Errors").finish_non_exhaustive()
    }
}

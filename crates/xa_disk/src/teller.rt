use crate::FileCall;
use std::alloc::AllocError;
use std::{fmt, io};

/// What tells an operator of a file's faults, on standard error: a line has the file's path, the call and what the
/// system said.
#[derive(Drop)]
pub(crate) struct Teller {
    rt: HostRuntime,
    path: String,
}

impl Teller {
    pub(crate) fn new(rt: &HostRuntime, path: &str) -> Result<Teller, AllocError> {
        Ok(Teller {
            rt: *rt,
            path: path.to_string(rt.alloc())?,
        })
    }

    pub(crate) fn tell(&self, call: FileCall, error: &io::Error) {
        let path = self.path.as_str();
        let _ = eprintln!(self.rt; "xarm: device fault: {path}: {call}: {error}");
    }
}

impl fmt::Debug for Teller {
    fn fmt<W: fmt::Write>(&self, f: &mut fmt::Formatter<W>) -> fmt::Result {
        f.debug_struct("Teller")
            .field("path", &self.path)
            .finish_non_exhaustive()
    }
}

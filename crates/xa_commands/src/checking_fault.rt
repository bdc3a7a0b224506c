use crate::unopened::write_unopened;
use std::error::Error;
use std::fmt;
use xa_check::CheckFault;
use xa_disk::FileFault;

/// Why it isn't told what a log's two files are. Its text is what `xarm` prints after its name.
#[derive(Clone, Copy, Debug, Drop)]
pub enum CheckingFault<'a> {
    /// A server has the log.
    InUse,
    /// The first file, at this path, couldn't be opened.
    File { path: &'a str, fault: FileFault },
    /// The second one couldn't.
    SecondFile { path: &'a str, fault: FileFault },
    Check(CheckFault),
}

impl fmt::Display for CheckingFault<'_> {
    fn fmt<W: fmt::Write>(&self, f: &mut fmt::Formatter<W>) -> fmt::Result {
        match self {
            CheckingFault::InUse => f.write_str("log in use"),
            CheckingFault::File { path, fault } => write_unopened(f, path, "", fault),
            CheckingFault::SecondFile { path, fault } => write_unopened(f, path, ".2", fault),
            CheckingFault::Check(fault) => write!(f, "{fault}"),
        }
    }
}

impl Error for CheckingFault<'_> {}

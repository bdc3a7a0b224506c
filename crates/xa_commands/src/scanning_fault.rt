use crate::unopened::write_unopened;
use std::error::Error;
use std::fmt;
use xa_disk::FileFault;
use xa_scan::ScanFault;

/// Why a log at a path wasn't printed to its end. Its text is what `xarm` prints after its name.
#[derive(Clone, Copy, Debug, Drop)]
pub enum ScanningFault<'a> {
    /// A server has the log.
    InUse,
    /// The file couldn't be opened.
    File { path: &'a str, fault: FileFault },
    Scan(ScanFault),
}

impl fmt::Display for ScanningFault<'_> {
    fn fmt<W: fmt::Write>(&self, f: &mut fmt::Formatter<W>) -> fmt::Result {
        match self {
            ScanningFault::InUse => f.write_str("log in use"),
            ScanningFault::File { path, fault } => write_unopened(f, path, "", fault),
            ScanningFault::Scan(fault) => write!(f, "{fault}"),
        }
    }
}

impl Error for ScanningFault<'_> {}

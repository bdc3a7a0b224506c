use std::fmt;
use xa_disk::{FileCall, FileFault};

/// Writes why a file of this path, with a suffix, wasn't opened: a path that can't be opened is no fault of a device.
pub(crate) fn write_unopened<W: fmt::Write>(
    f: &mut fmt::Formatter<W>,
    path: &str,
    suffix: &str,
    fault: &FileFault,
) -> fmt::Result {
    match fault {
        FileFault::Call {
            call: FileCall::Open,
            error,
        } => write!(f, "cannot open {path}{suffix}: {error}"),
        FileFault::Irregular => write!(f, "cannot open {path}{suffix}: {fault}"),
        _ => write!(f, "device fault: {path}{suffix}: {fault}"),
    }
}

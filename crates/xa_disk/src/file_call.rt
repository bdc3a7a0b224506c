use std::fmt;

/// A call of the system on a file, or on its directory. Its text is its name in POSIX.
#[derive(Clone, Copy, Debug, PartialEq, Eq)]
pub enum FileCall {
    Open,
    Lock,
    Length,
    SyncAll,
    Advise,
    SyncFolder,
    Read,
    Write,
    Sync,
}

impl fmt::Display for FileCall {
    fn fmt<W: fmt::Write>(&self, f: &mut fmt::Formatter<W>) -> fmt::Result {
        f.write_str(match self {
            FileCall::Open => "open",
            FileCall::Lock => "flock",
            FileCall::Length => "fstat",
            FileCall::SyncAll => "fsync",
            FileCall::Advise => "posix_fadvise",
            FileCall::SyncFolder => "fsync of its folder",
            FileCall::Read => "pread",
            FileCall::Write => "pwrite",
            FileCall::Sync => "fdatasync",
        })
    }
}

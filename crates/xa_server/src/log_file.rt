use std::fmt;

/// One of a log's two files: the first one is at a path, the second one at the path with `.2` after it. Its text is
/// its path.
#[derive(Clone, Copy, Debug, Drop)]
pub struct LogFile<'a> {
    pub path: &'a str,
    pub is_second: bool,
}

impl fmt::Display for LogFile<'_> {
    fn fmt<W: fmt::Write>(&self, f: &mut fmt::Formatter<W>) -> fmt::Result {
        f.write_str(self.path)?;
        f.write_str(if self.is_second { ".2" } else { "" })
    }
}

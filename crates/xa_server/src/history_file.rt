use std::fmt;

/// One of the two files of a history: the script is at a path, the replies at the path with `.out` after it. Its text is its
/// path.
#[derive(Clone, Copy, Debug, Drop)]
pub struct HistoryFile<'a> {
    pub path: &'a str,
    pub is_replies: bool,
}

impl<'a> HistoryFile<'a> {
    pub(crate) fn script(path: &'a str) -> HistoryFile<'a> {
        HistoryFile {
            path,
            is_replies: false,
        }
    }

    pub(crate) fn replies(path: &'a str) -> HistoryFile<'a> {
        HistoryFile {
            path,
            is_replies: true,
        }
    }
}

impl fmt::Display for HistoryFile<'_> {
    fn fmt<W: fmt::Write>(&self, f: &mut fmt::Formatter<W>) -> fmt::Result {
        f.write_str(self.path)?;
        f.write_str(if self.is_replies { ".out" } else { "" })
    }
}

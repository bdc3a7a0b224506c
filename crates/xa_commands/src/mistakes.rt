use std::fmt;
use xa_script::{Teller, mistake_text};
use xa_talk::Prompter;

/// Standard error, which is told which lines of a script ask nothing, and that the next one is awaited.
#[derive(Drop)]
pub struct Mistakes<'a, R> {
    pub rt: &'a R,
    /// Whether the script's lines for disks in memory ask something.
    pub has_disks: bool,
    /// Whether the script is typed, so that each line is asked for.
    pub is_typed: bool,
}

impl<R: AllocGlobal + Eprint> Teller for Mistakes<'_, R> {
    fn tell(&mut self, index: u64, line: &[u8]) {
        let number = index.saturating_add(1);
        let Ok(text) = mistake_text(self.rt.alloc(), line, self.has_disks) else {
            return;
        };
        if let Ok(text) = str::from_utf8(text.as_slice()) {
            let _ = eprintln!(self.rt; "xarm: line {number}: {text}");
        }
    }
}

impl<R: Eprint> Prompter for Mistakes<'_, R> {
    fn prompt(&mut self) {
        if self.is_typed {
            let _ = self.rt.eprint("xarm> ");
        }
    }
}

impl<R> fmt::Debug for Mistakes<'_, R> {
    fn fmt<W: fmt::Write>(&self, f: &mut fmt::Formatter<W>) -> fmt::Result {
        f.debug_struct("Mistakes")
            .field("has_disks", &self.has_disks)
            .field("is_typed", &self.is_typed)
            .finish_non_exhaustive()
    }
}

ghost use Rattle.std.specs.Prelude.{◌≡◌};
ghost use Rattle.xa_words.specs.Terminals.{are_both};

/// Which of the standard streams are terminals.
#[derive(Clone, Copy, Debug, PartialEq, Eq)]
pub struct Terminals {
    pub input: bool,
    /// Standard error.
    pub errors: bool,
}

impl Terminals {
    /// Whether somebody types, and sees what is asked.
    pub(crate) fn are_both(self) -> bool
        ensures { result ≡ are_both self }
    {
        self.input && self.errors
    }
}

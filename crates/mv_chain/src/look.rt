ghost use Rattle.std.specs.Prelude.{◌≡◌, ◌<◌, ◌⊎◌, suc, MatchOption};

/// What one search of a chain finds at a timestamp: what a read there sees, and whether a write there is late.
///
/// It holds until the chain changes. Give it to the calls that read, mark or write at that timestamp.
#[derive(Clone, Copy, Debug, PartialEq, Eq)]
pub struct Look {
    /// The timestamp that was looked at.
    pub at: u64,
    /// The timestamp of the version that a read sees, 0 if there is none.
    pub from: u64,
    /// Whether that version's branch is undecided. A read then has to wait or give up, unless `from` is `at`.
    pub pending: bool,
    /// Whether a write is late: a version below `at` was read above it.
    pub late: bool,
    /// How many versions are at most `at`.
    pub(crate) count: usize,
}

impl Look {
    /// The index of the version that a read sees, among `versions` versions.
    pub(crate) fn last(&self, versions: usize) -> Option<usize>
        ensures { MatchOption result ((self.now.count ≡ 0) ⊎ (versions < self.now.count))
            (λ i. (self.now.count ≡ suc i) × (i < versions)) }
    {
        if self.count == 0 || self.count > versions {
            return None;
        }
        Some(self.count - 1)
    }
}

//! What an opening leaves out of a log.
ghost use Rattle.std.specs.Prelude.{◌≡◌};
ghost use Rattle.xa_log.specs.Opened.{passed_in};

use crate::opened::Opened;

/// Records of the current file that an opening left out: they chain after a record that is shown there, but doesn't chain
/// itself. A write was torn, or the file is damaged, less far from its end than a group of records goes.
#[derive(Clone, Copy, Debug, PartialEq, Eq)]
pub struct PassedOver {
    /// Whether they stand in the first of the two files.
    pub on_first: bool,
    /// The byte of the file at which the record after which they chain begins.
    pub at: u64,
    /// How many chain.
    pub records: usize,
}

impl Opened {
    /// The records that were left out, if any were.
    pub fn passed_over(&self) -> Option<PassedOver>
        ensures { result ≡ passed_in self.now }
    {
        match self.scan.left.len() {
            0 => None,
            records => Some(PassedOver {
                on_first: self.on_first,
                at: self.scan.end,
                records,
            }),
        }
    }
}

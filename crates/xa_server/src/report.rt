use std::alloc::Global;
use xa_history::Receipt;

/// What loops were told: the receipts of their connects, calls and hang-ups, each loop's in their order, and for how many
/// more receipts there was no memory.
#[derive(Debug, Drop)]
pub struct Report {
    pub receipts: Vec<Receipt>,
    pub dropped: u64,
}

impl Report {
    ghost use Rattle.std.specs.Prelude.{◌≡◌, ◌⊎◌, ◌+◌, ◌<◌, ◌++◌, ◌∷◌, ◌^◌, [], MatchOption, Option};
    ghost use Rattle.xa_server.specs.Reports.{Joins, Keeps};

    /// A report that begins.
    pub(crate) fn new(alloc: Global) -> Report
        ensures { (result.receipts.items ≡ []) × (result.dropped ≡ 0) }
    {
        Report {
            receipts: Vec::new(alloc),
            dropped: 0,
        }
    }

    /// Keeps a receipt after the others, or counts it if there is no memory for it, or was none.
    pub(crate) fn keep(&mut self, receipt: Option<Receipt>)
        ensures { Keeps self.old receipt self.new }
    {
        let is_kept = match receipt {
            Some(receipt) => self.receipts.push(receipt).is_ok(),
            None => false,
        };
        if !is_kept {
            self.dropped = self.dropped.saturating_add(1);
        }
    }

    /// The receipts of both, these first, or without those of the other, which are counted then.
    pub(crate) fn join(self, other: Report) -> Report
        ensures { Joins self other result }
    {
        let Report {
            mut receipts,
            dropped,
        } = self;
        let Report {
            receipts: mut others,
            dropped: more,
        } = other;
        let missing = match receipts.append(&mut others) {
            Ok(()) => 0,
            Err(_) => others.len() as u64,
        };
        Report {
            receipts,
            dropped: dropped.saturating_add(more).saturating_add(missing),
        }
    }
}

ghost use Rattle.std.specs.Prelude.{◌≡◌, ◌≢◌, None, IfOk, IsErr, MatchResult};
ghost use Rattle.xa_disk.specs.{Counts.no_calls, Disk.CountsFault};

use crate::teller::Teller;
use crate::{Counts, DiskFault, FileCall};
use std::alloc::AllocError;
use std::io;

/// How many calls a disk was asked for and how many failed, of which the first is reported on standard error.
#[derive(Debug, Drop)]
pub(crate) struct Tally {
    pub failures: u64,
    pub counts: Counts,
    pub error: Option<io::Error>,
    teller: Teller,
}

impl Tally {
    pub(crate) fn new(rt: &HostRuntime, path: &str) -> Result<Tally, AllocError>
        ensures failures { IfOk result (λ tally. tally.failures ≡ 0) }
        ensures counts { IfOk result (λ tally. tally.counts ≡ no_calls) }
        ensures error { IfOk result (λ tally. tally.error ≡ None) }
    {
        Ok(Tally {
            failures: 0,
            counts: Counts::none(),
            error: None,
            teller: Teller::new(rt, path)?,
        })
    }

    // Answers a call. One that failed is counted, and the first one's error is reported and kept.
    pub(crate) fn answer<T: Drop>(
        &mut self,
        call: FileCall,
        answer: io::Result<T>,
    ) -> Result<T, DiskFault>
        ensures kind { MatchResult answer (λ value. result ≡ Ok value) (λ _. IsErr result) }
        ensures count { CountsFault result self.old.failures self.new.failures }
        ensures told { MatchResult result (λ _. self.new.error ≡ self.old.error) (λ _. self.new.error ≢ None) }
        ensures first { self.old.error ≢ None → self.new.error ≡ self.old.error }
        ensures counts { self.new.counts ≡ self.old.counts }
    {
        match answer {
            Ok(value) => Ok(value),
            Err(error) => {
                self.failures = self.failures.saturating_add(1);
                self.keep(call, error);
                Err(DiskFault)
            }
        }
    }

    // Reports an error and keeps it, if it is the first.
    fn keep(&mut self, call: FileCall, error: io::Error)
        ensures some { self.new.error ≢ None }
        ensures first { self.old.error ≢ None → self.new.error ≡ self.old.error }
        ensures failures { self.new.failures ≡ self.old.failures }
        ensures counts { self.new.counts ≡ self.old.counts }
    {
        if self.error.is_none() {
            self.teller.tell(call, &error);
            self.error = Some(error);
        }
    }
}

ghost use Rattle.std.specs.Prelude.{◌≡◌, ◌||◌, nat_lt, None, Some, MatchResult};
ghost use Rattle.xa_model.specs.State.{AtWork};
ghost use Rattle.xa_branch.specs.Changes.{new_kept, marked, with_one, less_one};
ghost use Rattle.xa_branch.specs.{Due.due_of, Due.work_of, State.state_by};

use crate::kind::Kind;
use crate::state::State;
use xa_codes::Code;

/// A branch at work: its timestamp, the mark that it may have, the moment at which it began and its time limit, both in
/// seconds and the limit 0 for none, and how many active, suspended and loose associations it has.
#[derive(Clone, Copy, Debug, PartialEq, Eq)]
pub struct Working {
    pub timestamp: u64,
    pub mark: Option<Code>,
    pub start: u64,
    pub limit: u32,
    pub active: u64,
    pub suspended: u64,
    pub loose: u64,
}

impl Working {
    /// A branch that has just begun: the session that began it is at work for it.
    pub(crate) fn new(timestamp: u64, start: u64, limit: u32) -> Working
        ensures { result ≡ new_kept timestamp start limit }
    {
        Working {
            timestamp,
            mark: None,
            start,
            limit,
            active: 1,
            suspended: 0,
            loose: 0,
        }
    }

    /// The first mark stays.
    pub(crate) fn marked(self, code: Code) -> Working
        ensures { result ≡ marked code self }
    {
        Working {
            mark: Some(self.mark.unwrap_or(code)),
            ..self
        }
    }

    /// One association more. A branch has at most `MOST_SESSIONS` of sessions and `MOST_LOOSE` loose ones.
    pub(crate) fn with_one(self, kind: Kind) -> Working
        ensures { result ≡ with_one kind self }
    {
        match kind {
            Kind::Active => Working {
                active: self.active.saturating_add(1),
                ..self
            },
            Kind::Suspended => Working {
                suspended: self.suspended.saturating_add(1),
                ..self
            },
            Kind::Loose => Working {
                loose: self.loose.saturating_add(1),
                ..self
            },
        }
    }

    /// One association less.
    pub(crate) fn less_one(self, kind: Kind) -> Working
        ensures { result ≡ less_one kind self }
    {
        match kind {
            Kind::Active => Working {
                active: self.active.saturating_sub(1),
                ..self
            },
            Kind::Suspended => Working {
                suspended: self.suspended.saturating_sub(1),
                ..self
            },
            Kind::Loose => Working {
                loose: self.loose.saturating_sub(1),
                ..self
            },
        }
    }

    /// Whether it has any association.
    pub(crate) fn is_associated(&self) -> bool
        ensures { result ≡ (nat_lt 0 self.now.active || (nat_lt 0 self.now.suspended || nat_lt 0 self.now.loose)) }
    {
        self.active > 0 || self.suspended > 0 || self.loose > 0
    }

    /// The moment at which it runs out of time: it isn't marked, and has a limit. One above all that can be told is none.
    pub(crate) fn due(&self) -> Option<u64>
        ensures { result ≡ due_of (work_of self.now) }
    {
        if self.mark.is_some() || self.limit == 0 {
            return None;
        }
        self.start.checked_add(u64::from(self.limit))
    }

    /// The mark, if there is one, as what refuses.
    pub(crate) fn unless_marked(&self) -> Result<(), Code>
        ensures { MatchResult result (λ _. self.now.mark ≡ None) (λ code. self.now.mark ≡ Some code) }
    {
        match self.mark {
            Some(code) => Err(code),
            None => Ok(()),
        }
    }

    /// The state of the branch.
    pub(crate) fn state(&self) -> State
        ensures { state_by (AtWork self.now.mark) (nat_lt 0 self.now.active)
            (nat_lt 0 self.now.suspended || nat_lt 0 self.now.loose) ≡ Some result }
    {
        match self.mark {
            Some(code) => State::RollbackOnly(code),
            None if self.active > 0 => State::Active,
            None if self.suspended > 0 || self.loose > 0 => State::Suspended,
            None => State::Idle,
        }
    }
}

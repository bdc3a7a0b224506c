ghost use Rattle.std.specs.Prelude.{◌≡◌};

use crate::locked::Locked;
use std::fmt;
use std::marker::Model;
use std::sync::MutexGuard;
use xa_history::Start;
use xa_sequencer::Manages;
use xa_tokens::Book;

/// The lock of a sequencer that many threads share, while one of them has it: several calls under one hold of it. To a
/// contract it is what it protects.
#[derive(Drop)]
pub struct Held<'a, M: Manages, S: Start, B: Book> {
    pub(crate) locked: MutexGuard<'a, Locked<M, S, B>>,
}

impl<'a, M: Manages, S: Start, B: Book> Model for Held<'a, M, S, B> {
    ghost use Rattle.xa_handles.specs.Believed.Standing.{Standing};
    ghost use Rattle.xa_sequencer.specs.Believed.GroupManager.{GroupManager};

    ghost Value = { Standing (GroupManager M) };

    ghost view = { λ h. h.locked.value };
}

impl<'a, M: Manages, S: Start, B: Book> Held<'a, M, S, B> {
    pub(crate) fn new(locked: MutexGuard<'a, Locked<M, S, B>>) -> Held<'a, M, S, B>
        ensures { result ≡ locked.entry.value }
    {
        Held { locked }
    }
}

/// Shows only the name.
impl<M: Manages, S: Start, B: Book> fmt::Debug for Held<'_, M, S, B> {
    fn fmt<W: fmt::Write>(&self, f: &mut fmt::Formatter<W>) -> fmt::Result {
        f.debug_struct("Held").finish_non_exhaustive()
    }
}

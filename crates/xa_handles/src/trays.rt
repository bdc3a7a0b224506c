ghost use Rattle.std.specs.Prelude.{◌≡◌, ◌<◌, [], ◌∷◌, ◌++◌, length, MatchOption, MatchResult};
ghost use Rattle.xa_handles.specs.Mail.{put_at};

use crate::letter::Letter;
use std::alloc::{AllocError, Global};
use std::marker::Model;
use xa_history::Start;
use xa_sequencer::Manages;
use xa_tokens::Book;

/// A tray for each thread that posts calls, with the letters that came back to it. To a contract it is these.
#[derive(Drop)]
pub(crate) struct Trays<M: Manages, S: Start, B: Book> {
    all: Vec<Vec<Letter<M, S, B>>>,
}

impl<M: Manages, S: Start, B: Book> Model for Trays<M, S, B> {
    ghost use Rattle.std.specs.Prelude.{List, map};
    ghost use Rattle.xa_handles.specs.Mail.{Mailed};

    ghost Value = { List (List Mailed) };

    ghost view = { λ t. map (λ v. v.items) t.all.items };
}

impl<M: Manages, S: Start, B: Book> Trays<M, S, B> {
    pub(crate) fn new(alloc: Global) -> Trays<M, S, B>
        ensures { result ≡ [] }
    {
        Trays {
            all: Vec::new(alloc),
        }
    }

    /// One more, with room for `letters` letters. Returns its number.
    pub(crate) fn add(&mut self, alloc: Global, letters: usize) -> Result<usize, AllocError>
        ensures { MatchResult result (λ number. (number ≡ length self.old) × (self.new ≡ self.old ++ [] ∷ [])) (λ _. self.new ≡ self.old) }
    {
        let number = self.all.len();
        let mut tray = Vec::new(alloc);
        tray.reserve(letters)?;
        self.all.push(tray)?;
        Ok(number)
    }

    /// Puts a letter into its tray, on top.
    ///
    /// # Errors
    /// Gives it back if there is no memory.
    pub(crate) fn put(&mut self, letter: Letter<M, S, B>) -> Result<(), Letter<M, S, B>>
        ensures { MatchResult result
            (λ _. (letter.tray < length self.old) × (self.new ≡ put_at self.old letter.tray letter))
            (λ given. (given ≡ letter) × (self.new ≡ self.old)) }
    {
        let tray = letter.tray();
        if tray >= self.all.len() {
            return Err(letter);
        }
        push_to(&mut self.all[tray], letter)
    }

    /// Takes the letter on top of a tray.
    pub(crate) fn take(&mut self, tray: usize) -> Option<Letter<M, S, B>>
        ensures { MatchOption result (self.new ≡ self.old)
            (λ letter. (tray < length self.new) × (self.old ≡ put_at self.new tray letter)) }
    {
        if tray >= self.all.len() {
            return None;
        }
        pop_from(&mut self.all[tray])
    }
}

fn push_to<M: Manages, S: Start, B: Book>(
    tray: &mut Vec<Letter<M, S, B>>,
    letter: Letter<M, S, B>,
) -> Result<(), Letter<M, S, B>>
    ensures { MatchResult result (λ _. tray.new.items ≡ tray.old.items ++ letter ∷ [])
        (λ given. (given ≡ letter) × (tray.new.items ≡ tray.old.items)) }
{
    if tray.reserve(1).is_err() {
        return Err(letter);
    }
    tray.push_reserved(letter);
    Ok(())
}

fn pop_from<M: Manages, S: Start, B: Book>(
    tray: &mut Vec<Letter<M, S, B>>,
) -> Option<Letter<M, S, B>>
    ensures { MatchOption result (tray.new.items ≡ tray.old.items) (λ letter. tray.old.items ≡ tray.new.items ++ letter ∷ []) }
{
    tray.pop()
}

ghost use Rattle.std.specs.Prelude.{ℕ, List};
ghost use Rattle.xa_control.specs.{Answers.SpellsAnswer, Controls.SpellsControl, Laws.IsOneSpelling, Rows.SpelledSo};
ghost use Rattle.xa_control.specs.declared.control.Control.{Control};
ghost use Rattle.xa_frame.specs.declared.question.Question.{Question};
ghost use Rattle.xa_frame.specs.Questions.{SpellsQuestion};

/// A content asks one thing of a server at most, each has one content, and none asks anything of a manager. It does
/// nothing.
pub fn one_control()
    ensures spelling { IsOneSpelling SpellsControl }
    ensures apart { (bytes : List ℕ) (k : Control) (q : Question) → SpellsControl bytes k → SpellsQuestion bytes q → ⊥ }
{}

/// A content spells one answer at most, and each has one content. It does nothing.
pub fn one_answer()
    ensures { IsOneSpelling SpellsAnswer }
{}

/// Worked contents, by the definitions. It does nothing.
pub fn worked_contents()
    ensures { SpelledSo }
{}

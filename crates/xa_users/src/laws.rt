ghost use Rattle.std.specs.Prelude.{[], ◌∷◌};
ghost use Rattle.xa_users.specs.Believed.{Entries.entry_of, Users.IsUser, Users.Named, Users.SaysUsers};
ghost use Rattle.xa_users.specs.Rows.{EntriesSo};

/// The lines of a user alone are a document that says this user. It does nothing.
pub fn entries_say()
    ensures { (u : Named) → IsUser u → SaysUsers (entry_of u) (u ∷ []) }
{}

/// Worked rows, by the definitions. It does nothing.
pub fn worked_entries()
    ensures { EntriesSo }
{}

ghost use Rattle.std.specs.Prelude.{ℕ, Option};
ghost use Rattle.xa_roles.specs.declared.role.Role.{Role};
ghost use Rattle.xa_connection.specs.{Carries.CarriesLaw, Talked.TalkedLaw};

use xa_desk::Door;

/// What was fed to a connection is the frames that were answered and what came in after them, and the frames of their
/// replies are what was sent and what has to be sent: this holds when it is new, and stays so with each call, whatever
/// others do at the door between two calls, and only what may be asked by who has shown this reaches the door. It does nothing.
pub fn carries<D: Door>()
    ensures { (standing : Option Role) (session : ℕ) → CarriesLaw standing (D.called session) }
{}

/// A connection of an operator with a door of its own has done what `serve` of `xa_desk` does over a reader and a writer,
/// with the same end. It does nothing.
pub fn has_talked<D: Door>()
    ensures { (standing : Option Role) (session : ℕ) → TalkedLaw standing (D.called session) }
{}

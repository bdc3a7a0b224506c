ghost use Rattle.xa_roles.specs.Rows.{AreTold, Grows};

/// Worked rows: what each role may ask, by the definitions; and a greater role may ask what a lesser one may. It does nothing.
pub fn roles_are_told_apart()
    ensures rows { AreTold }
    ensures grows { Grows }
{}

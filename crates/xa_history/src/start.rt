use std::marker::Brand;

/// Where a history begins, as contracts see it: the states that the manager stood for, of which the caller picks
/// some, and the failures that its two devices had counted.
///
/// A caller takes `Brand`, and picks both members at the call.
pub trait Start {
    ghost use Rattle.std.specs.Prelude.{ℕ};
    ghost use Rattle.xa_model.specs.State.{State};

    ghost start: { State → Type 0 };

    ghost base: { ℕ × ℕ };
}

impl Start for Brand {
    ghost start = { λ s. ⊥ };

    ghost base = { (0, 0) };
}

ghost use Rattle.std.specs.Prelude.{◌≡◌, ◌↔◌, ℕ, List, ◌++◌, IsTrue};
ghost use Rattle.std.specs.declared.cmp.Ordering.TheVariants.{Equal};
ghost use Rattle.xa_xid.specs.Spelling.{bytes_of, text_of};
ghost use Rattle.xa_xid.specs.Triple.{Triple, IsWithinLimits, xid_eq, xid_cmp};

/// The bytes determine the XID, whatever follows them: no XID's bytes begin those of another. The text determines it
/// too.
pub fn one_spelling()
    ensures bytes { (x y : Triple) (s t : List ℕ) → IsWithinLimits x → IsWithinLimits y
        → bytes_of x ++ s ≡ bytes_of y ++ t → (x ≡ y) × (s ≡ t) }
    ensures text { (x y : Triple) → IsWithinLimits x → IsWithinLimits y → text_of x ≡ text_of y → x ≡ y }
{}

/// XIDs are equal exactly if all three parts are, and the order answers Equal only then.
pub fn equal_is_same()
    ensures eq { (x y : Triple) → IsTrue (xid_eq x y) ↔ (x ≡ y) }
    ensures cmp { (x y : Triple) → (xid_cmp x y ≡ Equal) ↔ (x ≡ y) }
{}

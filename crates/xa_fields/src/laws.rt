ghost use Rattle.std.specs.Prelude.{ℕ, List};
ghost use Rattle.xa_codes.specs.declared.direction.Direction.{Direction};
ghost use Rattle.xa_fields.specs.Limits.{IsShort, IsKey, IsValue};
ghost use Rattle.xa_fields.specs.Reading.{short_at, key_at, value_at, direction_at, name_at, ReadsBack};
ghost use Rattle.xa_fields.specs.Spelling.{short_bytes, value_bytes, direction_bytes};
ghost use Rattle.xa_xid.specs.{Spelling.bytes_of, Triple.Triple, Triple.IsWithinLimits};

/// A field that is read is spelled there and within its limits, and one within them that is spelled is read. It does
/// nothing.
pub fn one_field()
    ensures short { ReadsBack (List ℕ) short_at short_bytes IsShort }
    ensures key { ReadsBack (List ℕ) key_at short_bytes IsKey }
    ensures value { ReadsBack (List ℕ) value_at value_bytes IsValue }
    ensures direction { ReadsBack Direction direction_at direction_bytes (λ d. Unit {0}) }
    ensures name { ReadsBack Triple name_at bytes_of IsWithinLimits }
{}

ghost use Rattle.std.specs.Prelude.{◌≡◌, ◌<◌, ◌≤◌, ℕ, length, Some};
ghost use Rattle.xa_codes.specs.declared.direction.Direction.{Direction};
ghost use Rattle.xa_record.specs.declared.record.Record.{Record};
ghost use Rattle.xa_record.specs.declared.record.Record.TheVariants.{Opened, Completed, Decided, Forgotten, Known};
ghost use Rattle.xa_limits.specs.declared.TheConstants.{MOST_BODY, MOST_SMALL};
ghost use Rattle.xa_record.specs.{Limits.IsRecord, Reading.record_at, Spelling.spelled};
ghost use Rattle.xa_xid.specs.Triple.{Triple, IsWithinLimits};

/// A body is that of one record at most, and what was written is read again.
pub fn one_record()
    ensures one { (r s : Record) → IsRecord r → IsRecord s → spelled r ≡ spelled s → r ≡ s }
    ensures again { (r : Record) → IsRecord r → record_at (spelled r) ≡ Some r }
{}

/// How long bodies are.
pub fn body_sizes()
    ensures any { (r : Record) → IsRecord r → (1 ≤ length (spelled r)) × (length (spelled r) ≤ MOST_BODY) }
    ensures opened { (boot : ℕ) → length (spelled (Opened boot)) ≡ 5 }
    ensures completed { (x : Triple) (d : Direction) → IsWithinLimits x
        → length (spelled (Completed x d)) ≤ MOST_SMALL }
    ensures decided { (x : Triple) (d : Direction) → IsWithinLimits x → length (spelled (Decided x d)) ≤ MOST_SMALL }
    ensures forgotten { (x : Triple) → IsWithinLimits x → length (spelled (Forgotten x)) < MOST_SMALL }
    ensures known { (x : Triple) (d : Direction) → IsWithinLimits x → length (spelled (Known x d)) ≤ MOST_SMALL }
{}

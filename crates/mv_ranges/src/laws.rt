ghost use Rattle.mv_ranges.specs.Rows.{Phantom, LeftOut, Greatest, Stands};

/// Worked rows: which marks stand over keys once scans have walked some ranges, and what boundaries say of keys. It
/// does nothing.
pub fn worked_rows()
    ensures phantom { Phantom }
    ensures left_out { LeftOut }
    ensures greatest { Greatest }
    ensures stands { Stands }
{}

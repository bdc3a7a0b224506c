//! What can be said of the lines apart from the code.
ghost use Rattle.xa_scan.specs.Worked.{Based, BasedObjects, Empty, Held, HeldObjects, Known, Others, OtherObjects};
ghost use Rattle.xa_scan.specs.Worked.{OffsetsInTheFile, Prepared, PreparedObjects};

/// Worked rows, computed on the definitions alone: a first boot with a prepared branch; snapshots with a branch that is
/// held, with what was committed, and with what the operator completed; the other kinds of records; a log without
/// records. Likewise as JSON objects.
pub fn worked_scans()
    ensures prepared { Prepared }
    ensures held { Held }
    ensures based { Based }
    ensures known { Known }
    ensures others { Others }
    ensures empty { Empty }
    ensures prepared_objects { PreparedObjects }
    ensures held_objects { HeldObjects }
    ensures based_objects { BasedObjects }
    ensures other_objects { OtherObjects }
{}

/// The offset that is printed of a record is where it begins in the file, and the end is where the next one would
/// begin.
pub fn offsets_in_the_file()
    ensures { OffsetsInTheFile }
{}

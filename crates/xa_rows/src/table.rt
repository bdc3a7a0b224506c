ghost use Rattle.std.specs.Fn.{FnReturnsAt};
ghost use Rattle.std.specs.List.{AllWithin, HoldsAt};
ghost use Rattle.std.specs.Option.{MatchOption};
ghost use Rattle.std.specs.Prelude.{◌<◌, false, length, true};

/// The index of the first row that isn't right, by a check of one row: none if all are.
pub fn first_wrong<T, F: Fn(&T) -> bool>(rows: &[T], is_right: F) -> Option<usize>
    requires { F.IsAlwaysCallable is_right }
    ensures { MatchOption result (AllWithin (λ row. FnReturnsAt F.Fn is_right row true) rows.now 0 (length rows.now))
        (λ index. (index < length rows.now) × HoldsAt (λ row. FnReturnsAt F.Fn is_right row false) rows.now index
        × AllWithin (λ row. FnReturnsAt F.Fn is_right row true) rows.now 0 index) }
{
    rows.iter().position(|row| !is_right(row))
}

/// Whether these values are listed, in this order.
pub fn are_alike<T: PartialEq>(listed: &[T], wanted: &[&T]) -> bool {
    for (value, want) in listed.iter().zip(wanted) {
        if *value != **want {
            return false;
        }
    }
    listed.len() == wanted.len()
}

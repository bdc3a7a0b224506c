//! The counts that a server tells: pairs of an id and a count.
ghost use Rattle.std.specs.Prelude.{◌≡◌};
ghost use Rattle.xa_operate.specs.Told.{count_of, told};

/// The count of an id, if it is told. Of pairs with one id the first holds.
pub(crate) fn told(numbers: &[u64], id: u64) -> Option<u64>
    ensures { result ≡ told numbers.now id }
{
    let mut rest = numbers;
    while let [first, count, behind @ ..] = rest {
        if *first == id {
            return Some(*count);
        }
        rest = behind;
    }
    None
}

/// The same, and 0 if it isn't told.
pub(crate) fn count_of(numbers: &[u64], id: u64) -> u64
    ensures { result ≡ count_of numbers.now id }
{
    told(numbers, id).unwrap_or(0)
}

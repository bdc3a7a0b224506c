use std::process::Abort;

/// The index of the first wrong row, which there must not be. A row's own check is a function that answers by a `bool`,
/// and a table's gives the index of the first row that is not right: an assertion in a loop is expensive to prove.
pub fn none_wrong(rt: &impl Abort, first: Option<usize>) {
    assert_eq!(rt; first, None, "the first wrong row");
}

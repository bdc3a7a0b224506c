/// The source of a read: the timestamp of the version that it sees, 0 if there is none, and whether
/// that version's branch is still undecided.
#[derive(Clone, Copy, Debug, PartialEq, Eq)]
pub struct Found {
    pub from: u64,
    pub pending: bool,
}

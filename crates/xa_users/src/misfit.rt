/// Why a member of a document is no user.
#[derive(Clone, Copy, Debug, PartialEq, Eq)]
pub(crate) enum Misfit {
    /// Its key is no name.
    Name,
    /// It isn't a table of two strings, `role` and `verifier`, alone.
    Members,
    /// Its role is none.
    Role,
    /// Its verifier is none.
    Verifier,
}

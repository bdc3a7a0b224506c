use xa_roles::Role;
use xa_scram::Verifier;

/// What is known of a user, besides the name.
#[derive(Drop)]
pub struct User {
    /// What the user may ask.
    pub role: Role,
    /// How the user's secret is known again.
    pub verifier: Verifier,
}

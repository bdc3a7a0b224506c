ghost use Rattle.std.specs.Prelude.{◌≡◌};
ghost use Rattle.xa_roles.specs.Believed.Roles.{named, text_of};

/// What somebody may ask, from the least to the most: each may ask what those before it may.
#[derive(Clone, Copy, Debug, PartialEq, Eq)]
pub enum Role {
    /// How things are: the status, what was counted, and the known branches.
    Monitor,
    /// C193's calls, time limits, and records.
    Client,
    /// All, also what completes others' branches, restarts the manager, or ends the server.
    Operator,
}

impl Role {
    /// The role with this name: `monitor`, `client` or `operator`.
    pub fn of_text(text: &str) -> Option<Role>
        ensures { result ≡ named text.now }
    {
        match text {
            "monitor" => Some(Role::Monitor),
            "client" => Some(Role::Client),
            "operator" => Some(Role::Operator),
            _ => None,
        }
    }

    /// Its name.
    pub fn text(self) -> &'static str
        ensures { result.now ≡ text_of self }
    {
        match self {
            Role::Monitor => "monitor",
            Role::Client => "client",
            Role::Operator => "operator",
        }
    }
}

//! The commands that ask a running server one thing.
ghost use Rattle.std.specs.Prelude.{◌≡◌};
ghost use Rattle.xa_words.specs.Verbs.{decides, lists, names_branch, names_direction, names_session, opens_session, verb_of, verb_text};

/// A command that asks a running server one thing.
#[derive(Clone, Copy, Debug, PartialEq, Eq)]
pub enum Verb {
    Status,
    Branches,
    Recover,
    Commit,
    Rollback,
    Forget,
    Decide,
    Doom,
    Disconnect,
    Trim,
    Restart,
    RollbackMarked,
}

/// The command that a word names.
pub(crate) fn read_verb(word: &str) -> Option<Verb>
    ensures { result ≡ verb_of word.now }
{
    match word {
        "status" => Some(Verb::Status),
        "branches" => Some(Verb::Branches),
        "recover" => Some(Verb::Recover),
        "commit" => Some(Verb::Commit),
        "rollback" => Some(Verb::Rollback),
        "forget" => Some(Verb::Forget),
        "decide" => Some(Verb::Decide),
        "doom" => Some(Verb::Doom),
        "disconnect" => Some(Verb::Disconnect),
        "trim" => Some(Verb::Trim),
        "restart" => Some(Verb::Restart),
        "rollback-marked" => Some(Verb::RollbackMarked),
        _ => None,
    }
}

impl Verb {
    /// The word that names it.
    pub(crate) fn text<'a>(self) -> &'a str
        ensures { result.now ≡ verb_text self }
    {
        match self {
            Verb::Status => "status",
            Verb::Branches => "branches",
            Verb::Recover => "recover",
            Verb::Commit => "commit",
            Verb::Rollback => "rollback",
            Verb::Forget => "forget",
            Verb::Decide => "decide",
            Verb::Doom => "doom",
            Verb::Disconnect => "disconnect",
            Verb::Trim => "trim",
            Verb::Restart => "restart",
            Verb::RollbackMarked => "rollback-marked",
        }
    }

    /// Whether a branch is named.
    pub(crate) fn names_branch(self) -> bool
        ensures { result ≡ names_branch self }
    {
        match self {
            Verb::Commit | Verb::Rollback | Verb::Forget | Verb::Decide | Verb::Doom => true,
            Verb::Status
            | Verb::Branches
            | Verb::Recover
            | Verb::Disconnect
            | Verb::Trim
            | Verb::Restart
            | Verb::RollbackMarked => false,
        }
    }

    /// Whether a session is named.
    pub(crate) fn names_session(self) -> bool
        ensures { result ≡ names_session self }
    {
        match self {
            Verb::Disconnect => true,
            _ => false,
        }
    }

    /// Whether a direction is named.
    pub(crate) fn names_direction(self) -> bool
        ensures { result ≡ names_direction self }
    {
        match self {
            Verb::Decide => true,
            _ => false,
        }
    }

    /// Whether the resource manager is opened by its name.
    pub(crate) fn opens_session(self) -> bool
        ensures { result ≡ opens_session self }
    {
        match self {
            Verb::Recover | Verb::Commit | Verb::Rollback | Verb::Forget | Verb::RollbackMarked =>
                true,
            Verb::Status
            | Verb::Branches
            | Verb::Decide
            | Verb::Doom
            | Verb::Disconnect
            | Verb::Trim
            | Verb::Restart => false,
        }
    }

    /// Whether something is printed.
    pub(crate) fn lists(self) -> bool
        ensures { result ≡ lists self }
    {
        match self {
            Verb::Status | Verb::Branches | Verb::Recover | Verb::Trim | Verb::RollbackMarked =>
                true,
            Verb::Commit
            | Verb::Rollback
            | Verb::Forget
            | Verb::Decide
            | Verb::Doom
            | Verb::Disconnect
            | Verb::Restart => false,
        }
    }

    /// Whether it can't be taken back.
    pub(crate) fn decides(self) -> bool
        ensures { result ≡ decides self }
    {
        match self {
            Verb::Commit
            | Verb::Rollback
            | Verb::Forget
            | Verb::Decide
            | Verb::Doom
            | Verb::Disconnect
            | Verb::Restart
            | Verb::RollbackMarked => true,
            Verb::Status | Verb::Branches | Verb::Recover | Verb::Trim => false,
        }
    }

    /// What it does, for its help.
    pub(crate) fn about<'a>(self) -> &'a str {
        match self {
            Verb::Status => "Prints how a server is doing",
            Verb::Branches => "Prints the branches that a server knows, one a line",
            Verb::Recover =>
                "Prints the XIDs of the branches that are prepared, or that the operator completed, one a line",
            Verb::Commit => "Commits a prepared branch, as its transaction manager would",
            Verb::Rollback => "Rolls a branch back, as its transaction manager would",
            Verb::Forget => "Forgets a branch that the operator completed",
            Verb::Decide => "Completes a prepared branch by the operator's decision",
            Verb::Doom => "Marks a branch at work, which can then only be rolled back",
            Verb::Disconnect =>
                "Hangs a session up, as if its connection had broken: what it was at work on can then only be rolled back",
            Verb::Trim => "Has a server trim its log, and prints the log's new end in bytes",
            Verb::Restart => "Has a server reread its log, which ends all work that isn't prepared",
            Verb::RollbackMarked =>
                "Rolls back each branch that is marked and that nobody is at work for, and prints each one",
        }
    }

    /// An example, and the statuses.
    pub(crate) fn after_help<'a>(self) -> &'a str {
        match self {
            Verb::Status =>
                "Example: xarm status --port 4187\nStatus 0: done. 1: the server refused it. 2: the words are wrong. 3: no connection, or it was lost.",
            Verb::Branches =>
                "Example: xarm branches --port 4187\nA line has the XID, the state, the mark (0 for none), the timestamp, how many active, suspended and loose associations there are, and the sessions of the active and suspended ones (- for none, or if the server doesn't tell).\nStatus 0: done. 1: the server refused it. 2: the words are wrong. 3: no connection, or it was lost.",
            Verb::Recover =>
                "Example: xarm recover --port 4187 --name bank\nStatus 0: done. 1: the server refused it. 2: the words are wrong. 3: no connection, or it was lost.",
            Verb::Commit =>
                "Example: xarm commit --port 4187 --name bank --yes 1:aa:bb\nAn XID with a negative format number stands after --.\nStatus 0: done. 1: the server refused it, or the answer wasn't yes. 2: the words are wrong. 3: no connection, or it was lost; the call may have been done.",
            Verb::Rollback =>
                "Example: xarm rollback --port 4187 --name bank --yes 1:aa:bb\nAn XID with a negative format number stands after --.\nStatus 0: done. 1: the server refused it, or the answer wasn't yes. 2: the words are wrong. 3: no connection, or it was lost; the call may have been done.",
            Verb::Forget =>
                "Example: xarm forget --port 4187 --name bank --yes 1:aa:bb\nAn XID with a negative format number stands after --.\nStatus 0: done. 1: the server refused it, or the answer wasn't yes. 2: the words are wrong. 3: no connection, or it was lost; the call may have been done.",
            Verb::Decide =>
                "Example: xarm decide --port 4187 --yes commit 1:aa:bb\nAn XID with a negative format number stands after --.\nStatus 0: done. 1: the server refused it, or the answer wasn't yes. 2: the words are wrong. 3: no connection, or it was lost; the call may have been done.",
            Verb::Doom =>
                "Example: xarm doom --port 4187 --yes 1:aa:bb\nAn XID with a negative format number stands after --.\nStatus 0: done. 1: the server refused it, or the answer wasn't yes. 2: the words are wrong. 3: no connection, or it was lost; the call may have been done.",
            Verb::Disconnect =>
                "Example: xarm disconnect --port 4187 --yes 7\nStatus 0: done. 1: the server refused it (no connection has the session, or it disconnects none), or the answer wasn't yes. 2: the words are wrong. 3: no connection, or it was lost; the call may have been done.",
            Verb::Trim =>
                "Example: xarm trim --port 4187\nStatus 0: done. 1: the server refused it. 2: the words are wrong. 3: no connection, or it was lost; the call may have been done.",
            Verb::Restart =>
                "Example: xarm restart --port 4187 --yes\nStatus 0: done. 1: the server refused it, or the answer wasn't yes. 2: the words are wrong. 3: no connection, or it was lost; the call may have been done.",
            Verb::RollbackMarked =>
                "Example: xarm rollback-marked --port 4187 --name bank --yes\nA line has the XID and the code of the rollback, which is the branch's mark.\nStatus 0: done. 1: the server refused one, or the answer wasn't yes. 2: the words are wrong. 3: no connection, or it was lost.",
        }
    }
}

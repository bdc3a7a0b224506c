use crate::document::{named, table_of};
use crate::fault::UsersFault;
use crate::user::User;
use std::alloc::Global;
use std::collections::BTreeMap;
use xa_scram::Name;

/// The most users.
pub const MOST_USERS: usize = 1024;

/// Who may log in.
#[derive(Drop)]
pub struct Users {
    pub(crate) by_name: BTreeMap<Name, User>,
}

impl Users {
    ghost use Rattle.std.specs.Prelude.{◌≡◌, ◌↔◌, ℕ, List, IfOk, IfErr, IfSome, IsOkUnless, IsSome, IsTrue, option_map};
    ghost use Rattle.toml.specs.Data.{get_member};
    ghost use Rattle.toml.specs.Parse.{parse_document};
    ghost use Rattle.xa_users.specs.Believed.Users.{Named, SaysUsers, all_of, user_data, user_of};
    ghost use Rattle.xa_users.specs.Faults.{Says};

    /// The users that a TOML document says: for each a table of two strings, `role` and `verifier`, whose key is the
    /// name.
    ///
    /// # Errors
    /// Out of memory, or the text is no such document, has more than `MOST_USERS` users, or none.
    pub fn read(alloc: Global, text: &str) -> Result<Users, UsersFault>
        // What is read is what the text says.
        ensures found { IfOk result (λ us. SaysUsers text.now (all_of us)) }
        ensures each { IfOk result (λ us. IfSome (parse_document text.now)
            (λ ms. (name : List ℕ) → option_map user_data (user_of us name) ≡ get_member name ms)) }
        // A text says no other users.
        ensures one { IfOk result (λ us. (others : List Named) → SaysUsers text.now others → others ≡ all_of us) }
        // What a text says is read, if there is memory.
        ensures only { (us : List Named) → SaysUsers text.now us → IsOkUnless result UsersFault.Memory }
        // A fault is so.
        ensures fault { IfErr result (Says text.now) }
    {
        let document = table_of(alloc, text)?;
        if document.is_empty() {
            return Err(UsersFault::Nobody);
        }
        if document.len() > MOST_USERS {
            return Err(UsersFault::TooMany);
        }
        let by_name = named(alloc, &document)?;
        Ok(Users { by_name })
    }

    /// Whether somebody has this name. Takes no memory.
    pub fn contains(&self, name: &Name) -> bool
        ensures { IsTrue result ↔ IsSome (user_of self.now name.now) }
    {
        self.by_name.get(name).is_some()
    }
}

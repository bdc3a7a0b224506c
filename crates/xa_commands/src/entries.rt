//! A user more in a text of users.
ghost use Rattle.std.specs.Prelude.{◌≡◌, ◌∷◌, ◌++◌, [], IfErr, IfOk, OnOk, string_bytes};
ghost use Rattle.xa_commands.specs.Entries.{IsFree, IsUnfree, LacksEntry, SaysSomebody, gap_after, unfit, with_entry};
ghost use Rattle.xa_users.specs.Believed.{Users.user_named};

use crate::entry_fault::EntryFault;
use std::alloc::Global;
use xa_roles::Role;
use xa_scram::{Name, Verifier};
use xa_users::{Users, UsersFault, user_text};

/// A text of users with the lines of one more after it, who has another name. The text may also be of nobody, or empty.
pub fn with_user(
    alloc: Global,
    text: &str,
    name: &Name,
    role: Role,
    verifier: &Verifier,
) -> Result<String, EntryFault>
    ensures made { IfOk result (λ new. string_bytes new ≡ with_entry text.now (user_named name.now role verifier.now)) }
    ensures free { OnOk result (IsFree text.now name.now) }
    // A server takes what is made.
    ensures taken { IfOk result (λ new. SaysSomebody (string_bytes new)) }
    ensures fault { IfErr result (LacksEntry text.now (user_named name.now role verifier.now)) }
{
    see_free(alloc, text, name)?;
    let lines = user_text(alloc, name, role, verifier)?;
    let gap = gap_after(text);
    let new = format!(in alloc; "{text}{gap}{lines}")?;
    match Users::read(alloc, new.as_str()) {
        Ok(_) => Ok(new),
        Err(fault) => Err(unfit(fault)),
    }
}

// As which fault it is told that a text with an entry is none of users.
fn unfit(fault: UsersFault) -> EntryFault
    ensures { result ≡ unfit fault }
{
    match fault {
        UsersFault::Memory => EntryFault::Memory,
        fault => EntryFault::Unfit(fault),
    }
}

// Sees that a text is of users, or of nobody, and that nobody has this name there.
fn see_free(alloc: Global, text: &str, name: &Name) -> Result<(), EntryFault>
    ensures free { OnOk result (IsFree text.now name.now) }
    ensures fault { IfErr result (λ fault. IsUnfree text.now name.now fault) }
{
    match Users::read(alloc, text) {
        Ok(users) => {
            if users.contains(name) {
                Err(EntryFault::Taken)
            } else {
                Ok(())
            }
        }
        Err(UsersFault::Nobody) => Ok(()),
        Err(UsersFault::Memory) => Err(EntryFault::Memory),
        Err(fault) => Err(EntryFault::Unread(fault)),
    }
}

// What stands between a text and the entry after it: the end of the last line, if that has none.
fn gap_after(text: &str) -> &'static str
    ensures { result.now ≡ gap_after text.now }
{
    let bytes = text.as_bytes();
    if bytes.is_empty() || bytes[bytes.len() - 1] == b'\n' {
        ""
    } else {
        "\n"
    }
}

ghost use Rattle.std.specs.Prelude.{◌≡◌, ℕ, List, IfSome, IfNone, IfOk, IfErr, IsSomeAnd, MatchOption, string_bytes};
ghost use Rattle.std.specs.Prelude.{◌≤◌, ◌+◌, ◌==◌, All, None, Some, count_by, length, take};
ghost use Rattle.toml.specs.{Data.string, Errors.IsMemory, Errors.IsWithin, Parse.parse_document};
ghost use Rattle.toml.specs.View.{table_view, view};
ghost use Rattle.xa_users.specs.Believed.Users.{IsUser, document_of, parts_data, user_data};
ghost use Rattle.xa_users.specs.{Faults.Misfits, Faults.Says};

use crate::fault::UsersFault;
use crate::misfit::Misfit;
use crate::user::User;
use std::alloc::Global;
use std::collections::BTreeMap;
use toml::de::Error;
use toml::{Table, Value};
use xa_roles::Role;
use xa_scram::{Name, Verifier};

/// The table of a document.
pub(crate) fn table_of(alloc: Global, text: &str) -> Result<Table, UsersFault>
    ensures ok { IfOk result (λ t. parse_document text.now ≡ Some (table_view t)) }
    ensures fault { IfErr result (Says text.now) }
{
    match toml::table_from_str(alloc, text) {
        Ok(table) => Ok(table),
        Err(fault) => Err(unread(text, &fault)),
    }
}

// Why the text wasn't read.
fn unread(text: &str, fault: &Error) -> UsersFault
    requires { IsWithin text.now fault.now }
    ensures fault { (IsMemory fault.now → ⊥) → parse_document text.now ≡ None → Says text.now result }
    ensures memory { IsMemory fault.now → result ≡ UsersFault.Memory }
{
    match fault.span() {
        None => UsersFault::Memory,
        Some(span) => UsersFault::NoToml {
            line: line_at(text, span.start),
        },
    }
}

// The line of a place in the text, counted from 1.
fn line_at(text: &str, place: usize) -> u64
    requires { place ≤ length text.now }
    ensures { result ≡ count_by (λ b. b == 10) (take place text.now) + 1 }
{
    let before = &text.as_bytes()[..place];
    before.iter().filter(|byte| **byte == b'\n').count() as u64 + 1
}

/// The users that a document says, by name.
pub(crate) fn named(alloc: Global, document: &Table) -> Result<BTreeMap<Name, User>, UsersFault>
    ensures said { IfOk result (λ us. table_view document.now ≡ document_of us.entries) }
    ensures each { IfOk result (λ us. All IsUser us.entries) }
    ensures fault { IfErr result
        (λ f. (text : List ℕ) → parse_document text ≡ Some (table_view document.now) → Says text f) }
{
    let mut by_name = BTreeMap::new(alloc);
    for (key, value) in document.iter() {
        match user_at(key.as_str(), value) {
            Ok((name, user)) => {
                by_name.insert(name, user)?;
            }
            Err(misfit) => return Err(UsersFault::at(
                String::from_str(alloc, key.as_str())?,
                misfit,
            )),
        }
    }
    Ok(by_name)
}

/// The user that a member of a document says. Takes no memory.
pub(crate) fn user_at(key: &str, value: &Value) -> Result<(Name, User), Misfit>
    ensures name { IfOk result (λ u. u.0 ≡ key.now) }
    ensures user { IfOk result (λ u. view value.now ≡ user_data u.1) }
    ensures valid { IfOk result IsUser }
    ensures misfit { IfErr result (Misfits key.now (view value.now)) }
{
    let Some(name) = Name::new(key.as_bytes()) else {
        return Err(Misfit::Name);
    };
    let Some((role, verifier)) = parts(value) else {
        return Err(Misfit::Members);
    };
    let Some(role) = Role::of_text(role) else {
        return Err(Misfit::Role);
    };
    let Some(verifier) = Verifier::of_text(verifier.as_bytes()) else {
        return Err(Misfit::Verifier);
    };
    Ok((name, User { role, verifier }))
}

/// The role and the verifier of a user, as texts, if this is a table of those two strings alone. Takes no memory.
pub(crate) fn parts(value: &Value) -> Option<(&str, &str)>
    ensures { MatchOption result ((r v : List ℕ) → view value.now ≡ parts_data r v → ⊥)
        (λ p. view value.now ≡ parts_data p.0.now p.1.now) }
{
    let Value::Table(members) = value else {
        return None;
    };
    let mut left = members.iter();
    let role = text_at(left.next(), "role")?;
    let verifier = text_at(left.next(), "verifier")?;
    match left.next() {
        None => Some((role, verifier)),
        Some(_) => None,
    }
}

// The text of a member, if that has this key.
fn text_at<'a>(member: Option<(&'a String, &'a Value)>, key: &str) -> Option<&'a str>
    ensures found { IfSome result
        (λ t. IsSomeAnd member.entry (λ m. (string_bytes m.0.now ≡ key.now) × (view m.1.now ≡ string t.now))) }
    ensures only { IfNone result (IfSome member.entry
        (λ m. (t : List ℕ) → string_bytes m.0.now ≡ key.now → view m.1.now ≡ string t → ⊥)) }
{
    match member {
        Some((name, Value::String(text))) => {
            if name.as_str() == key {
                Some(text.as_str())
            } else {
                None
            }
        }
        _ => None,
    }
}

ghost use Rattle.std.specs.Prelude.{◌≡◌, ◌++◌, ◌∷◌, [], IfOk, IsUtf8, OnErr, OnOk, false, string_bytes};
ghost use Rattle.toml.specs.{Data.table, Text.IsDocumentText, View.table_view};
ghost use Rattle.xa_users.specs.Believed.{Entries.entry_of, Users.document_of, Users.parts_data, Users.user_named};

use arrayvec::ArrayVec;
use std::alloc::{AllocError, Global};
use toml::{Table, Value};
use xa_roles::Role;
use xa_scram::{MOST_MESSAGE, Name, Verifier};

/// Appends the lines of a user, of which a document of users consists. By themselves they are the document that says
/// this user alone (`entries_say`).
///
/// # Errors
/// Out of memory.
pub fn put_user(
    out: &mut Vec<u8>,
    name: &Name,
    role: Role,
    verifier: &Verifier,
) -> Result<(), AllocError>
    ensures lines { OnOk result (out.new.items ≡ out.old.items ++ entry_of (user_named name.now role verifier.now)) }
    ensures same { OnErr result (out.new.items ≡ out.old.items) }
{
    let text = user_text(*out.allocator(), name, role, verifier)?;
    out.extend_from_slice(text.as_bytes())
}

/// The lines of a user.
///
/// # Errors
/// Out of memory.
pub fn user_text(
    alloc: Global,
    name: &Name,
    role: Role,
    verifier: &Verifier,
) -> Result<String, AllocError>
    ensures { IfOk result (λ s. string_bytes s ≡ entry_of (user_named name.now role verifier.now)) }
{
    let document = document_with(alloc, name, role, verifier)?;
    printed(alloc, &document)
}

// The document of a user alone.
fn document_with(
    alloc: Global,
    name: &Name,
    role: Role,
    verifier: &Verifier,
) -> Result<Table, AllocError>
    ensures { IfOk result (λ t. table_view t ≡ document_of (user_named name.now role verifier.now ∷ [])) }
{
    name.hold();
    verifier.hold();
    let mut text: ArrayVec<u8, MOST_MESSAGE> = ArrayVec::new();
    verifier.put_text(&mut text);
    let members = members(alloc, role.text(), utf8(text.as_slice()))?;
    let mut document = Table::new(alloc);
    document.insert(
        String::from_str(alloc, utf8(name.as_slice()))?,
        Value::Table(members),
    )?;
    Ok(document)
}

// The table of a user.
fn members(alloc: Global, role: &str, verifier: &str) -> Result<Table, AllocError>
    ensures { IfOk result (λ t. table (table_view t) ≡ parts_data role.now verifier.now) }
{
    let mut members = Table::new(alloc);
    members.insert(
        String::from_str(alloc, "role")?,
        Value::string(alloc, role)?,
    )?;
    members.insert(
        String::from_str(alloc, "verifier")?,
        Value::string(alloc, verifier)?,
    )?;
    Ok(members)
}

fn printed(alloc: Global, document: &Table) -> Result<String, AllocError>
    ensures { IfOk result (λ s. IsDocumentText false (table_view document.now) (string_bytes s)) }
{
    match toml::table_to_string(alloc, document) {
        Ok(text) => Ok(text),
        Err(_) => Err(AllocError),
    }
}

fn utf8(bytes: &[u8]) -> &str
    requires { IsUtf8 bytes.now }
    ensures { result.now ≡ bytes.now }
{
    match str::from_utf8(bytes) {
        Ok(text) => text,
        Err(_) => unreachable!(),
    }
}

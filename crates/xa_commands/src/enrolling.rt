//! A user is added to a file of users, or begins it.
ghost use Rattle.std.specs.Io.KnownBytes.{Appends};
ghost use Rattle.std.specs.Prelude.{IfOk, OnOk};
ghost use Rattle.xa_commands.specs.{Enrolled.HasAdded, Enrolled.HasEntered, Enrolled.IsVerifierOfSome, Secrets.IsSecret};
ghost use Rattle.xa_users.specs.Believed.{Users.user_named};

use crate::enrolling_fault::EnrollingFault;
use crate::entries::with_user;
use crate::entry_fault::EntryFault;
use crate::keeping::sync_folder;
use crate::secret::{is_shared, read_secret, secret_in};
use crate::secret_fault::SecretFault;
use std::fs::{self, Files, OpenFile, OpenOptions};
use std::io::{self, ErrorKind, Read, Write};
use std::os::unix::fs::{MetadataExt, OpenOptionsExt, chown};
use std::random::RandomSource;
use xa_roles::Role;
use xa_scram::{LEAST_ITERATIONS, Name, Verifier};

// The most bytes of a file of users.
const MOST_BYTES: u64 = 1_048_576;

// The bytes of a salt.
const SALT_BYTES: usize = 16;

/// Adds a user with a name and a role to the users in the file at a path, or begins the file. The secret is the first line of
/// another file, which is its owner's alone, or, if none is given, of standard input, once standard error has asked for it.
///
/// What is to be in the file is written beside it, with `.new` after its name, synced, and put in its place, with its owner, so
/// that a crash leaves the one or the other. If that fails, the file stays as it was, and nothing is left beside it.
pub fn add_user<'a, R: AllocGlobal + Input + Eprint + Files + RandomSource>(
    rt: &R,
    path: &'a str,
    name: &'a str,
    role: Role,
    secret: Option<&'a str>,
) -> Result<(), EnrollingFault<'a>>
    ensures { OnOk result (HasAdded R.File.contents name.now role) }
{
    let Some(user) = Name::new(name.as_bytes()) else {
        return Err(EnrollingFault::Name(name));
    };
    let secret = secret_of(rt, name, secret)?;
    let verifier = verifier_of(rt, secret.as_slice())?;
    let beside = format!(in rt.alloc(); "{path}.new")?;
    // Who else adds one meanwhile is refused here, so that neither is lost.
    let mut file = make(rt, path, beside.as_str())?;
    let replaced = replace(
        rt,
        &mut file,
        path,
        beside.as_str(),
        name,
        &user,
        role,
        &verifier,
    );
    if let Err(fault) = replaced {
        let _ = fs::remove_file(rt, beside.as_str());
        return Err(fault);
    }
    match sync_folder(rt, path) {
        Ok(()) => Ok(()),
        Err(error) => Err(EnrollingFault::Unsynced { path, error }),
    }
}

// The secret of a user who is to be added.
fn secret_of<'a, R: AllocGlobal + Input + Eprint + Files>(
    rt: &R,
    name: &str,
    path: Option<&'a str>,
) -> Result<Vec<u8>, EnrollingFault<'a>>
    ensures { IfOk result (λ secret. IsSecret secret.items) }
{
    let secret = match path {
        Some(path) => secret_in(rt, path),
        None => {
            let _ = eprint!(rt; "Secret of {name}: ");
            read_secret(rt.alloc(), rt.reader())
        }
    };
    match secret {
        Ok(secret) => Ok(secret),
        Err(SecretFault::Memory) => Err(EnrollingFault::Memory),
        Err(fault) => Err(EnrollingFault::Secret { path, fault }),
    }
}

// A verifier of a secret, with a salt of random bytes.
fn verifier_of<'a, R: RandomSource>(rt: &R, secret: &[u8]) -> Result<Verifier, EnrollingFault<'a>>
    ensures { IfOk result (IsVerifierOfSome secret.now) }
{
    let mut salt = [0u8; SALT_BYTES];
    if let Err(error) = rt.fill_bytes(&mut salt) {
        return Err(EnrollingFault::Random(error));
    }
    match Verifier::of_secret(secret, &salt, LEAST_ITERATIONS) {
        Some(verifier) => Ok(verifier),
        None => unreachable!(),
    }
}

// Makes the file that is to replace the one at a path, its owner's alone, where nothing is.
fn make<'a, R: Files>(rt: &R, path: &'a str, beside: &str) -> Result<R::File, EnrollingFault<'a>> {
    let mut how = OpenOptions::new();
    how.write(true).create_new(true).mode(0o600);
    match how.open(rt, beside) {
        Ok(file) => Ok(file),
        Err(error) if error.kind() == ErrorKind::AlreadyExists => {
            Err(EnrollingFault::Begun { path })
        }
        Err(error) => Err(EnrollingFault::Unwritten { path, error }),
    }
}

// Writes the users at a path and one more to the file beside it, and puts that in its place.
fn replace<'a, R: AllocGlobal + Files>(
    rt: &R,
    file: &mut R::File,
    path: &'a str,
    beside: &str,
    name: &'a str,
    user: &Name,
    role: Role,
    verifier: &Verifier,
) -> Result<(), EnrollingFault<'a>>
    ensures { OnOk result (HasEntered R.File.contents (user_named user.now role verifier.now) file.old file.new) }
{
    let there = read(rt, path)?;
    let text = match with_user(rt.alloc(), there.text.as_str(), user, role, verifier) {
        Ok(text) => text,
        Err(EntryFault::Memory) => return Err(EnrollingFault::Memory),
        Err(fault) => return Err(EnrollingFault::Entry { path, name, fault }),
    };
    match put(rt, file, text.as_str(), there.owner, path, beside) {
        Ok(()) => Ok(()),
        Err(error) => Err(EnrollingFault::Unwritten { path, error }),
    }
}

// Writes a text to a file, gives it to an owner, if need be, and puts it in the place of another one.
fn put<R: Files>(
    rt: &R,
    file: &mut R::File,
    text: &str,
    owner: Option<Owner>,
    path: &str,
    beside: &str,
) -> io::Result<()>
    ensures { OnOk result (Appends (R.File.contents file.old) (R.File.contents file.new) text.now) }
{
    file.write_all(text.as_bytes())?;
    if let Some(Owner { user, group }) = owner {
        let made = file.metadata()?;
        if made.uid() != user || made.gid() != group {
            chown(rt, beside, Some(user), Some(group))?;
        }
    }
    file.sync_all()?;
    fs::rename(rt, beside, path)
}

// Whose a file is.
#[derive(Clone, Copy)]
struct Owner {
    user: u32,
    group: u32,
}

// What a file of users has, and whose it is, if it is there.
#[derive(Drop)]
struct There {
    text: String,
    owner: Option<Owner>,
}

// Reads the file at a path, which is its owner's alone; none is as an empty one.
fn read<'a, R: AllocGlobal + Files>(rt: &R, path: &'a str) -> Result<There, EnrollingFault<'a>> {
    let file = match fs::open(rt, path) {
        Ok(file) => file,
        Err(error) if error.kind() == ErrorKind::NotFound => return Ok(There {
            text: String::new(rt.alloc()),
            owner: None,
        }),
        Err(error) => return Err(EnrollingFault::Unread { path, error }),
    };
    let metadata = match file.metadata() {
        Ok(metadata) => metadata,
        Err(error) => return Err(EnrollingFault::Unread { path, error }),
    };
    if is_shared(metadata.mode()) {
        return Err(EnrollingFault::Shared { path });
    }
    let owner = Owner {
        user: metadata.uid(),
        group: metadata.gid(),
    };
    Ok(There {
        text: text_of(rt, file, path)?,
        owner: Some(owner),
    })
}

// All of an open file, if that is a text, and not too long.
fn text_of<'a, R: AllocGlobal + Files>(
    rt: &R,
    file: R::File,
    path: &'a str,
) -> Result<String, EnrollingFault<'a>> {
    let mut bytes = Vec::new(rt.alloc());
    if let Err(error) = file.take(MOST_BYTES + 1).read_to_end(&mut bytes) {
        return Err(EnrollingFault::Unread { path, error });
    }
    if bytes.len() as u64 > MOST_BYTES {
        return Err(EnrollingFault::TooLong { path });
    }
    match String::from_utf8(bytes) {
        Ok(text) => Ok(text),
        Err(_) => Err(EnrollingFault::NoText { path }),
    }
}

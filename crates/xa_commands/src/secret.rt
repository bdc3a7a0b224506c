//! A secret is the first line of a file, of standard input, or of what is typed.
ghost use Rattle.std.specs.Prelude.{◌≡◌, IfErr, IfOk, IfSome, MatchResult};
ghost use Rattle.std.specs.Io.BufRead.{strip_last};
ghost use Rattle.xa_commands.specs.Secrets.{IsNoSecret, IsSecret, line_of};

use crate::secret_fault::SecretFault;
use std::alloc::Global;
use std::fs::{self, Files, OpenFile};
use std::io::{BufRead, BufReader};
use std::os::unix::fs::MetadataExt;

/// The most bytes of a secret.
pub(crate) const MOST_SECRET: usize = 1_024;

/// The terminal of whoever runs the command.
pub(crate) const TERMINAL: &str = "/dev/tty";

// The most bytes of its line: a carriage return and a line feed may end it.
const MOST_LINE: u64 = 1_026;

/// The secret that is the first line of a file, which is to be its owner's alone.
pub(crate) fn secret_in<R: AllocGlobal + Files>(rt: &R, path: &str) -> Result<Vec<u8>, SecretFault>
    ensures { IfOk result (λ secret. IsSecret secret.items) }
{
    let file = match fs::open(rt, path) {
        Ok(file) => file,
        Err(error) => return Err(SecretFault::Unread(error)),
    };
    match file.metadata() {
        Ok(metadata) if is_shared(metadata.mode()) => return Err(SecretFault::Shared),
        Ok(_) => {}
        Err(error) => return Err(SecretFault::Unread(error)),
    }
    typed_secret(rt, file)
}

/// The secret that is the first line of an open file, or of a terminal.
pub(crate) fn typed_secret<R: AllocGlobal + Files>(
    rt: &R,
    file: R::File,
) -> Result<Vec<u8>, SecretFault>
    ensures { IfOk result (λ secret. IsSecret secret.items) }
{
    match BufReader::new(rt.alloc(), file) {
        Ok(reader) => read_secret(rt.alloc(), reader),
        Err(error) => Err(SecretFault::Unread(error)),
    }
}

/// Whether a file with this mode isn't its owner's alone.
pub(crate) fn is_shared(mode: u32) -> bool {
    mode & 0o077 != 0
}

/// The secret that is the first line of what is read.
pub(crate) fn read_secret<I: BufRead + Drop>(
    alloc: Global,
    input: I,
) -> Result<Vec<u8>, SecretFault>
    ensures secret { IfOk result (λ secret. IsSecret secret.items
        × IfSome (I.remaining input) (λ text. secret.items ≡ line_of text)) }
    ensures fault { IfErr result (λ fault. IfSome (I.remaining input) (λ text. IsNoSecret (line_of text) fault)) }
{
    let mut line = Vec::new(alloc);
    let mut front = input.take(MOST_LINE);
    if let Err(error) = front.read_until(b'\n', &mut line) {
        return Err(SecretFault::Unread(error));
    }
    let secret = without_last(without_last(line.as_slice(), b'\n'), b'\r');
    check(secret)?;
    Ok(secret.to_vec(alloc)?)
}

// Whether a line is a secret.
fn check(line: &[u8]) -> Result<(), SecretFault>
    ensures { MatchResult result (λ _. IsSecret line.now) (IsNoSecret line.now) }
{
    if line.is_empty() {
        return Err(SecretFault::Empty);
    }
    if line.len() > MOST_SECRET {
        return Err(SecretFault::TooLong);
    }
    Ok(())
}

// A line without its last byte, if that is this one.
fn without_last(line: &[u8], byte: u8) -> &[u8]
    ensures { result.now ≡ strip_last byte line.now }
{
    let length = line.len();
    if length > 0 && line[length - 1] == byte {
        &line[..length - 1]
    } else {
        line
    }
}

ghost use Rattle.std.specs.IoError.{error_kind};
ghost use Rattle.std.specs.Io.KnownBytes.{Appends};
ghost use Rattle.std.specs.Option.{option_copied};
ghost use Rattle.std.specs.Prelude.{◌≡◌, ◌≢◌, ◌≤◌, ◌<◌, ◌⊎◌, IfErr, IfOk, None, OnErr, Some, drop, false, length, true};
ghost use Rattle.xa_output.specs.Output.{AppendsPart};

use std::io::{self, ErrorKind, Write};

/// Writes a text, in whatever pieces the writer takes. If this fails, what was written is a part of it.
///
/// The loop is our own, since std's `write_all` doesn't say what it had written before it failed.
pub fn write_text<W: Write>(writer: &mut W, text: &[u8]) -> bool
    ensures whole { result ≡ true → Appends (W.contents writer.old) (W.contents writer.new) text.now }
    ensures part { result ≡ false → AppendsPart text.now (W.contents writer.old) (W.contents writer.new) }
{
    let mut rest = text;
    for _ in 0..u64::MAX {
        if rest.is_empty() {
            break;
        }
        match left_of(writer.write(rest), rest) {
            Some(left) => rest = left,
            None => return false,
        }
    }
    rest.is_empty()
}

/// What is left of a text that isn't empty, by what its writer answered: nothing if the writing has to end, since it
/// failed or took no byte. An interrupted one is retried.
fn left_of(written: io::Result<usize>, text: &[u8]) -> Option<&[u8]>
    requires { IfOk written (λ count. count ≤ length text.now) }
    ensures taken { IfOk written (λ count. 0 < count → option_copied result ≡ Some (drop count text.now)) }
    ensures none_taken { IfOk written (λ count. count ≡ 0 → option_copied result ≡ None) }
    ensures erred { OnErr written ((option_copied result ≡ None) ⊎ (option_copied result ≡ Some text.now)) }
    ensures failed { IfErr written (λ error. error_kind error ≢ ErrorKind.Interrupted → option_copied result ≡ None) }
    ensures interrupted { IfErr written (λ error. error_kind error ≡ ErrorKind.Interrupted
        → option_copied result ≡ Some text.now) }
{
    match written {
        Ok(0) => None,
        Ok(count) => Some(&text[count..]),
        Err(error) if error.kind() == ErrorKind::Interrupted => Some(text),
        Err(_) => None,
    }
}

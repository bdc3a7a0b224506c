//! The names of formats, with which files begin.
ghost use Rattle.std.specs.Prelude.{◌≡◌, length, true, IfErr, IfOk};
ghost use Rattle.xa_log.specs.Believed.Chain.{format_of, magic, start};
ghost use Rattle.xa_log.specs.Reading.{is_newer};
ghost use Rattle.xa_limits.specs.declared.TheConstants.{FORMAT_BYTES};

use crate::CopyFault;
use sha2::{Digest, Sha256};
use xa_limits::{DIGEST_BYTES, FORMAT_BYTES};
use xa_log::Format;

// The offset of a name's last byte, which is a digit.
const DIGIT: usize = FORMAT_BYTES - 1;

// The format that the first eight bytes of a file name, if they do; they may be those of a later format.
pub(crate) fn format_of(front: &[u8]) -> Result<Option<Format>, CopyFault>
    requires { length front.now ≡ FORMAT_BYTES }
    ensures named { IfOk result (λ named. named ≡ format_of front.now) }
    ensures newer { IfErr result (λ fault. (fault ≡ CopyFault.TooNew) × (is_newer front.now ≡ true)) }
{
    if front == b"XARMLOG1".as_slice() {
        return Ok(Some(Format::One));
    }
    if front == b"XARMLOG2".as_slice() {
        return Ok(Some(Format::Two));
    }
    if &front[..DIGIT] == b"XARMLOG".as_slice() && front[DIGIT] >= b'3' && front[DIGIT] <= b'9' {
        return Err(CopyFault::TooNew);
    }
    Ok(None)
}

// The first eight bytes of a file of a format.
pub(crate) fn name_of(format: Format) -> [u8; FORMAT_BYTES]
    ensures { result ≡ magic format }
{
    match format {
        Format::One => *b"XARMLOG1",
        Format::Two => *b"XARMLOG2",
    }
}

// The digest before the first record.
pub(crate) fn first_digest(format: Format) -> [u8; DIGEST_BYTES]
    ensures { result ≡ start format }
{
    match format {
        Format::One => Sha256::digest(b"XARMLOG1".as_slice()),
        Format::Two => Sha256::digest(b"XARMLOG2".as_slice()),
    }
}

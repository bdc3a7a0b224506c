ghost use Rattle.std.specs.Prelude.{◌≡◌, ◌*◌, ◌<◌, ◌++◌, IfOk, IfSome, OnOk, length};
ghost use Rattle.xa_xid.specs.Spelling.{hex, hex_digit};
ghost use Rattle.xa_script.specs.Hexadecimal.{byte_of, bytes_of, digit_of};

use std::alloc::{AllocError, Global};
use xa_codes::Bytes;

/// The bytes that lower case hexadecimal digits spell, two digits a byte.
pub fn read_bytes(alloc: Global, digits: &[u8]) -> Result<Option<Bytes>, AllocError>
    ensures value { IfOk result (λ bytes. bytes ≡ bytes_of digits.now) }
    ensures half { IfOk result (λ read. IfSome read (λ bytes. 2 * length bytes ≡ length digits.now)) }
{
    let mut bytes = Vec::with_capacity(alloc, digits.len() / 2)?;
    let mut rest = digits;
    while let [high, low, behind @ ..] = rest {
        let Some(byte) = read_byte(*high, *low) else {
            return Ok(None);
        };
        bytes.push(byte)?;
        rest = behind;
    }
    if rest.is_empty() {
        Ok(Some(Bytes::new(bytes)))
    } else {
        Ok(None)
    }
}

/// The byte of two lower case hexadecimal digits.
pub fn read_byte(high: u8, low: u8) -> Option<u8>
    ensures { result ≡ byte_of high low }
{
    let high = read_digit(high)?;
    let low = read_digit(low)?;
    Some(16 * high + low)
}

/// The value of a lower case hexadecimal digit.
pub fn read_digit(byte: u8) -> Option<u8>
    ensures value { result ≡ digit_of byte }
    ensures small { IfSome result (λ digit. digit < 16) }
{
    match byte {
        b'0'..=b'9' => Some(byte - b'0'),
        b'a'..=b'f' => Some(byte - b'a' + 10),
        _ => None,
    }
}

/// Adds the digits of bytes to a text.
pub fn push_digits(text: &mut Vec<u8>, bytes: &[u8]) -> Result<(), AllocError>
    ensures { OnOk result (text.new.items ≡ text.old.items ++ hex bytes.now) }
{
    for byte in bytes {
        text.push(digit_byte(*byte / 16))?;
        text.push(digit_byte(*byte % 16))?;
    }
    Ok(())
}

fn digit_byte(digit: u8) -> u8
    requires { digit < 16 }
    ensures { result ≡ hex_digit digit }
{
    if digit < 10 {
        b'0' + digit
    } else {
        b'a' + (digit - 10)
    }
}

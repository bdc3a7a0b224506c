ghost use Rattle.std.specs.Prelude.{◌≡◌, ◌∷◌, [], ◌<◌, ◌^◌, IfSome, ◌+◌, ◌-◌, ◌*◌, if◌then◌else◌, None, Some};
ghost use Rattle.xa_script.specs.Numbers.{below_limit, byte_count_of, call_number_of, count_of, is_digit, moment_of, number_of, value_from};

/// A decimal number from 1 to 2^64 - 1: digits without a leading zero.
pub fn read_number(word: &[u8]) -> Option<u64>
    ensures { result ≡ number_of word.now }
{
    if word.is_empty() || word[0] == b'0' {
        return None;
    }
    let mut number = 0;
    for byte in word {
        number = with_digit(number, *byte)?;
    }
    Some(number)
}

/// A number with one more digit after it.
fn with_digit(number: u64, byte: u8) -> Option<u64>
    ensures { result ≡ below_limit (value_from number (byte ∷ [])) }
{
    if !byte.is_ascii_digit() {
        return None;
    }
    number.checked_mul(10)?.checked_add(u64::from(byte - b'0'))
}

/// A count of XIDs or of seconds: 0, or a decimal number to 2^32 - 1.
pub fn read_count(word: &[u8]) -> Option<u32>
    ensures { result ≡ count_of word.now }
{
    if word == b"0".as_slice() {
        return Some(0);
    }
    u32::try_from(read_number(word)?).ok()
}

/// A moment: 0, or a decimal number to 2^64 - 1.
pub fn read_moment(word: &[u8]) -> Option<u64>
    ensures { result ≡ moment_of word.now }
{
    if word == b"0".as_slice() {
        return Some(0);
    }
    read_number(word)
}

/// How many bytes a crash keeps: 0, or a decimal number to 16,777,216.
pub fn read_byte_count(word: &[u8]) -> Option<u64>
    ensures { result ≡ byte_count_of word.now }
{
    if word == b"0".as_slice() {
        return Some(0);
    }
    let count = read_number(word)?;
    if count <= 16_777_216 {
        Some(count)
    } else {
        None
    }
}

/// Which device call is to fail: a decimal number from 1 to 1,000.
pub fn read_call_number(word: &[u8]) -> Option<u64>
    ensures { result ≡ call_number_of word.now }
{
    let call = read_number(word)?;
    if call <= 1_000 { Some(call) } else { None }
}

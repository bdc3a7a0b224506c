ghost use Rattle.std.specs.Prelude.{◌≡◌};
ghost use Rattle.xa_script.specs.Flags.{bits_of, flag_of, flags_of, joined_from};
ghost use Rattle.xa_script.specs.Parts.{parts};

use crate::hexadecimal::read_digit;
use crate::parts::first_part;
use xa_codes::{
    TMASYNC, TMENDRSCAN, TMFAIL, TMJOIN, TMMIGRATE, TMMULTIPLE, TMNOFLAGS, TMNOWAIT, TMONEPHASE,
    TMRESUME, TMSTARTRSCAN, TMSUCCESS, TMSUSPEND,
};

/// The flags of a word: `TMNOFLAGS`, or names of flags joined by `|`, each at most once, or `0x` and 1 to 8 lower case
/// hexadecimal digits.
pub fn read_flags(word: &[u8]) -> Option<u32>
    ensures { result ≡ flags_of word.now }
{
    if word == b"TMNOFLAGS".as_slice() {
        return Some(TMNOFLAGS);
    }
    match word.strip_prefix(b"0x".as_slice()) {
        Some(digits) => read_bits(digits),
        None => read_names(word),
    }
}

fn read_bits(digits: &[u8]) -> Option<u32>
    ensures { result ≡ bits_of digits.now }
{
    if digits.is_empty() || digits.len() > 8 {
        return None;
    }
    let mut bits = 0;
    for byte in digits {
        bits = 16 * bits + u32::from(read_digit(*byte)?);
    }
    Some(bits)
}

fn read_names(word: &[u8]) -> Option<u32>
    ensures { result ≡ joined_from 0 (parts 124 word.now) }
{
    let mut flags = 0;
    let mut rest = Some(word);
    while let Some(names) = rest {
        let (name, behind) = first_part(names, b'|');
        let flag = read_flag(name)?;
        if flags & flag != 0 {
            return None;
        }
        flags |= flag;
        rest = behind;
    }
    Some(flags)
}

fn read_flag(name: &[u8]) -> Option<u32>
    ensures { result ≡ flag_of name.now }
{
    let Ok(name) = str::from_utf8(name) else {
        return None;
    };
    match name {
        "TMASYNC" => Some(TMASYNC),
        "TMONEPHASE" => Some(TMONEPHASE),
        "TMFAIL" => Some(TMFAIL),
        "TMNOWAIT" => Some(TMNOWAIT),
        "TMRESUME" => Some(TMRESUME),
        "TMSUCCESS" => Some(TMSUCCESS),
        "TMSUSPEND" => Some(TMSUSPEND),
        "TMSTARTRSCAN" => Some(TMSTARTRSCAN),
        "TMENDRSCAN" => Some(TMENDRSCAN),
        "TMMULTIPLE" => Some(TMMULTIPLE),
        "TMJOIN" => Some(TMJOIN),
        "TMMIGRATE" => Some(TMMIGRATE),
        _ => None,
    }
}

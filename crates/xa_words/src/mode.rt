//! The permissions of a file, as `chmod` has them.
ghost use Rattle.std.specs.Prelude.{◌≡◌, ◌<◌, IfSome};
ghost use Rattle.xa_words.specs.Modes.{mode_by, mode_of, octal_of};

/// The permissions that a word spells: three octal digits, or four of which the first is 0.
pub(crate) fn read_mode(word: &str) -> Option<u32>
    ensures { result ≡ mode_of word.now }
{
    match word.as_bytes() {
        [owner, group, others] => mode_by(*owner, *group, *others),
        [b'0', owner, group, others] => mode_by(*owner, *group, *others),
        _ => None,
    }
}

// The permissions of the owner, of the group and of others, by a digit each.
fn mode_by(owner: u8, group: u8, others: u8) -> Option<u32>
    ensures { result ≡ mode_by owner group others }
{
    Some(64 * read_octal(owner)? + 8 * read_octal(group)? + read_octal(others)?)
}

fn read_octal(digit: u8) -> Option<u32>
    ensures read { result ≡ octal_of digit }
    ensures below { IfSome result (λ value. value < 8) }
{
    match digit {
        b'0'..=b'7' => Some(u32::from(digit - b'0')),
        _ => None,
    }
}

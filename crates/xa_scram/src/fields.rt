ghost use Rattle.arrayvec.specs.ArrayVec.{array_vec_len};
ghost use Rattle.std.specs.Prelude.{◌≡◌, ◌≢◌, ◌↔◌, ◌≤◌, ◌+◌, ◌++◌, ◌∷◌, ℕ, List, IfSome, IsSome, Some, MatchOption};
ghost use Rattle.std.specs.Prelude.{length, option_map};
ghost use Rattle.xa_scram.specs.Believed.{Limits.AreBytes, Limits.IsSalt, Messages.base64};
ghost use Rattle.xa_scram.specs.Cutting.{HasNone};

use crate::bytes::{append, hold};
use crate::limits::{MOST_MESSAGE, MOST_SALT};
use arrayvec::ArrayVec;
use base64::engine::general_purpose::STANDARD;

/// A message that is being written.
pub(crate) type Message = ArrayVec<u8, MOST_MESSAGE>;

/// The most bytes that are spelled in Base64.
pub(crate) const MOST_DATA: usize = 33;

/// The characters of this many bytes.
pub(crate) const MOST_CHARACTERS: usize = 44;

/// Appends the Base64 of the bytes.
pub(crate) fn put_base64(out: &mut Message, bytes: &[u8])
    requires { (length bytes.now ≤ MOST_DATA) × (array_vec_len out.old + MOST_CHARACTERS ≤ MOST_MESSAGE) }
    ensures items { out.new.items ≡ out.old.items ++ base64 bytes.now }
    ensures len { array_vec_len out.new ≤ array_vec_len out.old + MOST_CHARACTERS }
{
    let mut characters = [0u8; MOST_CHARACTERS];
    let Ok(count) = STANDARD.encode_slice(bytes, &mut characters) else {
        unreachable!()
    };
    append(out, &characters[..count]);
}

/// The bytes of which this is the Base64. Takes no memory.
pub(crate) fn base64_of(text: &[u8]) -> Option<ArrayVec<u8, MOST_DATA>>
    ensures found { IfSome result (λ v. AreBytes v.items × (length v.items ≤ MOST_DATA) × (text.now ≡ base64 v.items)) }
    ensures only { (bytes : List ℕ) → AreBytes bytes → length bytes ≤ MOST_DATA → text.now ≡ base64 bytes
        → option_map (λ v. v.items) result ≡ Some bytes }
{
    if text.len() > MOST_CHARACTERS {
        return None;
    }
    let mut bytes = [0u8; MOST_DATA];
    let Ok(count) = STANDARD.decode_slice_unchecked(text, &mut bytes) else {
        return None;
    };
    let decoded = &bytes[..count];
    hold(decoded);
    let mut all: ArrayVec<u8, MOST_DATA> = ArrayVec::new();
    append(&mut all, decoded);
    Some(all)
}

/// What is before the first of these bytes, and after it.
pub(crate) fn cut(text: &[u8], byte: u8) -> Option<(&[u8], &[u8])>
    ensures { MatchOption result (HasNone byte text.now)
        (λ r. HasNone byte r.0.now × (text.now ≡ r.0.now ++ (byte ∷ r.1.now))) }
{
    let place = text.iter().position(|other| *other == byte)?;
    Some((&text[..place], &text[place + 1..]))
}

/// What is after this front.
pub(crate) fn after<'a>(text: &'a [u8], front: &[u8]) -> Option<&'a [u8]>
    ensures { MatchOption result ((rest : List ℕ) → text.now ≢ front.now ++ rest)
        (λ rest. text.now ≡ front.now ++ rest.now) }
{
    text.strip_prefix(front)
}

/// The salt of which this is the Base64. Takes no memory.
pub(crate) fn salt_of(text: &[u8]) -> Option<ArrayVec<u8, MOST_SALT>>
    ensures found { IfSome result (λ v. IsSalt v.items × AreBytes v.items × (text.now ≡ base64 v.items)) }
    ensures only { (salt : List ℕ) → IsSalt salt → AreBytes salt → text.now ≡ base64 salt
        → option_map (λ v. v.items) result ≡ Some salt }
{
    let bytes = base64_of(text)?;
    if bytes.is_empty() || bytes.len() > MOST_SALT {
        return None;
    }
    let mut salt: ArrayVec<u8, MOST_SALT> = ArrayVec::new();
    append(&mut salt, bytes.as_slice());
    Some(salt)
}

/// The key, or the proof, of which this is the Base64.
pub(crate) fn key_of(text: &[u8]) -> Option<[u8; 32]>
    ensures found { IfSome result (λ key. (length key ≡ 32) × AreBytes key × (text.now ≡ base64 key)) }
    ensures only { (key : List ℕ) → length key ≡ 32 → AreBytes key → text.now ≡ base64 key → result ≡ Some key }
{
    let bytes = base64_of(text)?;
    array_of(bytes.as_slice())
}

fn array_of(bytes: &[u8]) -> Option<[u8; 32]>
    ensures array { IfSome result (λ a. a ≡ bytes.now) }
    ensures valid { IsSome result ↔ (length bytes.now ≡ 32) }
{
    if bytes.len() != 32 {
        return None;
    }
    let mut all = [0u8; 32];
    all.copy_from_slice(bytes);
    Some(all)
}

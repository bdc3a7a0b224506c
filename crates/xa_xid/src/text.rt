ghost use Rattle.arrayvec.specs.ArrayVec.{array_vec_len};
ghost use Rattle.std.specs.Fmt.{signed_decimal};
ghost use Rattle.std.specs.Int.{w32};
ghost use Rattle.std.specs.Prelude.{◌≡◌, ◌≢◌, ◌↔◌, ◌<◌, ◌≤◌, ◌+◌, ◌*◌, ℕ, ℤ, List, []};
ghost use Rattle.std.specs.Prelude.{◌∷◌, ◌++◌, length, All, Some, IsTrue, IfSome, MatchOption, option_map, decimal, FitsSigned};
ghost use Rattle.xa_xid.specs.Triple.{Triple, IsWithinLimits};
ghost use Rattle.xa_xid.specs.Spelling.{text_of, hex, hex_byte, hex_digit, HasNoColon, IsPlain};
ghost use Rattle.xa_xid.specs.declared.text.TheConstants.{MOST_NUMBER, MOST_TEXT};
ghost use Rattle.xa_limits.specs.declared.TheConstants.{MOST_PART};

use crate::xid::Xid;
use arrayvec::ArrayVec;
use xa_limits::MOST_PART;

/// The most bytes of a format number in decimal.
const MOST_NUMBER: usize = 11;
/// The most bytes of an XID's text: the format number, and two colons with two parts in hexadecimal.
pub const MOST_TEXT: usize = MOST_NUMBER + 2 * (1 + 2 * MOST_PART);

type Text = ArrayVec<u8, MOST_TEXT>;

/// The text of an XID: the format number in decimal, without leading zeros, a colon, gtrid in lower case hexadecimal, a
/// colon, bqual in lower case hexadecimal, as `1:aa:bb` and `1:aabb:`.
impl Xid {
    /// Replaces what the vector holds by the XID's text. Takes no memory.
    pub fn put_text(&self, out: &mut ArrayVec<u8, MOST_TEXT>)
        ensures { out.new.items ≡ text_of self.now }
    {
        out.clear();
        put_number(out, self.format());
        out.push(b':');
        put_hex(out, self.gtrid());
        out.push(b':');
        put_hex(out, self.bqual());
    }

    /// The XID that all of the text spells. Takes no memory.
    pub fn take_text(text: &[u8]) -> Option<Xid>
        // What is read has this spelling.
        ensures found { IfSome result (λ x. IsWithinLimits x × (text.now ≡ text_of x)) }
        // What has this spelling is read.
        ensures only { (x : Triple) → IsWithinLimits x → text.now ≡ text_of x → result ≡ Some x }
    {
        let (format, parts) = cut(text)?;
        let (gtrid, bqual) = cut(parts)?;
        let format = number(format)?;
        let gtrid = unhex(gtrid)?;
        let bqual = unhex(bqual)?;
        Xid::new(format, gtrid.as_slice(), bqual.as_slice()).ok()
    }
}

fn put_number(out: &mut Text, n: i32)
    requires { array_vec_len out.old + MOST_NUMBER ≤ MOST_TEXT }
    ensures value { out.new.items ≡ out.old.items ++ signed_decimal n }
    ensures len { array_vec_len out.new ≤ array_vec_len out.old + MOST_NUMBER }
{
    if n < 0 {
        out.push(b'-');
    }
    put_decimal(out, n.unsigned_abs());
}

fn put_decimal(out: &mut Text, n: u32)
    requires { array_vec_len out.old + length (decimal n) ≤ MOST_TEXT }
    ensures { out.new.items ≡ out.old.items ++ decimal n }
{
    if n >= 10 {
        put_decimal(out, n / 10);
    }
    out.push(b'0' + (n % 10) as u8);
}

fn put_hex(out: &mut Text, bytes: &[u8])
    requires { array_vec_len out.old + 2 * length bytes.now ≤ MOST_TEXT }
    ensures value { out.new.items ≡ out.old.items ++ hex bytes.now }
    ensures len { array_vec_len out.new ≡ array_vec_len out.old + 2 * length bytes.now }
{
    for byte in bytes {
        out.push(digit(*byte / 16));
        out.push(digit(*byte % 16));
    }
}

fn digit(n: u8) -> u8
    requires { n < 16 }
    ensures { result ≡ hex_digit n }
{
    if n < 10 { b'0' + n } else { b'a' + (n - 10) }
}

/// What stands before the first colon, and after it.
fn cut(text: &[u8]) -> Option<(&[u8], &[u8])>
    ensures { MatchOption result (HasNoColon text.now)
        (λ r. HasNoColon r.0.now × (text.now ≡ r.0.now ++ (58 ∷ r.1.now))) }
{
    let colon = text.iter().position(|byte| *byte == b':')?;
    Some((&text[..colon], &text[colon + 1..]))
}

/// The number that this spells without a plus sign, leading zeros or `-0`.
fn number(text: &[u8]) -> Option<i32>
    ensures found { IfSome result (λ z. FitsSigned w32 z × (text.now ≡ signed_decimal z)) }
    ensures only { (z : ℤ) → FitsSigned w32 z → text.now ≡ signed_decimal z → result ≡ Some z }
{
    if !is_plain(text) {
        return None;
    }
    str::from_utf8(text).ok()?.parse().ok()
}

fn is_plain(text: &[u8]) -> bool
    ensures { IsTrue result ↔ IsPlain text.now }
{
    match text {
        [b'0'] => true,
        [b'-', first, ..] | [first, ..] => matches!(first, b'1'..=b'9'),
        [] => false,
    }
}

fn unhex(text: &[u8]) -> Option<ArrayVec<u8, MOST_PART>>
    ensures found { IfSome result (λ v. All (λ b. b < 256) v.items × (text.now ≡ hex v.items)) }
    ensures only { (bytes : List ℕ) → All (λ b. b < 256) bytes → length bytes ≤ MOST_PART → text.now ≡ hex bytes
        → option_map (λ v. v.items) result ≡ Some bytes }
{
    let mut bytes: ArrayVec<u8, MOST_PART> = ArrayVec::new();
    let mut rest = text;
    while let [high, low, others @ ..] = rest {
        bytes.try_push(byte_of(*high, *low)?).ok()?;
        rest = others;
    }
    if rest.is_empty() { Some(bytes) } else { None }
}

fn byte_of(high: u8, low: u8) -> Option<u8>
    ensures { MatchOption result ((b : ℕ) → b < 256 → high ∷ low ∷ [] ≢ hex_byte b)
        (λ b. (b < 256) × (high ∷ low ∷ [] ≡ hex_byte b)) }
{
    Some(16 * value_of(high)? + value_of(low)?)
}

fn value_of(digit: u8) -> Option<u8>
    ensures { MatchOption result ((n : ℕ) → n < 16 → digit ≢ hex_digit n) (λ n. (n < 16) × (digit ≡ hex_digit n)) }
{
    match digit {
        b'0'..=b'9' => Some(digit - b'0'),
        b'a'..=b'f' => Some(10 + (digit - b'a')),
        _ => None,
    }
}

ghost use Rattle.arrayvec.specs.ArrayVec.{array_vec_len};
ghost use Rattle.std.specs.Prelude.{◌≡◌, ◌↔◌, ◌<◌, ◌≤◌, ◌^◌, ◌+◌, ◌++◌, ℕ, IfSome, IsTrue, Some, decimal, length};
ghost use Rattle.xa_scram.specs.Believed.Limits.{IsCount};
ghost use Rattle.xa_scram.specs.Cutting.{IsPlain};

use crate::fields::Message;
use crate::limits::{LEAST_ITERATIONS, MOST_ITERATIONS, MOST_MESSAGE};

/// The most digits of a count of iterations.
pub(crate) const MOST_DIGITS: usize = 7;

/// Whether a count of iterations is within the limits.
pub(crate) fn is_count(iterations: u32) -> bool
    ensures { IsTrue result ↔ IsCount iterations }
{
    iterations >= LEAST_ITERATIONS && iterations <= MOST_ITERATIONS
}

/// Appends the number in decimal.
fn put_decimal(out: &mut Message, n: u32)
    requires { array_vec_len out.old + length (decimal n) ≤ MOST_MESSAGE }
    ensures { out.new.items ≡ out.old.items ++ decimal n }
{
    if n >= 10 {
        put_decimal(out, n / 10);
    }
    out.push(b'0' + (n % 10) as u8);
}

/// Appends a count of iterations in decimal.
pub(crate) fn put_count(out: &mut Message, iterations: u32)
    requires { IsCount iterations × (array_vec_len out.old + MOST_DIGITS ≤ MOST_MESSAGE) }
    ensures items { out.new.items ≡ out.old.items ++ decimal iterations }
    ensures len { array_vec_len out.new ≤ array_vec_len out.old + MOST_DIGITS }
{
    put_decimal(out, iterations);
}

/// The number of iterations that this spells in decimal, without a plus sign or leading zeros. Takes no memory.
pub(crate) fn count_of(text: &[u8]) -> Option<u32>
    ensures found { IfSome result (λ n. IsCount n × (text.now ≡ decimal n)) }
    ensures only { (n : ℕ) → IsCount n → text.now ≡ decimal n → result ≡ Some n }
{
    let n = number_of(text)?;
    if is_count(n) { Some(n) } else { None }
}

fn number_of(text: &[u8]) -> Option<u32>
    ensures found { IfSome result (λ n. text.now ≡ decimal n) }
    ensures only { (n : ℕ) → 0 < n → n < 2 ^ 32 → text.now ≡ decimal n → result ≡ Some n }
{
    if !is_plain(text) {
        return None;
    }
    let Ok(text) = str::from_utf8(text) else {
        return None;
    };
    text.parse().ok()
}

fn is_plain(text: &[u8]) -> bool
    ensures { IsTrue result ↔ IsPlain text.now }
{
    match text {
        [first, ..] => matches!(first, b'1'..=b'9'),
        [] => false,
    }
}

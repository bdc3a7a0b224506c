ghost use Rattle.std.specs.Prelude.{◌≡◌, ◌≢◌, ℕ, ◌<◌, ◌==◌, cond, true, false, IfNone, IfSome};
ghost use Rattle.std.specs.Int.{bit_at};
ghost use Rattle.xa_assoc.specs.Free.{is_free};
ghost use Rattle.xa_limits.specs.declared.TheConstants.{MOST_SESSIONS};

use xa_limits::MOST_SESSIONS;

/// The words whose bits say which of `MOST_SESSIONS` indices are free.
pub const WORDS: usize = MOST_SESSIONS / 64;

/// The least index that is free.
pub fn first_free(free: &[u64; WORDS]) -> Option<u64>
    ensures none { IfNone result ((k : ℕ) → k < MOST_SESSIONS → is_free free.now k ≡ false) }
    ensures within { IfSome result (λ n. n < MOST_SESSIONS) }
    ensures free { IfSome result (λ n. is_free free.now n ≡ true) }
    ensures least { IfSome result (λ n. (k : ℕ) → k < n → is_free free.now k ≡ false) }
{
    let mut before: u64 = 0;
    for word in free {
        if *word != 0 {
            return Some(before + u64::from(word.trailing_zeros()));
        }
        before += 64;
    }
    None
}

/// Makes an index free.
pub fn make_free(free: &mut [u64; WORDS], index: u64)
    requires { index < MOST_SESSIONS }
    ensures { (k : ℕ) → is_free free.new k ≡ cond (index == k) true (is_free free.old k) }
{
    let at = (index / 64) as usize;
    free[at] = with_bit(free[at], index % 64);
}

/// Takes an index.
pub fn make_taken(free: &mut [u64; WORDS], index: u64)
    requires { index < MOST_SESSIONS }
    ensures { (k : ℕ) → is_free free.new k ≡ cond (index == k) false (is_free free.old k) }
{
    let at = (index / 64) as usize;
    free[at] = without_bit(free[at], index % 64);
}

fn with_bit(word: u64, bit: u64) -> u64
    requires { bit < 64 }
    ensures set { bit_at result bit ≡ 1 }
    ensures others { (i : ℕ) → i < 64 → i ≢ bit → bit_at result i ≡ bit_at word i }
{
    word | (1 << bit)
}

fn without_bit(word: u64, bit: u64) -> u64
    requires { bit < 64 }
    ensures clear { bit_at result bit ≡ 0 }
    ensures others { (i : ℕ) → i < 64 → i ≢ bit → bit_at result i ≡ bit_at word i }
{
    word & !(1 << bit)
}

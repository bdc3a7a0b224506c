ghost use Rattle.std.specs.Prelude.{◌≡◌};
ghost use Rattle.xa_script.specs.Lines.{effect_of};

/// What a device call that is to fail does all the same.
#[derive(Clone, Copy, Debug, PartialEq, Eq)]
pub enum CallEffect {
    /// It has its effect, and answers a fault.
    Kept,
    /// It has none, and answers a fault.
    Lost,
}

/// The effect of a word.
pub fn read_effect(word: &[u8]) -> Option<CallEffect>
    ensures { result ≡ effect_of word.now }
{
    if word == b"kept".as_slice() {
        Some(CallEffect::Kept)
    } else if word == b"lost".as_slice() {
        Some(CallEffect::Lost)
    } else {
        None
    }
}

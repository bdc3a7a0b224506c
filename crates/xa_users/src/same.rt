ghost use Rattle.std.specs.Prelude.{◌≡◌, ◌↔◌, IsTrue};
ghost use Rattle.xa_scram.specs.Believed.{Messages.text_of};

use arrayvec::ArrayVec;
use xa_scram::{MOST_MESSAGE, Verifier};

/// Whether two verifiers are one: their texts are equal, of which each is one verifier's. Takes no memory.
pub(crate) fn are_same(left: &Verifier, right: &Verifier) -> bool
    ensures { IsTrue result ↔ (left.now ≡ right.now) }
{
    left.hold();
    right.hold();
    text_of(left).as_slice() == text_of(right).as_slice()
}

fn text_of(verifier: &Verifier) -> ArrayVec<u8, MOST_MESSAGE>
    ensures { result.items ≡ text_of verifier.now }
{
    let mut text = ArrayVec::new();
    verifier.put_text(&mut text);
    text
}

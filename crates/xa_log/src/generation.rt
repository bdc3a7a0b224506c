//! A log's generation: the number in its first body.
ghost use Rattle.std.specs.Prelude.{◌≡◌, ◌==◌, if◌then◌else◌};
ghost use Rattle.xa_log.specs.{Believed.Pair.number_in, Believed.Pair.generation, Reading.bodies_of};

use crate::looking::number_of;
use xa_limits::FIRST_OFFSET;
use xa_shared::SharedBytes;

/// The generation of a log of these bodies: the number in the bytes from `NUMBER_OFFSET` up to `NUMBER_END` of the first
/// one, 0 in a shorter one or if there is none.
pub fn generation_of_bodies(bodies: &[Vec<u8>]) -> usize
    ensures { result ≡ generation (bodies_of bodies.now) }
{
    if bodies.is_empty() {
        return 0;
    }
    number_of(&bodies[0])
}

/// That of a log that a checkpoint begins with these bodies.
pub fn generation_of_snapshot(bodies: &[SharedBytes]) -> usize
    ensures { result ≡ generation bodies.now }
{
    if bodies.is_empty() {
        return 0;
    }
    number_of(bodies[0].as_slice())
}

// That of a log of this generation that ends here, with one more body: the first body's number is the log's.
pub(crate) fn generation_with(number: usize, end: u64, body: &[u8]) -> usize
    ensures { result ≡ (if end == FIRST_OFFSET then number_in body.now else number) }
{
    if end == FIRST_OFFSET {
        return number_of(body);
    }
    number
}

//! Where a log's bytes show that they were damaged.
ghost use Rattle.std.specs.Prelude.{◌≡◌, ◌⊎◌, ◌+◌, ◌≤◌, List, ℕ, [], length, slice_index};
ghost use Rattle.xa_log.specs.Believed.Damage.{breaks_behind, goes_on, is_appended, is_cut};
ghost use Rattle.xa_log.specs.Believed.Damage.{is_renamed, is_snapshot, lost_first, shows_first};
ghost use Rattle.xa_log.specs.{Behind.IsBehind, Believed.Chain.behind_text, Reading.bodies_of, Shown.IsLeftOut};
ghost use Rattle.xa_log.specs.{Believed.Generation.generation, Believed.LeftOut.has_own};
ghost use Rattle.xa_limits.specs.declared.TheConstants.{LENGTH_BYTES};
ghost use Rattle.xa_log.specs.declared.format.Format.TheVariants.{Two};
ghost use Rattle.xa_log.specs.declared.looking.TheConstants.{NUMBER_END};

use crate::behind::Behind;
use crate::format::Format;
use crate::generation::generation_of_bodies;
use crate::left_out::{Left, is_own_left};
use crate::looking::{NUMBER_END, number_of};
use crate::record::{chained, size_of};
use xa_limits::{AROUND_BODY, LENGTH_BYTES};

/// The least first byte of a body that an append adds, but for the first of a log of generation 1.
pub const LEAST_APPENDED: u8 = 2;

/// The greatest one. A checkpoint's bodies begin with others.
pub const MOST_APPENDED: u8 = 6;

/// The bytes of the record of a boot, which is the first one of a checkpoint.
pub const BOOT_RECORD: usize = AROUND_BODY + NUMBER_END;

// Whether an appended body begins like this.
fn is_appended_byte(first: u8) -> bool
    ensures { result ≡ is_appended first }
{
    first >= LEAST_APPENDED && first <= MOST_APPENDED
}

// Whether a body was appended.
fn is_appended_body(body: &[u8]) -> bool
    ensures { result ≡ is_appended (slice_index body.now 0) }
{
    !body.is_empty() && is_appended_byte(body[0])
}

// Whether none of these bodies was appended.
pub(crate) fn are_snapshot(bodies: &[Vec<u8>]) -> bool
    ensures { result ≡ is_snapshot (bodies_of bodies.now) }
{
    for body in bodies {
        if is_appended_body(body) {
            return false;
        }
    }
    true
}

// Whether this may stand after a snapshot.
fn may_follow(behind: Behind) -> bool
    ensures { (tail : List ℕ) → IsBehind tail behind → result ≡ goes_on tail }
{
    match behind {
        Behind::Cut => false,
        Behind::Length => true,
        Behind::First(first) => first == 0 || is_appended_byte(first),
    }
}

// Whether the snapshot of a log of these bodies is cut, with this after it. One of no bodies isn't, whatever stands after
// it.
pub(crate) fn is_broken(format: Format, bodies: &[Vec<u8>], behind: Behind) -> bool
    ensures { (file : List ℕ)
        → (bodies_of bodies.now ≡ []) ⊎ IsBehind (behind_text format (bodies_of bodies.now) file) behind
        → result ≡ is_cut format (bodies_of bodies.now) file }
{
    match format {
        Format::One => false,
        Format::Two => is_short(bodies, behind),
    }
}

// The same in the second format, whose checkpoints end in one more zero byte.
fn is_short(bodies: &[Vec<u8>], behind: Behind) -> bool
    ensures { (file : List ℕ)
        → (bodies_of bodies.now ≡ []) ⊎ IsBehind (behind_text Two (bodies_of bodies.now) file) behind
        → result ≡ is_cut Two (bodies_of bodies.now) file }
{
    if generation_of_bodies(bodies) < 2 || !are_snapshot(bodies) {
        return false;
    }
    !may_follow(behind)
}

// Whether a log of these bodies, after which this stands, and after that what is left out, breaks off after them.
pub(crate) fn is_broken_behind(
    format: Format,
    bodies: &[Vec<u8>],
    behind: Behind,
    left: &Left,
) -> bool
    ensures { (file : List ℕ)
        → (bodies_of bodies.now ≡ []) ⊎ IsBehind (behind_text format (bodies_of bodies.now) file) behind
        → IsLeftOut format (bodies_of bodies.now) file left.now
        → result ≡ breaks_behind format (bodies_of bodies.now) file }
{
    is_broken(format, bodies, behind) || stops_short(bodies, left)
}

// Whether it stops short of what is left out.
fn stops_short(bodies: &[Vec<u8>], left: &Left) -> bool
    ensures { result ≡ has_own (generation (bodies_of bodies.now)) left.now.distance (bodies_of left.now.bodies.items) }
{
    is_own_left(&left.bodies, generation_of_bodies(bodies), left.distance)
}

// Whether these bytes, which stand after a file's name, are a boot's record that chains after the other format's.
fn is_renamed_front(front: &[u8], format: Format) -> bool
    ensures { result ≡ is_renamed format front.now }
{
    if front.len() < BOOT_RECORD {
        return false;
    }
    if size_of(front) != NUMBER_END {
        return false;
    }
    let start = format.other().first_digest();
    let end = LENGTH_BYTES + NUMBER_END;
    let body = &front[LENGTH_BYTES..end];
    let tail = &front[end..BOOT_RECORD];
    chained(body, tail, &start).is_some()
}

// Whether these bytes begin with a length that isn't 0, and a body of generation 2 or more that wasn't appended.
fn is_first_shown(front: &[u8]) -> bool
    requires { LENGTH_BYTES + NUMBER_END ≤ length front.now }
    ensures { result ≡ shows_first front.now }
{
    let number = number_of(&front[LENGTH_BYTES..LENGTH_BYTES + NUMBER_END]);
    size_of(front) != 0 && !is_appended_byte(front[LENGTH_BYTES]) && number > 1
}

// Whether these bytes, which stand after a file's name, show the first record of a checkpoint, if none chains there.
pub(crate) fn is_lost_first(front: &[u8], format: Format) -> bool
    ensures { result ≡ lost_first format front.now }
{
    if front.len() < LENGTH_BYTES + NUMBER_END {
        return false;
    }
    is_first_shown(front) && !is_renamed_front(front, format)
}

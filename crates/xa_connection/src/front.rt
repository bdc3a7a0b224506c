ghost use Rattle.std.specs.Prelude.{◌≡◌};
ghost use Rattle.xa_connection.specs.Fronts.{IsFront};
ghost use Rattle.xa_desk.specs.Believed.Serving.{IsCut};

use xa_bytes::take_u32;
use xa_limits::MOST_CONTENT;

/// What is at the front of some bytes.
#[derive(Clone, Copy, Debug, PartialEq, Eq)]
pub enum Front {
    /// A frame, whose content has this many bytes.
    Whole(usize),
    /// A part of a frame, or nothing.
    Cut,
    /// A length above `MOST_CONTENT`.
    TooLong,
}

/// What is at the front of these bytes. After a length that is too great nothing is looked at.
pub fn front_of(bytes: &[u8]) -> Front
    ensures front { IsFront bytes.now result }
    ensures cut { IsCut bytes.now → result ≡ Front.Cut }
{
    let Some((count, rest)) = take_u32(bytes) else {
        return Front::Cut;
    };
    let count = count as usize;
    if count > MOST_CONTENT {
        Front::TooLong
    } else if rest.len() < count {
        Front::Cut
    } else {
        Front::Whole(count)
    }
}

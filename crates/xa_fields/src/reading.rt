ghost use Rattle.std.specs.Prelude.{◌≡◌, IfOk, length};
ghost use Rattle.xa_fields.specs.{Answers.Gives, Limits.IsKey};
ghost use Rattle.xa_fields.specs.Reading.{bytes_at, short_at, key_at, value_at, direction_at, name_at};

use crate::fault::FieldFault;
use xa_bytes::take_u16;
use xa_codes::Direction;
use xa_limits::{MOST_KEY, MOST_VALUE};
use xa_xid::Xid;

/// The most bytes after a length of one byte.
pub const MOST_SHORT: usize = 255;

fn take_bytes(len: usize, bytes: &[u8]) -> Result<(&[u8], &[u8]), FieldFault>
    ensures bytes { Gives (λ x. (x.0.now, x.1.now)) result (bytes_at len bytes.now) }
    ensures length { IfOk result (λ x. length x.0.now ≡ len) }
{
    if bytes.len() < len {
        return Err(FieldFault::Cut);
    }
    Ok(bytes.split_at(len))
}

/// The bytes after a length of one byte, and what stands after them. Takes no memory.
#[tactic(auto, unfolding(crate::specs::Reading::short_at))]
pub fn take_short(bytes: &[u8]) -> Result<(&[u8], &[u8]), FieldFault>
    ensures { Gives (λ x. (x.0.now, x.1.now)) result (short_at bytes.now) }
{
    match bytes {
        [] => Err(FieldFault::Cut),
        [len, rest @ ..] => take_bytes(usize::from(*len), rest),
    }
}

/// The key after its length of one byte, and what stands after it. Takes no memory.
#[tactic(auto, unfolding(crate::specs::Reading::key_at))]
pub fn take_key(bytes: &[u8]) -> Result<(&[u8], &[u8]), FieldFault>
    ensures key { Gives (λ x. (x.0.now, x.1.now)) result (key_at bytes.now) }
    ensures limits { IfOk result (λ x. IsKey x.0.now) }
{
    match bytes {
        [] => Err(FieldFault::Cut),
        [len, rest @ ..] => {
            let len = usize::from(*len);
            if len == 0 || len > MOST_KEY {
                return Err(FieldFault::Limit);
            }
            take_bytes(len, rest)
        }
    }
}

/// The value after its length of two bytes, and what stands after it. Takes no memory.
#[tactic(auto, unfolding(crate::specs::Reading::value_at))]
pub fn take_value(bytes: &[u8]) -> Result<(&[u8], &[u8]), FieldFault>
    ensures { Gives (λ x. (x.0.now, x.1.now)) result (value_at bytes.now) }
{
    let (len, rest) = take_u16(bytes).ok_or(FieldFault::Cut)?;
    let len = usize::from(len);
    if len > MOST_VALUE {
        return Err(FieldFault::Limit);
    }
    take_bytes(len, rest)
}

/// The direction that the first byte stands for, and what stands after it. Takes no memory.
#[tactic(auto, unfolding(crate::specs::Reading::direction_at))]
pub fn take_direction(bytes: &[u8]) -> Result<(Direction, &[u8]), FieldFault>
    ensures { Gives (λ x. (x.0, x.1.now)) result (direction_at bytes.now) }
{
    match bytes {
        [] => Err(FieldFault::Cut),
        [1, rest @ ..] => Ok((Direction::Commit, rest)),
        [2, rest @ ..] => Ok((Direction::Rollback, rest)),
        [_, ..] => Err(FieldFault::Limit),
    }
}

/// The XID at the front, and what stands after it. Takes no memory.
#[tactic(auto, unfolding(crate::specs::Reading::name_at))]
pub fn take_xid(bytes: &[u8]) -> Result<(Xid, &[u8]), FieldFault>
    ensures { Gives (λ x. (x.0, x.1.now)) result (name_at bytes.now) }
{
    match Xid::take(bytes) {
        Some((xid, len)) => Ok((xid, &bytes[len..])),
        None => Err(FieldFault::Limit),
    }
}

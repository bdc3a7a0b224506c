ghost use Rattle.std.specs.Int.{w16, to_be_bytes};
ghost use Rattle.std.specs.Prelude.{◌≡◌, ◌++◌, OnOk};
ghost use Rattle.xa_fields.specs.Spelling.{short_bytes, value_bytes, direction_bytes};
ghost use Rattle.xa_xid.specs.{Spelling.bytes_of, Triple.IsWithinLimits};

use arrayvec::ArrayVec;
use std::alloc::AllocError;
use xa_bytes::put_u16;
use xa_codes::Direction;
use xa_limits::XID_BYTES;
use xa_xid::Xid;

/// Appends bytes after their length in one byte: the last byte of it, if they are more than `MOST_SHORT`.
pub fn put_short(out: &mut Vec<u8>, bytes: &[u8]) -> Result<(), AllocError>
    ensures { OnOk result (out.new.items ≡ out.old.items ++ short_bytes bytes.now) }
{
    out.push((bytes.len() % 256) as u8)?;
    out.extend_from_slice(bytes)
}

/// Appends a value after its length in two bytes.
pub fn put_value(out: &mut Vec<u8>, value: &[u8]) -> Result<(), AllocError>
    ensures { OnOk result (out.new.items ≡ out.old.items ++ value_bytes value.now) }
{
    put_length(out, value.len())?;
    out.extend_from_slice(value)
}

/// Appends the last two bytes of a length.
pub fn put_length(out: &mut Vec<u8>, len: usize) -> Result<(), AllocError>
    ensures { OnOk result (out.new.items ≡ out.old.items ++ to_be_bytes w16 len) }
{
    put_u16(out, (len % 65536) as u16)
}

/// Appends the byte that stands for a direction.
pub fn put_direction(out: &mut Vec<u8>, direction: Direction) -> Result<(), AllocError>
    ensures { OnOk result (out.new.items ≡ out.old.items ++ direction_bytes direction) }
{
    Ok(out.push(direction as u8)?)
}

/// Appends the bytes of an XID.
pub fn put_xid(out: &mut Vec<u8>, xid: &Xid) -> Result<(), AllocError>
    ensures bytes { OnOk result (out.new.items ≡ out.old.items ++ bytes_of xid.now) }
    ensures limits { IsWithinLimits xid.now }
{
    let mut bytes: ArrayVec<u8, XID_BYTES> = ArrayVec::new();
    xid.put(&mut bytes);
    out.extend_from_slice(bytes.as_slice())
}

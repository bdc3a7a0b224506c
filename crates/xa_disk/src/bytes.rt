//! Reads and writes of bytes in memory.
ghost use Rattle.std.specs.Prelude.{◌≡◌, ◌+◌, ◌-◌, ◌≤◌, ◌++◌, ◌↔◌, length, take, drop, replicate, OnOk, OnErr, IsTrue};
ghost use Rattle.xa_disk.specs.Disk.{put, Reads};

use std::alloc::AllocError;

// Zeros after the end, up to a length.
fn grow(bytes: &mut Vec<u8>, len: usize) -> Result<(), AllocError>
    ensures ok { OnOk result (bytes.new.items ≡ bytes.old.items ++ replicate (len - length bytes.old.items) 0) }
    ensures err { OnErr result (bytes.new.items ≡ bytes.old.items) }
{
    if len > bytes.len() {
        bytes.resize(len, 0)?;
    }
    Ok(())
}

// Writes over what is there.
fn overlay(bytes: &mut [u8], at: usize, from: &[u8])
    requires { at + length from.now ≤ length bytes.old }
    ensures { bytes.new ≡ take at bytes.old ++ from.now ++ drop (at + length from.now) bytes.old }
{
    bytes[at..at + from.len()].copy_from_slice(from);
}

// Writes over what is there and past the end; a gap is filled with zeros.
pub(crate) fn put_bytes(bytes: &mut Vec<u8>, at: u64, from: &[u8]) -> Result<(), AllocError>
    ensures ok { OnOk result (bytes.new.items ≡ put bytes.old.items at from.now) }
    ensures err { OnErr result (bytes.new.items ≡ bytes.old.items) }
{
    let start = at as usize;
    let end = start.checked_add(from.len()).ok_or(AllocError)?;
    grow(bytes, end)?;
    overlay(bytes, start, from);
    Ok(())
}

// Fills `into` from an offset on, if there are that many bytes, and returns whether there are.
pub(crate) fn read_bytes(bytes: &[u8], at: u64, into: &mut [u8]) -> bool
    ensures within { IsTrue result ↔ at + length into.old ≤ length bytes.now }
    ensures value { IsTrue result → Reads bytes.now at into.new }
{
    let start = at as usize;
    if start > bytes.len() || into.len() > bytes.len() - start {
        return false;
    }
    into.copy_from_slice(&bytes[start..start + into.len()]);
    true
}

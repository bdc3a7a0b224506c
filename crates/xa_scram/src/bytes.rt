ghost use Rattle.arrayvec.specs.ArrayVec.{array_vec_len};
ghost use Rattle.std.specs.Prelude.{◌≡◌, ◌↔◌, ◌<◌, ◌≤◌, ◌+◌, ◌++◌, All, IsTrue, length};
ghost use Rattle.xa_scram.specs.Believed.{Keyed.xor_bytes, Limits.AreBytes};

use arrayvec::ArrayVec;

/// Appends bytes that there is room for.
pub(crate) fn append<const N: usize>(out: &mut ArrayVec<u8, N>, bytes: &[u8])
    requires { array_vec_len out.old + length bytes.now ≤ N }
    ensures items { out.new.items ≡ out.old.items ++ bytes.now }
    ensures len { array_vec_len out.new ≡ array_vec_len out.old + length bytes.now }
{
    let _ = out.try_extend_from_slice(bytes);
}

/// The bytes, each xored with the other's.
pub(crate) fn xored(left: &[u8; 32], right: &[u8; 32]) -> [u8; 32]
    ensures { result ≡ xor_bytes left.now right.now }
{
    let mut all = *left;
    for i in 0..32 {
        all[i] = left[i] ^ right[i];
    }
    all
}

/// Whether the bytes are equal. As far as the source says, the time doesn't depend on where they differ; that the
/// compiler keeps it so isn't proved.
pub(crate) fn are_same(left: &[u8; 32], right: &[u8; 32]) -> bool
    ensures { IsTrue result ↔ (left.now ≡ right.now) }
{
    let mut differing = 0u8;
    for i in 0..32 {
        differing |= left[i] ^ right[i];
    }
    differing == 0
}

/// What bytes hold, for a proof. It does nothing.
pub(crate) fn hold(bytes: &[u8])
    ensures { AreBytes bytes.now }
{
    let _bytes = bytes;
}

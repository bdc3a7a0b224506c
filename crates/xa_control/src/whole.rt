ghost use Rattle.std.specs.Int.{to_be_bytes, w64};
ghost use Rattle.std.specs.Prelude.{◌≡◌, ◌<◌, ◌^◌, ℕ, IfSome, Some};
ghost use Rattle.xa_xid.specs.{Spelling.bytes_of, Triple.Triple, Triple.IsWithinLimits};

use xa_bytes::take_u64;
use xa_fields::take_xid;
use xa_xid::Xid;

/// The number that these bytes are, if they are eight. Takes no memory.
pub(crate) fn u64_of(bytes: &[u8]) -> Option<u64>
    ensures found { IfSome result (λ n. (bytes.now ≡ to_be_bytes w64 n) × (n < 2 ^ 64)) }
    ensures only { (n : ℕ) → n < 2 ^ 64 → bytes.now ≡ to_be_bytes w64 n → result ≡ Some n }
{
    match take_u64(bytes) {
        Some((number, [])) => Some(number),
        _ => None,
    }
}

/// The XID that these bytes are, if they are one's. Takes no memory.
pub(crate) fn xid_of(bytes: &[u8]) -> Option<Xid>
    ensures found { IfSome result (λ x. (bytes.now ≡ bytes_of x) × IsWithinLimits x) }
    ensures only { (x : Triple) → IsWithinLimits x → bytes.now ≡ bytes_of x → result ≡ Some x }
{
    match take_xid(bytes) {
        Ok((xid, rest)) => { if rest.is_empty() { Some(xid) } else { None } }
        Err(_) => None,
    }
}

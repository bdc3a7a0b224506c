//! The bytes of one record: a length, a body and a digest (SHA-256, FIPS 180-4).
ghost use Rattle.std.specs.Prelude.{◌≡◌, ◌+◌, ◌≤◌, ◌++◌, IfSome, None, length, take};
ghost use Rattle.sha2.specs.Sha256.{sha256};
ghost use Rattle.std.specs.Str.{bytes_eq};
ghost use Rattle.std.specs.Int.{w32, to_be_bytes};
ghost use Rattle.xa_log.specs.Believed.Chain.{size_at};
ghost use Rattle.xa_log.specs.Believed.Damage.{is_appended};
ghost use Rattle.xa_log.specs.Believed.Generation.{number_in};
ghost use Rattle.xa_limits.specs.declared.TheConstants.{AROUND_BODY, LENGTH_BYTES, MOST_BODY};
ghost use Rattle.xa_copy.specs.Records.{Chains, IsUnchained};

use sha2::{Digest, Sha256};
use xa_limits::{DIGEST_BYTES, LENGTH_BYTES};
use xa_log::{LEAST_APPENDED, MOST_APPENDED, NUMBER_END, NUMBER_OFFSET};

// The length that stands at the front.
pub(crate) fn size_of(bytes: &[u8]) -> usize
    requires { LENGTH_BYTES ≤ length bytes.now }
    ensures value { result ≡ size_at bytes.now }
    ensures spelled { take LENGTH_BYTES bytes.now ≡ to_be_bytes w32 result }
{
    u32::from_be_bytes([bytes[0], bytes[1], bytes[2], bytes[3]]) as usize
}

// The number in a body, by which a log's generation is told; 0 in a shorter one.
pub(crate) fn number_of(body: &[u8]) -> usize
    ensures { result ≡ number_in body.now }
{
    if body.len() < NUMBER_END {
        return 0;
    }
    size_of(&body[NUMBER_OFFSET..NUMBER_END])
}

// Whether an appended body begins so; a checkpoint's begin otherwise.
pub(crate) fn is_appended(first: u8) -> bool
    ensures { result ≡ is_appended first }
{
    first >= LEAST_APPENDED && first <= MOST_APPENDED
}

// The digest of a record with a body of this size, if it chains after one of this digest.
pub(crate) fn chained(
    bytes: &[u8],
    size: usize,
    prev: &[u8; DIGEST_BYTES],
) -> Option<[u8; DIGEST_BYTES]>
    requires some { 1 ≤ size }
    requires small { size ≤ MOST_BODY }
    requires long { length bytes.now ≡ AROUND_BODY + size }
    ensures chains { IfSome result (λ digest. Chains size prev.now bytes.now digest) }
    ensures none { result ≡ None → IsUnchained size prev.now bytes.now }
{
    let split = bytes.len() - DIGEST_BYTES;
    if size_of(bytes) != size {
        return None;
    }
    let digest = digest_of(prev, &bytes[..split]);
    if is_same(&bytes[split..], &digest) {
        Some(digest)
    } else {
        None
    }
}

// The digest of a digest and a length with its body.
fn digest_of(prev: &[u8; DIGEST_BYTES], headed: &[u8]) -> [u8; DIGEST_BYTES]
    ensures { result ≡ sha256 (prev.now ++ headed.now) }
{
    let mut hasher = Sha256::new();
    hasher.update(prev.as_slice());
    hasher.update(headed);
    hasher.finalize()
}

fn is_same(stored: &[u8], digest: &[u8; DIGEST_BYTES]) -> bool
    ensures { result ≡ bytes_eq stored.now digest.now }
{
    stored == digest.as_slice()
}

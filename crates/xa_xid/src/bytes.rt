ghost use Rattle.arrayvec.specs.ArrayVec.{array_vec_len};
ghost use Rattle.std.specs.Prelude.{◌≡◌, ◌≤◌, ◌+◌, List, ℕ, length, ◌++◌, Some, IfSome};
ghost use Rattle.xa_xid.specs.{Triple.Triple, Triple.IsWithinLimits, Spelling.bytes_of, Spelling.BeginsWith, Reading.xid_at};
ghost use Rattle.xa_xid.specs.{Reading.parts_at};

use crate::xid::Xid;
use arrayvec::ArrayVec;
use xa_limits::{MOST_PART, XID_BYTES};

/// The bytes of an XID: the format number in 4 bytes, big-endian, a byte each for the lengths of gtrid and bqual,
/// gtrid, bqual.
impl Xid {
    /// Replaces what the vector holds by the XID's bytes. Takes no memory.
    pub fn put(&self, out: &mut ArrayVec<u8, XID_BYTES>)
        ensures bytes { out.new.items ≡ bytes_of self.now }
        ensures limits { IsWithinLimits self.now }
    {
        let gtrid = self.gtrid();
        let bqual = self.bqual();
        out.clear();
        append(out, &self.format().to_be_bytes());
        out.push(gtrid.len() as u8);
        out.push(bqual.len() as u8);
        append(out, gtrid);
        append(out, bqual);
    }

    /// The XID at the front, and how many bytes it takes; bytes may follow it. Takes no memory.
    pub fn take(bytes: &[u8]) -> Option<(Xid, usize)>
        // What is read has this spelling.
        ensures found { IfSome result (λ r. BeginsWith bytes.now r.0 r.1) }
        // What has this spelling is read.
        ensures only { (x : Triple) (rest : List ℕ) → IsWithinLimits x → bytes.now ≡ bytes_of x ++ rest
            → result ≡ Some (x, length (bytes_of x)) }
        ensures exact { result ≡ xid_at bytes.now }
    {
        front(bytes)
    }
}

#[tactic(auto, unfolding(crate::specs::Reading::xid_at))]
fn front(bytes: &[u8]) -> Option<(Xid, usize)>
    ensures { result ≡ xid_at bytes.now }
{
    if bytes.len() < 6 {
        return None;
    }
    let (head, parts) = bytes.split_at(6);
    let format = i32::from_be_bytes([head[0], head[1], head[2], head[3]]);
    parts_of(format, usize::from(head[4]), usize::from(head[5]), parts)
}

#[tactic(auto, unfolding(crate::specs::Reading::parts_at))]
fn parts_of(format: i32, gtrid_len: usize, bqual_len: usize, bytes: &[u8]) -> Option<(Xid, usize)>
    requires { (gtrid_len ≤ 255) × (bqual_len ≤ 255) }
    ensures { result ≡ parts_at format gtrid_len bqual_len bytes.now }
{
    if bytes.len() < gtrid_len + bqual_len {
        return None;
    }
    let (gtrid, rest) = bytes.split_at(gtrid_len);
    let (bqual, _) = rest.split_at(bqual_len);
    let xid = Xid::new(format, gtrid, bqual).ok()?;
    Some((xid, 6 + gtrid_len + bqual_len))
}

/// Appends bytes that there is room for.
fn append<const N: usize>(out: &mut ArrayVec<u8, N>, bytes: &[u8])
    requires { array_vec_len out.old + length bytes.now ≤ N }
    ensures { out.new.items ≡ out.old.items ++ bytes.now }
{
    let _ = out.try_extend_from_slice(bytes);
}

ghost use Rattle.std.specs.Prelude.{◌≡◌, ◌≢◌, ◌↔◌, IfOk, IsOk, ◌≤◌, ◌<◌, length, All};
ghost use Rattle.xa_xid.specs.{Fault.xid_of, Triple.IsXid, Triple.IsWithinLimits, declared.xid.TheConstants.NULL_FORMAT};
ghost use Rattle.xa_limits.specs.declared.TheConstants.{MOST_PART};

use arrayvec::ArrayVec;
use std::cmp::Ordering;
use std::marker::Model;
use thiserror::Error;
use xa_limits::MOST_PART;

/// The format number of the null XID, which names no branch.
pub const NULL_FORMAT: i32 = -1;
/// The name of a branch, in at most `XID_BYTES` bytes of its own. Contracts see it as its three parts.
#[derive(Debug, Drop)]
pub struct Xid {
    format: i32,
    gtrid: ArrayVec<u8, MOST_PART>,
    bqual: ArrayVec<u8, MOST_PART>,
}

impl Model for Xid {
    ghost use Rattle.std.specs.Prelude.{length};
    ghost use Rattle.xa_xid.specs.Triple.{Triple, IsXid};

    ghost Value = { Triple };

    ghost view = { λ x. record { format = x.format; gtrid = x.gtrid.items; bqual = x.bqual.items } };

    ghost invariant = { λ x. IsXid x.format x.gtrid.items x.bqual.items };
}

/// Why parts are no XID.
#[derive(Clone, Copy, Debug, PartialEq, Eq, Error)]
pub enum XidFault {
    /// The format number is -1.
    #[error("format number -1")]
    Null = 1,
    /// The gtrid is empty or has more than `MOST_PART` bytes.
    #[error("gtrid not of 1 to 64 bytes")]
    GtridLength = 2,
    /// The bqual has more than `MOST_PART` bytes.
    #[error("bqual not of 0 to 64 bytes")]
    BqualLength = 3,
}

impl Xid {
    /// An XID of these parts, or the first fault: the null format number -1, a gtrid that doesn't have 1 to `MOST_PART`
    /// bytes, a bqual of more than `MOST_PART`. C193 has 1 to 64 for both; here a bqual may be empty. Takes no memory.
    pub fn new(format: i32, gtrid: &[u8], bqual: &[u8]) -> Result<Xid, XidFault>
        ensures exact { result ≡ xid_of format gtrid.now bqual.now }
        ensures xid { IfOk result (λ x. x ≡ record { format = format; gtrid = gtrid.now; bqual = bqual.now }) }
        ensures valid { IsOk result ↔ IsXid format gtrid.now bqual.now }
    {
        if format == NULL_FORMAT {
            return Err(XidFault::Null);
        }
        if gtrid.is_empty() || gtrid.len() > MOST_PART {
            return Err(XidFault::GtridLength);
        }
        if bqual.len() > MOST_PART {
            return Err(XidFault::BqualLength);
        }
        Ok(Xid {
            format,
            gtrid: held(gtrid),
            bqual: held(bqual),
        })
    }

    /// The format number, which isn't -1.
    pub fn format(&self) -> i32
        ensures value { result ≡ self.now.format }
        ensures not_null { result ≢ NULL_FORMAT }
    {
        self.format
    }

    /// The global part, 1 to `MOST_PART` bytes.
    pub fn gtrid(&self) -> &[u8]
        ensures value { result.now ≡ self.now.gtrid }
        ensures limits { (1 ≤ length result.now) × (length result.now ≤ MOST_PART) }
    {
        self.gtrid.as_slice()
    }

    /// The branch part, 0 to `MOST_PART` bytes.
    pub fn bqual(&self) -> &[u8]
        ensures value { result.now ≡ self.now.bqual }
        ensures limits { length result.now ≤ MOST_PART }
    {
        self.bqual.as_slice()
    }

    /// What the types of its parts hold, for a proof. It does nothing.
    pub fn hold(&self)
        ensures { IsWithinLimits self.now }
    {
        let _format = self.format();
        hold_bytes(self.gtrid());
        hold_bytes(self.bqual());
    }

    /// A copy. Takes no memory.
    pub fn copied(&self) -> Xid
        ensures { result ≡ self.now }
    {
        Xid {
            format: self.format,
            gtrid: held(self.gtrid.as_slice()),
            bqual: held(self.bqual.as_slice()),
        }
    }
}

fn held(bytes: &[u8]) -> ArrayVec<u8, MOST_PART>
    requires { length bytes.now ≤ MOST_PART }
    ensures { result.items ≡ bytes.now }
{
    let mut all: ArrayVec<u8, MOST_PART> = ArrayVec::new();
    let _ = all.try_extend_from_slice(bytes);
    all
}

// What bytes hold.
fn hold_bytes(bytes: &[u8])
    ensures { All (λ b. b < 256) bytes.now }
{
    let _bytes = bytes;
}

impl PartialEq for Xid {
    ghost use Rattle.std.proofs.Common.{rules};
    ghost use Rattle.std.specs.Cmp.Rules.{comparing};
    ghost use Rattle.xa_xid.specs.Triple.{xid_eq};

    ghost eq = { xid_eq };

    ghost laws = { Prim.search (comparing, rules) depth 9 };

    fn eq(&self, other: &Xid) -> bool {
        self.format == other.format
            && self.gtrid.as_slice() == other.gtrid.as_slice()
            && self.bqual.as_slice() == other.bqual.as_slice()
    }
}

impl Eq for Xid {
    ghost use Rattle.std.proofs.Common.{rules};
    ghost use Rattle.std.specs.Cmp.Rules.{comparing};

    ghost laws = { Prim.search (comparing, rules) depth 9 };
}

impl Ord for Xid {
    ghost use Rattle.std.proofs.Common.{rules};
    ghost use Rattle.std.specs.Cmp.Rules.{comparing};
    ghost use Rattle.xa_xid.specs.Triple.{xid_cmp};

    ghost cmp = { xid_cmp };

    ghost total = { Prim.search (comparing, rules) depth 9 };

    ghost matches_partial_cmp = { Prim.search (comparing, rules) depth 9 };

    ghost matches_eq = { Prim.search (comparing, rules) depth 9 };

    fn cmp(&self, other: &Xid) -> Ordering {
        self.format.cmp(&other.format).then(
            self.gtrid
                .as_slice()
                .cmp(other.gtrid.as_slice())
                .then(self.bqual.as_slice().cmp(other.bqual.as_slice())),
        )
    }
}

impl PartialOrd for Xid {
    ghost use Rattle.std.proofs.Common.{rules};
    ghost use Rattle.std.specs.Cmp.{partial_order_from_own_ties};
    ghost use Rattle.std.specs.Cmp.Rules.{comparing};
    ghost use Rattle.std.specs.Ordering.{as_partial_cmp};
    ghost use Rattle.xa_xid.specs.Triple.{xid_cmp};

    ghost partial_cmp = { as_partial_cmp xid_cmp };

    ghost laws = { partial_order_from_own_ties
        (Prim.search (comparing, rules) depth 9) (Prim.search (comparing, rules) depth 9) };

    fn partial_cmp(&self, other: &Xid) -> Option<Ordering> {
        Some(self.cmp(other))
    }
}

ghost use Rattle.std.specs.Prelude.{◌≡◌, ◌+◌, nat_lt, if◌then◌else◌, None, Some};
ghost use Rattle.xa_limits.specs.declared.TheConstants.{MOST_BOOTS};
ghost use Rattle.xa_recovery.specs.Durable.{committed_of, prepared_of, decided_of};

use std::collections::BTreeMap;
use std::marker::Model;
use xa_codes::Direction;
use xa_record::Writes;
use xa_xid::Xid;

/// A branch that was prepared and isn't completed.
#[derive(Debug, Drop)]
pub struct InDoubt {
    pub xid: Xid,
    pub writes: Writes,
}

/// What lasts: what the records of a log come to.
#[derive(Debug, Drop)]
pub struct Durable {
    pub(crate) boot: u32,
    pub(crate) committed: BTreeMap<u64, Writes>,
    pub(crate) prepared: BTreeMap<u64, InDoubt>,
    pub(crate) decided: BTreeMap<Xid, Direction>,
}

impl Model for Durable {
    ghost use Rattle.xa_model.specs.Durable.{Durable as Seen};
    ghost use Rattle.xa_recovery.specs.Durable.{committed_of, prepared_of, decided_of};

    ghost Value = { Seen };

    ghost view = { λ d. record {
      boot = d.boot;
      committed = committed_of d.committed;
      prepared = prepared_of d.prepared;
      decided = decided_of d.decided;
    } };
}

impl Durable {
    /// What lasts, from its parts: the greatest boot that was logged, the committed branches and those in doubt
    /// by timestamp, and what the operator decided by XID. Takes no memory.
    pub fn new(
        boot: u32,
        committed: BTreeMap<u64, Writes>,
        prepared: BTreeMap<u64, InDoubt>,
        decided: BTreeMap<Xid, Direction>,
    ) -> Durable
        ensures boot { result.boot ≡ boot }
        ensures committed { result.committed ≡ committed_of committed }
        ensures prepared { result.prepared ≡ prepared_of prepared }
        ensures decided { result.decided ≡ decided_of decided }
    {
        Durable {
            boot,
            committed,
            prepared,
            decided,
        }
    }

    /// The greatest boot that was logged, or 0.
    pub fn boot(&self) -> u32
        ensures { result ≡ self.now.boot }
    {
        self.boot
    }

    /// The committed branches by timestamp, each with those of its writes that are the last of their keys.
    pub fn committed(&self) -> &BTreeMap<u64, Writes>
        ensures { committed_of result.now ≡ self.now.committed }
    {
        &self.committed
    }

    /// The branches in doubt by timestamp.
    pub fn prepared(&self) -> &BTreeMap<u64, InDoubt>
        ensures { prepared_of result.now ≡ self.now.prepared }
    {
        &self.prepared
    }

    /// What the operator decided and isn't forgotten, by XID.
    pub fn decided(&self) -> &BTreeMap<Xid, Direction>
        ensures { decided_of result.now ≡ self.now.decided }
    {
        &self.decided
    }

    /// Gives the committed branches, those in doubt and what the operator decided, as `committed`, `prepared` and
    /// `decided` lend them. Takes no memory.
    pub fn into_parts(
        self,
    ) -> (
        BTreeMap<u64, Writes>,
        BTreeMap<u64, InDoubt>,
        BTreeMap<Xid, Direction>,
    )
        ensures committed { committed_of result.0 ≡ self.committed }
        ensures prepared { prepared_of result.1 ≡ self.prepared }
        ensures decided { decided_of result.2 ≡ self.decided }
    {
        let Durable {
            committed,
            prepared,
            decided,
            ..
        } = self;
        (committed, prepared, decided)
    }
}

/// The number of the boot after those that were logged. None after `MOST_BOOTS`. Takes no memory.
pub fn next_boot(durable: &Durable) -> Option<u32>
    ensures { result ≡ (if nat_lt durable.now.boot MOST_BOOTS then Some (durable.now.boot + 1) else None) }
{
    durable.boot.checked_add(1)
}

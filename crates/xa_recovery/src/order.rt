ghost use Rattle.std.specs.Prelude.{◌≡◌, ◌&&◌, not, nat_lt};
ghost use Rattle.std.specs.List.{list_all};
ghost use Rattle.std.specs.Ordering.{is_lt};
ghost use Rattle.xa_xid.specs.Triple.{xid_cmp};
ghost use Rattle.xa_model.specs.Durable.{is_past, is_prepared, is_decided};
ghost use Rattle.xa_model.specs.Fold.{fits, is_new, is_unknown, is_used, is_empty};
ghost use Rattle.xa_recovery.specs.Rebuilding.{InEach};

use crate::rebuilding::Rebuilding;
use xa_limits::BOOT_TIMESTAMPS;
use xa_record::Record;
use xa_xid::Xid;

/// Whether the timestamp is one that a boot below this one gave.
fn is_past(boot: u64, timestamp: u64) -> bool
    ensures { result ≡ is_past boot timestamp }
{
    let of = timestamp / BOOT_TIMESTAMPS;
    1 <= of && of < boot && timestamp % BOOT_TIMESTAMPS != 0
}

/// The order in which records may stand.
impl Rebuilding {
    /// Whether the record may follow those that were read.
    pub(crate) fn fits(&self, record: &Record) -> bool
        ensures { InEach self.now (λ x. result ≡ fits «record».now x) }
    {
        match record {
            Record::Opened { boot } => self.boot < *boot,
            Record::Prepared { xid, timestamp, .. } => self.is_new(xid, *timestamp),
            Record::Committed { xid, timestamp, .. } => self.is_new(xid, *timestamp),
            Record::Completed { xid, .. } => self.is_prepared(xid),
            Record::Decided { xid, .. } => self.is_prepared(xid),
            Record::Forgotten { xid } => self.is_decided(xid),
            Record::Base { timestamp, .. } => self.takes_base(*timestamp),
            Record::Held { xid, timestamp, .. } => self.takes_held(xid, *timestamp),
            Record::Known { xid, .. } => self.takes_known(xid),
        }
    }

    /// Whether a branch that a boot up to the last one began may have this name and timestamp.
    fn is_new(&self, xid: &Xid, timestamp: u64) -> bool
        ensures { InEach self.now (λ x. result ≡ is_new xid.now timestamp x) }
    {
        is_past(u64::from(self.boot) + 1, timestamp)
            && !self.is_used(timestamp)
            && self.is_unknown(xid)
    }

    /// Whether a snapshot may go on with a committed branch of this timestamp.
    fn takes_base(&self, timestamp: u64) -> bool
        ensures { InEach self.now (λ x. result ≡ (x.is_snapshot && is_empty x.durable.prepared
            && is_empty x.durable.decided && is_past x.durable.boot timestamp
            && list_all (λ u. nat_lt u timestamp) x.timestamps)) }
    {
        self.is_snapshot
            && self.none_is_prepared()
            && self.none_is_decided()
            && is_past(u64::from(self.boot), timestamp)
            && self.is_last(timestamp)
    }

    /// Whether a snapshot may go on with a branch in doubt of this name and timestamp.
    fn takes_held(&self, xid: &Xid, timestamp: u64) -> bool
        ensures { InEach self.now (λ x. result ≡ (x.is_snapshot && is_empty x.durable.decided
            && is_past x.durable.boot timestamp && not (is_used timestamp x.timestamps)
            && list_all (λ p. nat_lt p.timestamp timestamp) x.durable.prepared && is_unknown xid.now x.durable)) }
    {
        self.takes_held_at(timestamp) && self.is_unknown(xid)
    }

    /// Whether a snapshot may go on with a branch in doubt of this timestamp.
    fn takes_held_at(&self, timestamp: u64) -> bool
        ensures { InEach self.now (λ x. result ≡ (x.is_snapshot && is_empty x.durable.decided
            && is_past x.durable.boot timestamp && not (is_used timestamp x.timestamps)
            && list_all (λ p. nat_lt p.timestamp timestamp) x.durable.prepared)) }
    {
        self.is_snapshot
            && self.none_is_decided()
            && is_past(u64::from(self.boot), timestamp)
            && !self.is_used(timestamp)
            && self.is_last_prepared(timestamp)
    }

    /// Whether a snapshot may go on with an XID that the operator completed.
    fn takes_known(&self, xid: &Xid) -> bool
        ensures { InEach self.now (λ x. result ≡ (x.is_snapshot && not (is_prepared xid.now x.durable.prepared)
            && list_all (λ d. is_lt (xid_cmp d.xid xid.now)) x.durable.decided)) }
    {
        self.is_snapshot && !self.is_prepared(xid) && self.is_last_decided(xid)
    }

    /// Whether the XID is neither prepared nor completed by the operator.
    fn is_unknown(&self, xid: &Xid) -> bool
        ensures { InEach self.now (λ x. result ≡ is_unknown xid.now x.durable) }
    {
        !self.is_prepared(xid) && !self.is_decided(xid)
    }

    fn is_prepared(&self, xid: &Xid) -> bool
        ensures { InEach self.now (λ x. result ≡ is_prepared xid.now x.durable.prepared) }
    {
        self.names.contains_key(xid)
    }

    fn is_decided(&self, xid: &Xid) -> bool
        ensures { InEach self.now (λ x. result ≡ is_decided xid.now x.durable.decided) }
    {
        self.decided.contains_key(xid)
    }

    /// Whether a branch that was read has this timestamp.
    fn is_used(&self, timestamp: u64) -> bool
        ensures { InEach self.now (λ x. result ≡ is_used timestamp x.timestamps) }
    {
        self.timestamps.contains(&timestamp)
    }

    fn none_is_prepared(&self) -> bool
        ensures { InEach self.now (λ x. result ≡ is_empty x.durable.prepared) }
    {
        self.prepared.len() == 0
    }

    fn none_is_decided(&self) -> bool
        ensures { InEach self.now (λ x. result ≡ is_empty x.durable.decided) }
    {
        self.decided.len() == 0
    }

    /// Whether the timestamp is above those of all branches that were read.
    fn is_last(&self, timestamp: u64) -> bool
        ensures { InEach self.now (λ x. result ≡ list_all (λ u. nat_lt u timestamp) x.timestamps) }
    {
        match self.timestamps.last() {
            Some(last) => *last < timestamp,
            None => true,
        }
    }

    /// Whether the timestamp is above those of all branches in doubt.
    fn is_last_prepared(&self, timestamp: u64) -> bool
        ensures { InEach self.now (λ x. result ≡ list_all (λ p. nat_lt p.timestamp timestamp) x.durable.prepared) }
    {
        match self.prepared.last_key_value() {
            Some((last, _)) => *last < timestamp,
            None => true,
        }
    }

    /// Whether the XID is above all that the operator completed.
    fn is_last_decided(&self, xid: &Xid) -> bool
        ensures { InEach self.now (λ x. result ≡ list_all (λ d. is_lt (xid_cmp d.xid xid.now)) x.durable.decided) }
    {
        match self.decided.last_key_value() {
            Some((last, _)) => *last < *xid,
            None => true,
        }
    }
}

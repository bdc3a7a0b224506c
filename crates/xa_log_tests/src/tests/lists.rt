//! What recovery lists of the records of a log, apart from a manager.
use crate::log_pairs::{DECIDED, OPENED, PREPARED};
use std::alloc::Global;
use xa_record::{Record, read};
use xa_recovery::{Durable, list_after, rebuild};
use xa_rows::are_alike;
use xa_xid::Xid;

// 1:cc: at timestamp 4294967298 deletes 6b
const SECOND: [u8; 21] = [
    2, 0, 0, 0, 1, 1, 0, 0xcc, 0, 0, 0, 1, 0, 0, 0, 2, 0, 1, 1, 0x6b, 0,
];

fn records_of(alloc: Global, bodies: &[&[u8]]) -> Option<Vec<Record>> {
    let mut records = Vec::new(alloc);
    for body in bodies {
        let record = read(alloc, body).ok()?;
        records.push(record).ok()?;
    }
    Some(records)
}

fn durable_of(alloc: Global, bodies: &[&[u8]]) -> Option<Durable> {
    let records = records_of(alloc, bodies)?;
    rebuild(alloc, records.as_slice()).ok()
}

// How many branches are committed, in doubt and completed by the operator, in the first boot.
fn has_one_of_each(durable: &Durable) -> bool {
    durable.boot() == 1
        && durable.committed().len() == 1
        && durable.prepared().len() == 1
        && durable.decided().len() == 1
}

fn lists_as(
    alloc: Global,
    durable: &Durable,
    after: Option<&Xid>,
    count: usize,
    wanted: &[&Xid],
) -> bool {
    match list_after(alloc, durable, after, count) {
        Ok(listed) => are_alike(&listed, wanted),
        Err(_) => false,
    }
}

fn are_listed(alloc: Global, durable: &Durable, first: &Xid, second: &Xid) -> bool {
    lists_as(alloc, durable, None, 5, &[first, second])
        && lists_as(alloc, durable, Some(first), 5, &[second])
        && lists_as(alloc, durable, None, 1, &[first])
}

// 1:aa:bb is completed by the operator and 1:cc: in doubt
#[test]
fn lists(rt: HostRuntime) {
    let alloc = rt.alloc();
    let durable = durable_of(alloc, &[&OPENED, &SECOND, &PREPARED, &DECIDED]).expect(
        &rt, "records",
    );
    let first = Xid::take_text(b"1:aa:bb").expect(&rt, "an XID");
    let second = Xid::take_text(b"1:cc:").expect(&rt, "an XID");
    assert!(rt; has_one_of_each(&durable) && are_listed(alloc, &durable, &first, &second));
}

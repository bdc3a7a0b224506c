//! How many branches are prepared in records.
ghost use Rattle.std.specs.Prelude.{◌≡◌, ◌<◌, ◌+◌, IfOk};
ghost use Rattle.xa_check.specs.Prepared.{prepared_in, with_body};
ghost use Rattle.xa_log.specs.Reading.{bodies_of};

use std::alloc::{AllocError, Global};
use std::collections::BTreeSet;
use xa_record::{Record, RecordFault, read};
use xa_xid::Xid;

/// How many of these bodies prepare a branch that none after them completes.
pub(crate) fn prepared_in(alloc: Global, bodies: &[Vec<u8>]) -> Result<usize, AllocError>
    ensures { IfOk result (λ count. count ≡ prepared_in (bodies_of bodies.now)) }
{
    let mut completed = BTreeSet::new(alloc);
    let mut count = 0;
    let mut rest = bodies;
    while let Some((body, others)) = rest.split_last() {
        if is_open(alloc, &mut completed, body)? {
            count = one_more(count, bodies.len());
        }
        rest = others;
    }
    Ok(count)
}

/// One more than a number below another one.
fn one_more(count: usize, most: usize) -> usize
    requires { count < most }
    ensures { result ≡ count + 1 }
{
    count + 1
}

/// Whether a body prepares a branch that isn't completed. Takes note of what it completes.
fn is_open(alloc: Global, completed: &mut BTreeSet<Xid>, body: &[u8]) -> Result<bool, AllocError>
    ensures { IfOk result (λ is_open. (is_open, completed.new.keys) ≡ with_body completed.old.keys body.now) }
{
    let record = match read(alloc, body) {
        Ok(record) => record,
        Err(RecordFault::Malformed) => return Ok(false),
        Err(RecordFault::Memory) => return Err(AllocError),
    };
    match &record {
        Record::Prepared { xid, .. } => Ok(!completed.contains(xid)),
        Record::Completed { xid, .. } => {
            completed.insert(xid.copied())?;
            Ok(false)
        }
        _ => Ok(false),
    }
}

ghost use Rattle.std.specs.Prelude.{◌≡◌, ◌≤◌, IfOk, vec_len};
ghost use Rattle.xa_handles.specs.Counts.{bucket, call_id, code_id};

use std::alloc::{AllocError, Global};
use std::sync::atomic::{AtomicU64, Ordering};
use xa_codes::{Call, Code};

/// How many ids there are, from 0 on.
const IDS: usize = 1_117;

/// The id of the syncs of groups.
const SYNCS: usize = 3;

/// The id of the calls of those groups.
const SYNCED_CALLS: usize = 4;

/// The id of the microseconds that the syncs took.
const SYNC_MICROS: usize = 5;

/// The first id of how long syncs took: up to a microsecond; each next one's limit is twice as long.
const TIMES: usize = 1_000;

/// The last of those is so much further.
const LAST_TIME: usize = 24;

/// The first id of how many calls groups had: one; each next one's limit is twice as many.
const SIZES: usize = 1_100;

/// The last of those is so much further.
const LAST_SIZE: usize = 16;

/// What a thread counts, each by an id: the calls that it answered, its replies' codes, and the groups whose sync it made.
/// Others may read it meanwhile.
#[derive(Drop)]
pub struct Tally {
    counts: Vec<AtomicU64>,
}

impl Tally {
    /// Of nothing.
    pub fn new(alloc: Global) -> Result<Tally, AllocError>
        ensures { IfOk result (λ tally. vec_len tally.counts ≡ IDS) }
    {
        let mut counts = Vec::with_capacity(alloc, IDS)?;
        for _ in 0..IDS {
            counts.push(AtomicU64::new(0))?;
        }
        Ok(Tally { counts })
    }

    /// A call was answered with this code.
    pub fn answered(&self, call: Call, code: Code) {
        self.add(call_id(call), 1);
        self.add(code_id(code), 1);
    }

    /// The sync of a group of this many calls was made, and took this many microseconds.
    pub fn synced(&self, calls: u64, micros: u64) {
        self.add(SYNCS, 1);
        self.add(SYNCED_CALLS, calls);
        self.add(SYNC_MICROS, micros);
        self.add(TIMES + bucket(micros, LAST_TIME), 1);
        self.add(SIZES + bucket(calls, LAST_SIZE), 1);
    }

    fn add(&self, id: usize, count: u64) {
        if let Some(counter) = self.counts.get(id) {
            counter.fetch_add(count, Ordering::SeqCst);
        }
    }

    // What was counted under this id.
    fn count(&self, id: usize) -> u64 {
        match self.counts.get(id) {
            Some(counter) => counter.load(Ordering::SeqCst),
            None => 0,
        }
    }
}

/// Appends what threads have counted together: each id of which there was something, and how many.
pub fn put_counts(out: &mut Vec<u64>, tallies: &[Tally]) -> Result<(), AllocError> {
    for id in 0..IDS {
        let mut sum = 0u64;
        for tally in tallies {
            sum = sum.saturating_add(tally.count(id));
        }
        if sum > 0 {
            out.push(id as u64)?;
            out.push(sum)?;
        }
    }
    Ok(())
}

// The id of a call: 100 and its operation.
fn call_id(call: Call) -> usize
    ensures { result ≡ call_id call }
{
    match call {
        Call::Open => 101,
        Call::Close => 102,
        Call::Start => 103,
        Call::End => 104,
        Call::Prepare => 105,
        Call::Commit => 106,
        Call::Rollback => 107,
        Call::Recover => 108,
        Call::Forget => 109,
        Call::Get => 110,
        Call::Put => 111,
        Call::Delete => 112,
        Call::Decide => 113,
        Call::Doom => 114,
        Call::Restart => 115,
        Call::Timeout => 116,
        Call::Tick => 117,
        Call::Trim => 165,
        Call::Branches => 166,
    }
}

// The id of a code: 500 and the code, of those from -9 on to 107.
fn code_id(code: Code) -> usize
    ensures { result ≡ code_id code }
{
    match code {
        0..=107 => 500 + code.unsigned_abs() as usize,
        -9..=-1 => 500 - code.unsigned_abs() as usize,
        _ => 499 - 9,
    }
}

// The least exponent whose power of two is at least this number, `last` at most: how often one less can be halved.
fn bucket(number: u64, last: usize) -> usize
    ensures is { result ≡ bucket number last }
    ensures few { result ≤ last }
{
    let mut rest = number.saturating_sub(1);
    for exponent in 0..last {
        if rest == 0 {
            return exponent;
        }
        rest /= 2;
    }
    last
}

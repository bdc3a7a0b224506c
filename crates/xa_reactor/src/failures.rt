ghost use Rattle.std.specs.Prelude.{◌≡◌, ◌<◌, ℕ};
ghost use Rattle.xa_reactor.specs.Failures.{pause_of};

use crate::socket::Source;
use std::net::IpAddr;

/// For how many addresses failures are counted apart. Others share a count.
const APART: usize = 64;

/// After how many milliseconds without a failure those before it are forgotten.
const MEMORY: u64 = 60_000;

/// How many logins failed that came from some addresses, and when the last one did, in milliseconds.
#[derive(Clone, Copy)]
struct Failed {
    count: u32,
    last: u64,
}

/// How many logins failed lately, by where they came from: a failure is answered the later, the more there were.
#[derive(Drop)]
pub(crate) struct Failures {
    by_address: [Failed; APART],
}

impl Failures {
    /// None.
    pub(crate) fn new() -> Failures {
        Failures {
            by_address: [Failed { count: 0, last: 0 }; APART],
        }
    }

    /// One more came from there, at that time. After how many milliseconds it is answered.
    pub(crate) fn note(&mut self, source: Source, now: u64) -> u64
        ensures { (count : ℕ) × (result ≡ pause_of count) }
    {
        let failed = &mut self.by_address[index_of(source)];
        if now.saturating_sub(failed.last) >= MEMORY {
            failed.count = 0;
        }
        failed.count = failed.count.saturating_add(1);
        failed.last = now;
        pause_of(failed.count)
    }
}

// For how many milliseconds the answer to a failure waits, of which there were this many: an eighth of a second at first, each
// time twice as long, and 8 seconds at most.
fn pause_of(count: u32) -> u64
    ensures { result ≡ pause_of count }
{
    match count {
        0 | 1 => 125,
        2 => 250,
        3 => 500,
        4 => 1_000,
        5 => 2_000,
        6 => 4_000,
        _ => 8_000,
    }
}

// Where those from there are counted.
fn index_of(source: Source) -> usize
    ensures { result < 64 }
{
    let sum = match source {
        Source::Address(address) => match address.ip() {
            IpAddr::V4(address) => sum_of(&address.octets()),
            // a network, as one machine may have all addresses of it
            IpAddr::V6(address) => sum_of(&address.octets()[..8]),
        },
        Source::Path | Source::Gone => 0,
    };
    sum as usize % APART
}

fn sum_of(bytes: &[u8]) -> u32 {
    let mut sum = 0u32;
    for byte in bytes {
        sum = sum.wrapping_mul(31).wrapping_add(u32::from(*byte));
    }
    sum
}

//! What is appended together: the bodies of a group, of one or more.
ghost use Rattle.std.specs.Prelude.{◌≡◌, ◌+◌, ◌≤◌, ◌<◌, ◌++◌, length, take, IfSome, IfNone};
ghost use Rattle.std.specs.List.{AllByRecursion};
ghost use Rattle.xa_log.specs.Believed.Chain.{closing, digest, last, record_of};
ghost use Rattle.xa_log.specs.Believed.Group.{bodies_in, closed, first_of_group, group_bytes};
ghost use Rattle.xa_log.specs.Reading.{bodies_of};

use crate::record::{encode, overlay};
use xa_limits::{AROUND_BODY, AROUND_CLOSED, DIGEST_BYTES, LENGTH_BYTES, MOST_BODY};

/// One body, for which no list is made, or several.
#[derive(Clone, Copy, Debug)]
pub enum Group<'a> {
    One(&'a [u8]),
    Many(&'a [Vec<u8>]),
}

impl<'a> Group<'a> {
    // Writes their records to the front of the buffer, one after the other, and a closing length after the last. Returns
    // the last record's digest.
    pub(crate) fn encode(self, buffer: &mut [u8], prev: &[u8; DIGEST_BYTES]) -> [u8; DIGEST_BYTES]
        requires room { group_bytes (bodies_in self) + LENGTH_BYTES ≤ length buffer.old }
        requires small { AllByRecursion (λ body. length body ≤ MOST_BODY) (bodies_in self) }
        ensures digest { result ≡ last prev.now (bodies_in self.entry) }
        ensures text { take (group_bytes (bodies_in self.entry) + LENGTH_BYTES) buffer.new ≡ closed prev.now (bodies_in self.entry) }
    {
        match self {
            Group::One(body) => encode(buffer, prev, body),
            Group::Many(bodies) => encode_group(buffer, prev, bodies),
        }
    }

    // Where their records end, from an offset on, with a closing length, if that is within `most` bytes.
    pub(crate) fn end(self, from: u64, most: u64) -> Option<u64>
        ensures some { IfSome result
            (λ end. (end ≡ from + group_bytes (bodies_in self.entry) + LENGTH_BYTES) × (end ≤ most)) }
        ensures none { IfNone result (most < from + group_bytes (bodies_in self.entry) + LENGTH_BYTES) }
    {
        match self {
            Group::One(body) => {
                let end = from.checked_add(AROUND_CLOSED as u64 + body.len() as u64)?;
                if end <= most { Some(end) } else { None }
            }
            Group::Many(bodies) => group_end(from, bodies, most),
        }
    }

    // The first of them.
    pub(crate) fn first(self) -> &'a [u8]
        requires { 1 ≤ length (bodies_in self) }
        ensures { result.now ≡ first_of_group (bodies_in self.entry) }
    {
        match self {
            Group::One(body) => body,
            Group::Many(bodies) => &bodies[0],
        }
    }
}

// Writes a body's record at an offset, and a closing length after it. Returns its digest.
fn encode_at(
    buffer: &mut [u8],
    at: usize,
    prev: &[u8; DIGEST_BYTES],
    body: &[u8],
) -> [u8; DIGEST_BYTES]
    requires room { at + (AROUND_CLOSED + length body.now) ≤ length buffer.old }
    requires small { length body.now ≤ MOST_BODY }
    ensures digest { result ≡ digest prev.now body.now }
    ensures text { take (at + (AROUND_CLOSED + length body.now)) buffer.new
        ≡ take at buffer.old ++ (record_of prev.now body.now ++ closing) }
{
    encode(&mut buffer[at..], prev, body)
}

// Writes the records of these bodies to the front of the buffer, one after the other, and a closing length after the
// last. Returns the last record's digest.
fn encode_group(
    buffer: &mut [u8],
    prev: &[u8; DIGEST_BYTES],
    bodies: &[Vec<u8>],
) -> [u8; DIGEST_BYTES]
    requires room { group_bytes (bodies_of bodies.now) + LENGTH_BYTES ≤ length buffer.old }
    requires small { AllByRecursion (λ body. length body ≤ MOST_BODY) (bodies_of bodies.now) }
    ensures digest { result ≡ last prev.now (bodies_of bodies.now) }
    ensures text { take (group_bytes (bodies_of bodies.now) + LENGTH_BYTES) buffer.new
        ≡ closed prev.now (bodies_of bodies.now) }
{
    let mut digest = *prev;
    let mut at = 0;
    overlay(buffer, 0, &[0; LENGTH_BYTES]);
    for body in bodies {
        digest = encode_at(buffer, at, &digest, body);
        at += AROUND_BODY + body.len();
    }
    digest
}

// Where the records of these bodies end, from an offset on, with a closing length, if that is within `most` bytes.
fn group_end(from: u64, bodies: &[Vec<u8>], most: u64) -> Option<u64>
    ensures some { IfSome result
        (λ end. (end ≡ from + group_bytes (bodies_of bodies.now) + LENGTH_BYTES) × (end ≤ most)) }
    ensures none { IfNone result (most < from + group_bytes (bodies_of bodies.now) + LENGTH_BYTES) }
{
    let mut left = most.checked_sub(from)?.checked_sub(LENGTH_BYTES as u64)?;
    for body in bodies {
        left = left.checked_sub(AROUND_BODY as u64 + body.len() as u64)?;
    }
    Some(most - left)
}

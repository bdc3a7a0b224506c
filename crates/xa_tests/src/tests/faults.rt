//! The first fault of a content (docs/PROTOCOL.md, "Faults"), which a server doesn't tell apart.
use crate::tests::rows::none_wrong;
use std::alloc::Global;
use xa_frame::{FrameFault, Question, decode_question, decode_reply};
use xa_rows::first_wrong;

/// A content, and what each of its fronts is, from the empty one to the whole. k: decoded, s: for the status, S: Short,
/// V: Version, O: Operation, F: Field, T: Trailing.
type Cuts = (&'static [u8], &'static [u8]);

const CUTS: [Cuts; 15] = [
    (b"\x01\x01\0\0\0\0\x01x", b"SSSSSSSSk"),
    (b"\x01\x02\0\0\0\0", b"SSSSSSk"),
    (
        b"\x01\x03\0\0\0\0\0\0\0\x01\x01\x01\xaa\xbb",
        b"SSSSSSFFFFFFFFk",
    ),
    (b"\x01\x08\0\0\0\0\0\0\0\x01", b"SSSSSSSSSSk"),
    (b"\x01\x0a\x01k", b"SSSSk"),
    (b"\x01\x0b\x01k\0\x01v", b"SSSSSSSk"),
    (b"\x01\x0c\x01k", b"SSSSk"),
    (b"\x01\x0d\x01\0\0\0\x01\x01\x01\xaa\xbb", b"SSSFFFFFFFFk"),
    (b"\x01\x0e\0\0\0\x01\x01\x01\xaa\xbb", b"SSFFFFFFFFk"),
    (b"\x01\x0f\0", b"SSkT"),
    (b"\x01\x10\0\0\0\x0a\0", b"SSSSSSkT"),
    (b"\x01\x11\0\0\0\x01\0\0\0\x01\0", b"SSSSSSSSSSkT"),
    (b"\x01\x41\0", b"SSkT"),
    (
        b"\x01\x42\0\0\x01\0\x01\0\0\0\x01\x01\x01\xaa\xbb\0",
        b"SSSSSSSFFFFFFFFkT",
    ),
    (b"\x01\x43\x01\x02\x03", b"SSsTTT"),
];

/// Contents with a fault, of which another may follow.
const FAULTS: [(&[u8], u8); 27] = [
    (b"\0\xff", b'V'),
    (b"\x02\x43", b'V'),
    (b"\xff", b'V'),
    (b"\x01\0", b'O'),
    (b"\x01\x12\0", b'O'),
    (b"\x01\x40", b'O'),
    (b"\x01\x44", b'O'),
    (b"\x01\xff\0", b'O'),
    (b"\x01\x01\0\0\0\0\x02x", b'S'),
    (b"\x01\x01\0\0\0\0\0x", b'T'),
    // a key's length, and a value's, even if their bytes are cut off
    (b"\x01\x0a\0k", b'F'),
    (b"\x01\x0a\x41", b'F'),
    (b"\x01\x0a\x40k", b'S'),
    (b"\x01\x0a\x01kk", b'T'),
    (b"\x01\x0b\x01k\x40\x01", b'F'),
    (b"\x01\x0b\x01k\x40\0v", b'S'),
    (b"\x01\x0b\x01k\0\0v", b'T'),
    // a direction
    (b"\x01\x0d\0\0\0\0\x01\x01\x01\xaa\xbb", b'F'),
    (b"\x01\x0d\x03", b'F'),
    // the null XID, and lengths of an XID's parts
    (b"\x01\x0e\xff\xff\xff\xff\x01\0\xaa", b'F'),
    (b"\x01\x0e\0\0\0\x01\0\x01\xaa", b'F'),
    (b"\x01\x0e\0\0\0\x01\x41\0\xaa", b'F'),
    (b"\x01\x0e\0\0\0\x01\x01\0\xaa\xbb", b'T'),
    // a cursor
    (b"\x01\x42\0\0\0\x01\x02", b'F'),
    (b"\x01\x42\0\0\0\x01\x01", b'F'),
    (b"\x01\x42\0\0\0\x01\0\0\0\0\x01\x01\0\xaa", b'T'),
    (b"\x01\x42\0\0\0\x01", b'S'),
];

/// Contents of replies, with their fronts: an absent value, a value, an XID, and a known branch.
const REPLIES: [Cuts; 4] = [
    (
        b"\x01\0\0\0\0\x07\0\0\0\0\0\0\0\x03\x03\0",
        b"SSSSSSSSSSSSSSSkT",
    ),
    (
        b"\x01\0\0\0\0\0\0\0\0\0\0\0\0\x03\x02\0\x01v",
        b"SSSSSSSSSSSSSSSSSSk",
    ),
    (
        b"\x01\0\0\0\x01\0\0\0\0\0\0\0\0\x03\x04\0\x01\0\0\0\x01\x01\0\xaa",
        b"SSSSSSSSSSSSSSSSSFFFFFFFk",
    ),
    (
        b"\x01\0\0\0\0\0\0\0\0\0\0\0\0\x03\x05\0\x01\0\0\0\x01\x01\x01\xaa\xbb\x01\0\0\0\x65\0\0\0\x01\0\0\0\x01\0\x01\0\0\0\x02",
        b"SSSSSSSSSSSSSSSSSFFFFFFFFSSSSSSSSSSSSSSSSSSSk",
    ),
];

const REPLY_FAULTS: [(&[u8], u8); 7] = [
    (b"\0", b'V'),
    (b"\x01\0\0\0\0\x09", b'F'),
    (b"\x01\0\0\0\0\0\0\0\0\0\0\0\0\x03\x07", b'F'),
    (b"\x01\0\0\0\0\0\0\0\0\0\0\0\0\x03\x02\x40\x01", b'F'),
    (b"\x01\0\0\0\0\0\0\0\0\0\0\0\0\x03\x04\x01\x01", b'F'),
    (b"\x01\0\0\0\0\0\0\0\0\0\0\0\0\x03\x05\x01\x01", b'F'),
    (
        b"\x01\0\0\0\0\0\0\0\0\0\0\0\0\x03\x05\0\x01\0\0\0\x01\x01\0\xaa\x05",
        b'F',
    ),
];

fn fault_letter(fault: FrameFault) -> u8 {
    match fault {
        FrameFault::Short => b'S',
        FrameFault::Version => b'V',
        FrameFault::Operation => b'O',
        FrameFault::Field => b'F',
        FrameFault::Trailing => b'T',
        FrameFault::Long | FrameFault::Memory => b'?',
    }
}

fn request_letter(alloc: Global, content: &[u8]) -> u8 {
    match decode_question(alloc, content) {
        Ok(Question::Call(_)) => b'k',
        Ok(Question::Status) => b's',
        Err(fault) => fault_letter(fault),
    }
}

fn reply_letter(alloc: Global, content: &[u8]) -> u8 {
    match decode_reply(alloc, content) {
        Ok(_) => b'k',
        Err(fault) => fault_letter(fault),
    }
}

fn letter(alloc: Global, is_reply: bool, content: &[u8]) -> u8 {
    if is_reply {
        reply_letter(alloc, content)
    } else {
        request_letter(alloc, content)
    }
}

/// Each front of the content is what its letter says.
fn are_cuts(alloc: Global, is_reply: bool, content: &[u8], cuts: &[u8]) -> bool {
    for (n, cut) in cuts.iter().enumerate() {
        if letter(alloc, is_reply, content.get(..n).unwrap_or_default()) != *cut {
            return false;
        }
    }
    content.len().checked_add(1) == Some(cuts.len())
}

fn wrong_cut(alloc: Global, is_reply: bool, rows: &[Cuts]) -> Option<usize> {
    first_wrong(
        rows,
        |(content, cuts)| are_cuts(alloc, is_reply, content, cuts),
    )
}

fn wrong_fault(alloc: Global, is_reply: bool, rows: &[(&[u8], u8)]) -> Option<usize> {
    first_wrong(
        rows,
        |(content, fault)| letter(alloc, is_reply, content) == *fault,
    )
}

#[test]
fn faults_of_requests(rt: HostRuntime) {
    none_wrong(&rt, wrong_cut(rt.alloc(), false, &CUTS));
    none_wrong(&rt, wrong_fault(rt.alloc(), false, &FAULTS));
}

#[test]
fn faults_of_replies(rt: HostRuntime) {
    none_wrong(&rt, wrong_cut(rt.alloc(), true, &REPLIES));
    none_wrong(&rt, wrong_fault(rt.alloc(), true, &REPLY_FAULTS));
}

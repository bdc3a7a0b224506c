ghost use Rattle.std.specs.Prelude.{◌≡◌, ◌≤◌, length, MatchResult, Some};
ghost use Rattle.xa_log.specs.Believed.Chain.{magic, newest, start, preamble, format_of, format_number, most_body};
ghost use Rattle.xa_log.specs.{Believed.Damage.other_than, Reading.front_fault};

use crate::OpenFault;
use sha2::{Digest, Sha256};
use xa_limits::{DIGEST_BYTES, FORMAT_BYTES, LENGTH_BYTES, MOST_BODY, MOST_BODY_OF_ONE};

// The offset of the name's last byte, which is a digit and tells the formats apart.
const DIGIT: usize = FORMAT_BYTES - 1;

/// The bytes of a log of no records: its format's name, and a closing length.
pub const PREAMBLE_BYTES: usize = FORMAT_BYTES + LENGTH_BYTES;

/// A format of a log's file, which the file's first eight bytes name.
#[derive(Clone, Copy, Debug, PartialEq, Eq)]
pub enum Format {
    /// `XARMLOG1`: bodies of at most `MOST_BODY_OF_ONE` bytes. It is read, and appended to.
    One,
    /// `XARMLOG2`: bodies of at most `MOST_BODY` bytes.
    Two,
}

impl Format {
    /// The format in which new logs are written.
    pub fn newest() -> Format
        ensures { result ≡ newest }
    {
        Format::Two
    }

    /// Its number, which is the digit that its name ends in.
    pub fn number(self) -> u8
        ensures { result ≡ format_number self }
    {
        match self {
            Format::One => 1,
            Format::Two => 2,
        }
    }

    /// The most bytes of a record's body.
    pub fn most_body(self) -> usize
        ensures exact { result ≡ most_body self }
        ensures bounded { result ≤ MOST_BODY }
    {
        match self {
            Format::One => MOST_BODY_OF_ONE,
            Format::Two => MOST_BODY,
        }
    }

    // The other one.
    pub(crate) fn other(self) -> Format
        ensures { result ≡ other_than self }
    {
        match self {
            Format::One => Format::Two,
            Format::Two => Format::One,
        }
    }

    // The format that the first eight bytes of a file name.
    pub(crate) fn of(front: &[u8]) -> Result<Format, OpenFault>
        requires { length front.now ≡ FORMAT_BYTES }
        ensures { MatchResult result (λ f. format_of front.now ≡ Some f) (λ e. front_fault front.now ≡ Some e) }
    {
        if front == b"XARMLOG1".as_slice() {
            return Ok(Format::One);
        }
        if front == b"XARMLOG2".as_slice() {
            return Ok(Format::Two);
        }
        if &front[..DIGIT] == b"XARMLOG".as_slice()
            && front[DIGIT] >= b'3'
            && front[DIGIT] <= b'9'
        {
            return Err(OpenFault::TooNew);
        }
        Err(OpenFault::NotALog)
    }

    // A log of no records: the first eight bytes and a closing length.
    pub(crate) fn preamble(self) -> [u8; PREAMBLE_BYTES]
        ensures { result ≡ preamble self }
    {
        match self {
            Format::One => *b"XARMLOG1\0\0\0\0",
            Format::Two => *b"XARMLOG2\0\0\0\0",
        }
    }

    // The digest before the first record.
    pub(crate) fn first_digest(self) -> [u8; DIGEST_BYTES]
        ensures { result ≡ start self }
    {
        match self {
            Format::One => Sha256::digest(b"XARMLOG1".as_slice()),
            Format::Two => Sha256::digest(b"XARMLOG2".as_slice()),
        }
    }
}

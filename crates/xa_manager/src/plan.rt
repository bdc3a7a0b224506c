//! What a row that logs comes to before its append.
ghost use Rattle.std.specs.Prelude.{◌≡◌, length, IfOk};
ghost use Rattle.xa_record.specs.{Small.IsSmall, Spelling.spelled};
ghost use Rattle.xa_manager.specs.Plans.{bytes_of};

use crate::row::{Row, Writing};
use arrayvec::ArrayVec;
use mv_chain::Fate;
use std::alloc::{AllocError, Global};
use xa_frame::Reply;
use xa_limits::MOST_SMALL;
use xa_record::{Record, write_small};
use xa_xid::Xid;

/// What a row that logs comes to before its append.
#[derive(Debug, Drop)]
pub enum Plan {
    /// It is answered, nothing is logged, and the branch is settled by this fate, or stays as it is.
    Now(Reply, Option<Fate>),
    Logs(Logging),
}

/// A record to append: the row that asks for it and the XID tell what the device's answer makes of it.
#[derive(Debug, Drop)]
pub struct Logging {
    pub row: Row,
    pub xid: Xid,
    pub body: Body,
}

/// A record's body: one without writes takes no memory.
#[derive(Debug, Drop)]
pub enum Body {
    Small(ArrayVec<u8, MOST_SMALL>),
    Long(Vec<u8>),
}

impl Logging {
    /// For a record with what the branch wrote.
    pub fn long(writing: Writing, xid: &Xid, body: Vec<u8>) -> Logging
        ensures row { result.row ≡ Row.Writes writing }
        ensures xid { result.xid ≡ xid.now }
        ensures body { bytes_of result.body ≡ body.items }
    {
        Logging {
            row: Row::Writes(writing),
            xid: xid.copied(),
            body: Body::Long(body),
        }
    }

    /// For a record without writes. Takes no memory.
    pub fn small(row: Row, xid: &Xid, record: &Record) -> Logging
        requires { IsSmall «record».now }
        ensures row { result.row ≡ row }
        ensures xid { result.xid ≡ xid.now }
        ensures body { bytes_of result.body ≡ spelled «record».now }
    {
        let mut body: ArrayVec<u8, MOST_SMALL> = ArrayVec::new();
        write_small(record, &mut body);
        Logging {
            row,
            xid: xid.copied(),
            body: Body::Small(body),
        }
    }
}

impl Body {
    /// How many bytes it has.
    pub fn len(&self) -> usize
        ensures { result ≡ length (bytes_of self.now) }
    {
        match self {
            Body::Small(body) => body.len(),
            Body::Long(body) => body.len(),
        }
    }

    pub fn as_slice(&self) -> &[u8]
        ensures { result.now ≡ bytes_of self.now }
    {
        match self {
            Body::Small(body) => body.as_slice(),
            Body::Long(body) => body.as_slice(),
        }
    }

    /// The bytes in a list: of a record without writes, a copy.
    pub fn into_vec(self, alloc: Global) -> Result<Vec<u8>, AllocError>
        ensures { IfOk result (λ bytes. bytes.items ≡ bytes_of self) }
    {
        match self {
            Body::Small(body) => body.as_slice().to_vec(alloc),
            Body::Long(body) => Ok(body),
        }
    }
}

ghost use Rattle.std.specs.Prelude.{◌≡◌, ◌⊎◌, true, IfOk, IfSome};
ghost use Rattle.xa_codes.specs.declared.codes.TheConstants.{XA_OK, XA_RDONLY};
ghost use Rattle.xa_frame.specs.Limits.{IsRequest};

use std::alloc::{AllocError, Global};
use xa_codes::{Bytes, Code, TMNOFLAGS, TMONEPHASE, TMSUCCESS, XA_OK, XA_RDONLY, XA_RETRY};
use xa_fields::Key;
use xa_frame::Request;
use xa_xid::Xid;

/// How far a session is with its branch.
#[derive(Clone, Copy, PartialEq, Eq)]
pub enum Phase {
    Idle,
    Working,
    Ended,
    Prepared,
}

/// What a session asks.
#[derive(Clone, Copy, PartialEq, Eq)]
pub enum Act {
    Start,
    Get(u8),
    Put(u8, u64),
    Delete(u8),
    End,
    CommitAtOnce,
    Prepare,
    Commit,
    Rollback,
    Restart,
}

/// Random numbers, the same in each run: a linear congruential generator, with Knuth's constants for 64 bits.
#[derive(Clone, Copy)]
pub struct Chance {
    state: u64,
}

impl Chance {
    pub fn of_script(script: u64) -> Chance {
        let mut chance = Chance {
            state: script.wrapping_mul(7_919),
        };
        let _first = chance.number();
        chance
    }

    fn number(&mut self) -> u64 {
        self.state = self
            .state
            .wrapping_mul(6_364_136_223_846_793_005)
            .wrapping_add(1_442_695_040_888_963_407);
        self.state >> 33
    }

    fn percent(&mut self) -> u64 {
        self.number() % 100
    }

    /// One of four sessions, from 0.
    pub fn session(&mut self) -> u64 {
        self.number() % 4
    }

    /// One of three keys.
    fn key(&mut self) -> u8 {
        match self.number() % 3 {
            0 => 0x61,
            1 => 0x62,
            _ => 0x63,
        }
    }

    /// What a session in this phase asks; a put puts this value.
    pub fn act(&mut self, phase: Phase, value: u64) -> Act {
        let percent = self.percent();
        let key = self.key();
        if self.percent() == 0 {
            return Act::Restart;
        }
        match phase {
            Phase::Idle => Act::Start,
            Phase::Working => work(percent, key, value),
            Phase::Ended => finish(percent),
            Phase::Prepared => complete(percent),
        }
    }
}

fn work(percent: u64, key: u8, value: u64) -> Act {
    match percent {
        0..=41 => Act::Get(key),
        42..=71 => Act::Put(key, value),
        72..=79 => Act::Delete(key),
        _ => Act::End,
    }
}

fn finish(percent: u64) -> Act {
    match percent {
        0..=49 => Act::CommitAtOnce,
        50..=89 => Act::Prepare,
        _ => Act::Rollback,
    }
}

/// A restart now and then finds a branch in doubt.
fn complete(percent: u64) -> Act {
    match percent {
        0..=74 => Act::Commit,
        75..=84 => Act::Rollback,
        _ => Act::Restart,
    }
}

fn on_key(alloc: Global, act: Act) -> Result<Request, AllocError>
    ensures { IfOk result IsRequest }
{
    Ok(match act {
        Act::Get(key) => Request::Get {
            key: Key::new(&[key]).ok_or(AllocError)?,
        },
        Act::Put(key, value) => Request::Put {
            key: Key::new(&[key]).ok_or(AllocError)?,
            value: Bytes::from_slice(alloc, &value.to_be_bytes())?,
        },
        Act::Delete(key) => Request::Delete {
            key: Key::new(&[key]).ok_or(AllocError)?,
        },
        _ => Request::Restart,
    })
}

fn on_branch(act: Act, xid: Xid) -> Option<Request>
    ensures { IfSome result IsRequest }
{
    let flags = TMNOFLAGS;
    match act {
        Act::Start => Some(Request::Start { flags, xid }),
        Act::End => Some(Request::End {
            flags: TMSUCCESS,
            xid,
        }),
        Act::CommitAtOnce => Some(Request::Commit {
            flags: TMONEPHASE,
            xid,
        }),
        Act::Prepare => Some(Request::Prepare { flags, xid }),
        Act::Commit => Some(Request::Commit { flags, xid }),
        Act::Rollback => Some(Request::Rollback { flags, xid }),
        _ => None,
    }
}

/// The request, for the branch whose XID is made of this number.
pub fn request(alloc: Global, act: Act, number: u64) -> Option<Request>
    ensures { IfSome result IsRequest }
{
    let xid = Xid::new(1, &number.to_be_bytes(), &[]).ok()?;
    match on_branch(act, xid) {
        Some(request) => Some(request),
        None => on_key(alloc, act).ok(),
    }
}

/// How far the session is with its branch after this answer. `None` is an answer that mustn't come.
pub fn next_phase(act: Act, code: Code) -> Option<Phase> {
    let is_marked = code >= 100 && code <= 107;
    match act {
        Act::Start if code == XA_OK => Some(Phase::Working),
        Act::Get(_) if code == XA_OK || code == XA_RETRY || is_marked => Some(Phase::Working),
        Act::Put(_, _) | Act::Delete(_) if code == XA_OK || is_marked => Some(Phase::Working),
        Act::End if code == XA_OK || is_marked => Some(Phase::Ended),
        Act::Prepare if code == XA_OK => Some(Phase::Prepared),
        Act::Prepare if code == XA_RDONLY || is_marked => Some(Phase::Idle),
        Act::CommitAtOnce | Act::Rollback if code == XA_OK || is_marked => Some(Phase::Idle),
        Act::Commit if code == XA_OK => Some(Phase::Idle),
        _ => None,
    }
}

/// Whether the branch is committed by this answer: in one phase, in two, or because it wrote nothing.
pub fn commits(act: Act, code: Code) -> bool
    ensures { result ≡ true → (code ≡ XA_OK) ⊎ (code ≡ XA_RDONLY) }
{
    match act {
        Act::CommitAtOnce | Act::Commit => code == XA_OK,
        Act::Prepare => code == XA_RDONLY,
        _ => false,
    }
}

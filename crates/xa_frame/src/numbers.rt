ghost use Rattle.std.specs.Prelude.{◌≡◌};
ghost use Rattle.xa_frame.specs.Spelling.{operation, call_of, numbered, detail_byte, detail_numbered, state_byte, state_numbered};

use crate::known_branch::BranchState;
use crate::request::Request;
use xa_codes::{Call, Detail};

impl Request {
    /// Which call it is. Takes no memory.
    pub fn call(&self) -> Call
        ensures { result ≡ call_of self.now }
    {
        match self {
            Request::Open { .. } => Call::Open,
            Request::Close { .. } => Call::Close,
            Request::Start { .. } => Call::Start,
            Request::End { .. } => Call::End,
            Request::Prepare { .. } => Call::Prepare,
            Request::Commit { .. } => Call::Commit,
            Request::Rollback { .. } => Call::Rollback,
            Request::Forget { .. } => Call::Forget,
            Request::Recover { .. } => Call::Recover,
            Request::Get { .. } => Call::Get,
            Request::Put { .. } => Call::Put,
            Request::Delete { .. } => Call::Delete,
            Request::Decide { .. } => Call::Decide,
            Request::Doom { .. } => Call::Doom,
            Request::Restart => Call::Restart,
            Request::Timeout { .. } => Call::Timeout,
            Request::Tick { .. } => Call::Tick,
            Request::Trim => Call::Trim,
            Request::Branches { .. } => Call::Branches,
        }
    }
}

/// The byte that stands for a call.
pub(crate) fn operation_of(call: Call) -> u8
    ensures { result ≡ operation call }
{
    match call {
        Call::Open => 1,
        Call::Close => 2,
        Call::Start => 3,
        Call::End => 4,
        Call::Prepare => 5,
        Call::Commit => 6,
        Call::Rollback => 7,
        Call::Recover => 8,
        Call::Forget => 9,
        Call::Get => 10,
        Call::Put => 11,
        Call::Delete => 12,
        Call::Decide => 13,
        Call::Doom => 14,
        Call::Restart => 15,
        Call::Timeout => 16,
        Call::Tick => 17,
        Call::Trim => 65,
        Call::Branches => 66,
    }
}

/// The call that a byte stands for.
pub(crate) fn call_numbered(byte: u8) -> Option<Call>
    ensures { result ≡ numbered byte }
{
    Some(match byte {
        1 => Call::Open,
        2 => Call::Close,
        3 => Call::Start,
        4 => Call::End,
        5 => Call::Prepare,
        6 => Call::Commit,
        7 => Call::Rollback,
        8 => Call::Recover,
        9 => Call::Forget,
        10 => Call::Get,
        11 => Call::Put,
        12 => Call::Delete,
        13 => Call::Decide,
        14 => Call::Doom,
        15 => Call::Restart,
        16 => Call::Timeout,
        17 => Call::Tick,
        65 => Call::Trim,
        66 => Call::Branches,
        _ => return None,
    })
}

/// The byte that stands for a detail.
pub(crate) fn detail_number(detail: Detail) -> u8
    ensures { result ≡ detail_byte detail }
{
    match detail {
        Detail::Nothing => 0,
        Detail::Memory => 1,
        Detail::Device => 2,
        Detail::Busy => 3,
        Detail::Late => 4,
        Detail::Limit => 5,
        Detail::Frame => 6,
        Detail::LogFull => 7,
        Detail::Access => 8,
    }
}

/// The detail that a byte stands for.
pub(crate) fn detail_of(byte: u8) -> Option<Detail>
    ensures { result ≡ detail_numbered byte }
{
    match byte {
        0 => Some(Detail::Nothing),
        1 => Some(Detail::Memory),
        2 => Some(Detail::Device),
        3 => Some(Detail::Busy),
        4 => Some(Detail::Late),
        5 => Some(Detail::Limit),
        6 => Some(Detail::Frame),
        7 => Some(Detail::LogFull),
        8 => Some(Detail::Access),
        _ => None,
    }
}

/// The byte that stands for a state.
pub(crate) fn state_number(state: BranchState) -> u8
    ensures { result ≡ state_byte state }
{
    state as u8
}

/// The state that a byte stands for.
pub(crate) fn state_of(byte: u8) -> Option<BranchState>
    ensures { result ≡ state_numbered byte }
{
    match byte {
        1 => Some(BranchState::Working),
        2 => Some(BranchState::Prepared),
        3 => Some(BranchState::Committed),
        4 => Some(BranchState::RolledBack),
        _ => None,
    }
}

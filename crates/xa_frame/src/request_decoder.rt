ghost use Rattle.std.specs.Int.{w32, w64};
ghost use Rattle.std.specs.Prelude.{◌≡◌, IfOk, IfErr, Ok, Err, None, false};
ghost use Rattle.xa_fields.specs.Answers.{Gives};
ghost use Rattle.xa_frame.specs.{declared.fault.FrameFault.TheVariants.Memory, declared.request.Request.Request};
ghost use Rattle.xa_frame.specs.Answers.{Answers, IsOrWants, IsFault, brings_bytes};
ghost use Rattle.xa_frame.specs.Faults.{fault_of_request};
ghost use Rattle.xa_frame.specs.Reading.{made, one_of, two_of, number_at, info_at, key_at, value_at, direction_at};
ghost use Rattle.xa_frame.specs.Reading.{name_at, cursor_at, fields_at, operation_at, versioned_at, request_at, branch_request};
ghost use Rattle.xa_frame.specs.Spelling.{SpellsRequest};

use crate::encode::VERSION;
use crate::fault::FrameFault;
use crate::fields::{cursor_of, end, u32_at, u64_at};
use crate::numbers::call_numbered;
use crate::request::Request;
use std::alloc::Global;
use xa_codes::{Bytes, Call, Direction};
use xa_fields::{Key, take_direction, take_short, take_value, take_xid};
use xa_limits::MOST_CONTENT;
use xa_xid::Xid;

/// Flags or seconds.
fn number_alone(bytes: &[u8]) -> Result<u32, FrameFault>
    ensures { result ≡ one_of (number_at w32) bytes.now }
{
    let (number, rest) = u32_at(bytes)?;
    end(rest)?;
    Ok(number)
}

fn moment_alone(bytes: &[u8]) -> Result<u64, FrameFault>
    ensures { result ≡ one_of (number_at w64) bytes.now }
{
    let (moment, rest) = u64_at(bytes)?;
    end(rest)?;
    Ok(moment)
}

fn flags_and_info(bytes: &[u8]) -> Result<(u32, &[u8]), FrameFault>
    ensures { Gives (λ x. (x.0, x.1.now)) result (two_of (number_at w32) info_at bytes.now) }
{
    let (flags, rest) = u32_at(bytes)?;
    let (info, rest) = take_short(rest)?;
    end(rest)?;
    Ok((flags, info))
}

fn flags_and_xid(bytes: &[u8]) -> Result<(u32, Xid), FrameFault>
    ensures { result ≡ two_of (number_at w32) name_at bytes.now }
{
    let (flags, rest) = u32_at(bytes)?;
    let (xid, rest) = take_xid(rest)?;
    end(rest)?;
    Ok((flags, xid))
}

fn flags_and_count(bytes: &[u8]) -> Result<(u32, u32), FrameFault>
    ensures { result ≡ two_of (number_at w32) (number_at w32) bytes.now }
{
    let (flags, rest) = u32_at(bytes)?;
    let (count, rest) = u32_at(rest)?;
    end(rest)?;
    Ok((flags, count))
}

fn count_and_cursor(bytes: &[u8]) -> Result<(u32, Option<Xid>), FrameFault>
    ensures { result ≡ two_of (number_at w32) cursor_at bytes.now }
{
    let (count, rest) = u32_at(bytes)?;
    let (after, rest) = cursor_of(rest)?;
    end(rest)?;
    Ok((count, after))
}

fn key_alone(bytes: &[u8]) -> Result<Key, FrameFault>
    ensures { result ≡ one_of key_at bytes.now }
{
    let (key, rest) = Key::take(bytes)?;
    end(rest)?;
    Ok(key)
}

fn key_and_value(bytes: &[u8]) -> Result<(Key, &[u8]), FrameFault>
    ensures { Gives (λ x. (x.0, x.1.now)) result (two_of key_at value_at bytes.now) }
{
    let (key, rest) = Key::take(bytes)?;
    let (value, rest) = take_value(rest)?;
    end(rest)?;
    Ok((key, value))
}

fn direction_and_xid(bytes: &[u8]) -> Result<(Direction, Xid), FrameFault>
    ensures { result ≡ two_of direction_at name_at bytes.now }
{
    let (direction, rest) = take_direction(bytes)?;
    let (xid, rest) = take_xid(rest)?;
    end(rest)?;
    Ok((direction, xid))
}

fn xid_alone(bytes: &[u8]) -> Result<Xid, FrameFault>
    ensures { result ≡ one_of name_at bytes.now }
{
    let (xid, rest) = take_xid(bytes)?;
    end(rest)?;
    Ok(xid)
}

/// The request of this call whose fields are all of the bytes.
#[tactic(auto, unfolding(crate::specs::Reading::fields_at))]
fn fields_of(alloc: Global, call: Call, bytes: &[u8]) -> Result<Request, FrameFault>
    ensures answers { Answers result (fields_at call bytes.now) }
    ensures bare { IfOk (fields_at call bytes.now) (λ r. brings_bytes r ≡ false → result ≡ Ok r) }
{
    match call {
        Call::Open => {
            let (flags, info) = flags_and_info(bytes)?;
            let info = Bytes::from_slice(alloc, info)?;
            Ok(Request::Open { flags, info })
        }
        Call::Close => {
            let flags = number_alone(bytes)?;
            Ok(Request::Close { flags })
        }
        Call::Recover => {
            let (flags, count) = flags_and_count(bytes)?;
            Ok(Request::Recover { flags, count })
        }
        Call::Get => {
            let key = key_alone(bytes)?;
            Ok(Request::Get { key })
        }
        Call::Put => {
            let (key, value) = key_and_value(bytes)?;
            let value = Bytes::from_slice(alloc, value)?;
            Ok(Request::Put { key, value })
        }
        Call::Delete => {
            let key = key_alone(bytes)?;
            Ok(Request::Delete { key })
        }
        Call::Restart => {
            end(bytes)?;
            Ok(Request::Restart)
        }
        Call::Decide => {
            let (direction, xid) = direction_and_xid(bytes)?;
            Ok(Request::Decide { direction, xid })
        }
        Call::Doom => {
            let xid = xid_alone(bytes)?;
            Ok(Request::Doom { xid })
        }
        Call::Timeout => {
            let seconds = number_alone(bytes)?;
            Ok(Request::Timeout { seconds })
        }
        Call::Tick => {
            let moment = moment_alone(bytes)?;
            Ok(Request::Tick { moment })
        }
        Call::Trim => {
            end(bytes)?;
            Ok(Request::Trim)
        }
        Call::Branches => {
            let (count, after) = count_and_cursor(bytes)?;
            Ok(Request::Branches { count, after })
        }
        Call::Start | Call::End | Call::Prepare | Call::Commit | Call::Rollback | Call::Forget => {
            let (flags, xid) = flags_and_xid(bytes)?;
            Ok(on_branch(call, flags, xid))
        }
    }
}

/// The call on a branch: Forget if it is none of the five before it.
fn on_branch(call: Call, flags: u32, xid: Xid) -> Request
    ensures { result ≡ branch_request call flags xid }
{
    match call {
        Call::Start => Request::Start { flags, xid },
        Call::End => Request::End { flags, xid },
        Call::Prepare => Request::Prepare { flags, xid },
        Call::Commit => Request::Commit { flags, xid },
        Call::Rollback => Request::Rollback { flags, xid },
        _ => Request::Forget { flags, xid },
    }
}

#[tactic(auto, unfolding(crate::specs::Reading::operation_at))]
fn operation_of(alloc: Global, bytes: &[u8]) -> Result<Request, FrameFault>
    ensures answers { Answers result (operation_at bytes.now) }
    ensures bare { IfOk (operation_at bytes.now) (λ r. brings_bytes r ≡ false → result ≡ Ok r) }
{
    match bytes {
        [] => Err(FrameFault::Short),
        [number, fields @ ..] => match call_numbered(*number) {
            Some(call) => fields_of(alloc, call, fields),
            None => Err(FrameFault::Operation),
        },
    }
}

/// What stands after the version of a content that isn't too long.
#[tactic(auto, unfolding(crate::specs::Reading::versioned_at))]
pub(crate) fn versioned(bytes: &[u8]) -> Result<&[u8], FrameFault>
    ensures { Gives (λ x. x.now) result (versioned_at bytes.now) }
{
    if bytes.len() > MOST_CONTENT {
        return Err(FrameFault::Long);
    }
    match bytes {
        [] => Err(FrameFault::Short),
        [VERSION, rest @ ..] => Ok(rest),
        [_, ..] => Err(FrameFault::Version),
    }
}

#[tactic(auto, unfolding(crate::specs::Reading::request_at))]
fn whole(alloc: Global, content: &[u8]) -> Result<Request, FrameFault>
    ensures answers { Answers result (request_at content.now) }
    ensures bare { IfOk (request_at content.now) (λ r. brings_bytes r ≡ false → result ≡ Ok r) }
{
    operation_of(alloc, versioned(content)?)
}

/// The request whose content these bytes are, or the first fault, read from left to right. Memory is needed only if
/// they have none.
pub fn decode_request(alloc: Global, content: &[u8]) -> Result<Request, FrameFault>
    // What is decoded has this spelling.
    ensures found { IfOk result (λ r. SpellsRequest content.now r) }
    // What has this spelling is decoded, unless memory runs out.
    ensures only { (r : Request) → SpellsRequest content.now r → IsOrWants result r }
    ensures fault { IfErr result (IsFault (fault_of_request content.now)) }
    ensures memory { result ≡ Err Memory → fault_of_request content.now ≡ None }
    // Memory is needed only for an info or a value.
    ensures bare { (r : Request) → SpellsRequest content.now r → brings_bytes r ≡ false → result ≡ Ok r }
{
    whole(alloc, content)
}

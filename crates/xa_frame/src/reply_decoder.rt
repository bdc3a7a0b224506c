ghost use Rattle.std.specs.Int.{w64};
ghost use Rattle.std.specs.Prelude.{◌≡◌, IsOk, IfOk, IfErr, Err, None};
ghost use Rattle.xa_fields.specs.Answers.{Gives};
ghost use Rattle.xa_frame.specs.Answers.{Answers, IsOrWants, IsFault};
ghost use Rattle.xa_frame.specs.{declared.fault.FrameFault.TheVariants.Memory, declared.reply.Reply.Reply, Spelling.SpellsReply};
ghost use Rattle.xa_frame.specs.{Faults.fault_of_reply};
ghost use Rattle.xa_frame.specs.Reading.{made, one_of, rest_of, value_of_first, number_at, value_at};
ghost use Rattle.xa_frame.specs.Reading.{each_at, counted_at, status_at, body_at, answer_at, reply_at};

use crate::body::Body;
use crate::fault::FrameFault;
use crate::fields::{code_of, detail_front, end, u16_at, u64_at};
use crate::listed::Listed;
use crate::reply::Reply;
use crate::request_decoder::versioned;
use crate::status::{Status, status_front};
use std::alloc::Global;
use xa_codes::{Bytes, Listing};
use xa_fields::take_value;
use xa_limits::MOST_XIDS;

fn number_alone(bytes: &[u8]) -> Result<u64, FrameFault>
    ensures { result ≡ one_of (number_at w64) bytes.now }
{
    let (number, rest) = u64_at(bytes)?;
    end(rest)?;
    Ok(number)
}

fn value_alone(bytes: &[u8]) -> Result<&[u8], FrameFault>
    ensures { Gives (λ x. x.now) result (one_of value_at bytes.now) }
{
    let (value, rest) = take_value(bytes)?;
    end(rest)?;
    Ok(value)
}

/// What stands after `count` of them.
fn behind<T: Listed + Drop>(count: u16, bytes: &[u8]) -> Result<&[u8], FrameFault>
    ensures { Gives (λ x. x.now) result (rest_of (each_at T.at count bytes.now)) }
{
    let mut rest = bytes;
    for _ in 0..count {
        let (_, after) = T::take_front(rest)?;
        rest = after;
    }
    Ok(rest)
}

/// The `count` of them that stand there.
fn list_of<T: Listed + Drop>(
    alloc: Global,
    count: u16,
    bytes: &[u8],
) -> Result<Listing<T>, FrameFault>
    requires { IsOk (each_at T.at count bytes.now) }
    ensures { Answers result (value_of_first (each_at T.at count bytes.now)) }
{
    let mut list = Vec::with_capacity(alloc, usize::from(count))?;
    let mut rest = bytes;
    for _ in 0..count {
        let (item, after) = T::take_front(rest)?;
        list.push(item)?;
        rest = after;
    }
    Ok(Listing::new(list))
}

#[tactic(auto, unfolding(crate::specs::Reading::counted_at))]
fn list_alone<T: Listed + Drop>(alloc: Global, bytes: &[u8]) -> Result<Listing<T>, FrameFault>
    ensures { Answers result (one_of (counted_at T.at) bytes.now) }
{
    let (count, list) = u16_at(bytes)?;
    if usize::from(count) > MOST_XIDS {
        return Err(FrameFault::Field);
    }
    end(behind::<T>(count, list)?)?;
    list_of(alloc, count, list)
}

fn status_alone(bytes: &[u8]) -> Result<Status, FrameFault>
    ensures { result ≡ one_of status_at bytes.now }
{
    let (status, rest) = status_front(bytes)?;
    end(rest)?;
    Ok(status)
}

/// The body that is all of the bytes.
#[tactic(auto, unfolding(crate::specs::Reading::body_at))]
fn body_of(alloc: Global, bytes: &[u8]) -> Result<Body, FrameFault>
    ensures { Answers result (body_at bytes.now) }
{
    match bytes {
        [] => Err(FrameFault::Short),
        [0, rest @ ..] => {
            end(rest)?;
            Ok(Body::Nothing)
        }
        [1, rest @ ..] => {
            let number = number_alone(rest)?;
            Ok(Body::Number(number))
        }
        [2, rest @ ..] => {
            let value = Bytes::from_slice(alloc, value_alone(rest)?)?;
            Ok(Body::Value(value))
        }
        [3, rest @ ..] => {
            end(rest)?;
            Ok(Body::Absent)
        }
        [4, rest @ ..] => {
            let xids = list_alone(alloc, rest)?;
            Ok(Body::Xids(xids))
        }
        [5, rest @ ..] => {
            let branches = list_alone(alloc, rest)?;
            Ok(Body::Branches(branches))
        }
        [6, rest @ ..] => {
            let status = status_alone(rest)?;
            Ok(Body::Status(status))
        }
        [_, ..] => Err(FrameFault::Field),
    }
}

#[tactic(auto, unfolding(crate::specs::Reading::answer_at))]
fn answer_of(alloc: Global, bytes: &[u8]) -> Result<Reply, FrameFault>
    ensures { Answers result (answer_at bytes.now) }
{
    let (code, rest) = code_of(bytes)?;
    let (detail, rest) = detail_front(rest)?;
    let (place, rest) = u64_at(rest)?;
    let body = body_of(alloc, rest)?;
    Ok(Reply {
        code,
        detail,
        place,
        body,
    })
}

#[tactic(auto, unfolding(crate::specs::Reading::reply_at))]
fn whole(alloc: Global, content: &[u8]) -> Result<Reply, FrameFault>
    ensures { Answers result (reply_at content.now) }
{
    answer_of(alloc, versioned(content)?)
}

/// The reply whose content these bytes are, or the first fault, read from left to right. Memory is needed only if
/// they have none.
pub fn decode_reply(alloc: Global, content: &[u8]) -> Result<Reply, FrameFault>
    // What is decoded has this spelling.
    ensures found { IfOk result (λ r. SpellsReply content.now r) }
    // What has this spelling is decoded, unless memory runs out.
    ensures only { (r : Reply) → SpellsReply content.now r → IsOrWants result r }
    ensures fault { IfErr result (IsFault (fault_of_reply content.now)) }
    ensures memory { result ≡ Err Memory → fault_of_reply content.now ≡ None }
{
    whole(alloc, content)
}

ghost use Rattle.std.specs.Prelude.{◌≡◌, ◌++◌, All, IfOk, OnOk};
ghost use Rattle.xa_frame.specs.Limits.{IsRequest, IsBody, IsReply, Holds, HoldsCursor, HoldsCounts, HoldsBranch, HoldsBody, HoldsReply};
ghost use Rattle.xa_frame.specs.Spelling.{cursor_bytes, fields_bytes, counted_bytes, counts_bytes, branch_bytes};
ghost use Rattle.xa_frame.specs.Spelling.{body_bytes, bytes_of_reply, SpellsRequest, SpellsReply};

use crate::body::Body;
use crate::known_branch::{AssociationCounts, KnownBranch};
use crate::listed::Listed;
use crate::numbers::{detail_number, operation_of, state_number};
use crate::reply::Reply;
use crate::request::Request;
use crate::status::put_status;
use std::alloc::{AllocError, Global};
use xa_bytes::{put_u16, put_u32, put_u64};
use xa_fields::{put_direction, put_length, put_short, put_value, put_xid};
use xa_limits::XID_BYTES;
use xa_xid::Xid;

/// What each content begins with.
pub(crate) const VERSION: u8 = 1;

/// Appends 0, or 1 and an XID.
fn put_cursor(out: &mut Vec<u8>, after: &Option<Xid>) -> Result<(), AllocError>
    ensures bytes { OnOk result (out.new.items ≡ out.old.items ++ cursor_bytes after.now) }
    ensures holds { OnOk result (HoldsCursor after.now) }
{
    match after {
        None => Ok(out.push(0)?),
        Some(xid) => {
            out.push(1)?;
            put_xid(out, xid)
        }
    }
}

fn put_fields(out: &mut Vec<u8>, request: &Request) -> Result<(), AllocError>
    ensures bytes { OnOk result (out.new.items ≡ out.old.items ++ fields_bytes request.now) }
    ensures holds { OnOk result (Holds request.now) }
{
    match request {
        Request::Open { flags, info } => {
            put_u32(out, *flags)?;
            put_short(out, info.as_slice())
        }
        Request::Close { flags } => put_u32(out, *flags),
        Request::Start { flags, xid }
        | Request::End { flags, xid }
        | Request::Prepare { flags, xid }
        | Request::Commit { flags, xid }
        | Request::Rollback { flags, xid }
        | Request::Forget { flags, xid } => {
            put_u32(out, *flags)?;
            put_xid(out, xid)
        }
        Request::Recover { flags, count } => {
            put_u32(out, *flags)?;
            put_u32(out, *count)
        }
        Request::Get { key } | Request::Delete { key } => put_short(out, key.as_slice()),
        Request::Put { key, value } => {
            put_short(out, key.as_slice())?;
            put_value(out, value.as_slice())
        }
        Request::Decide { direction, xid } => {
            put_direction(out, *direction)?;
            put_xid(out, xid)
        }
        Request::Doom { xid } => put_xid(out, xid),
        Request::Restart | Request::Trim => Ok(()),
        Request::Timeout { seconds } => put_u32(out, *seconds),
        Request::Tick { moment } => put_u64(out, *moment),
        Request::Branches { count, after } => {
            put_u32(out, *count)?;
            put_cursor(out, after)
        }
    }
}

/// Enough bytes for most requests, and for those with a key, a value or an info exactly enough.
fn room_of(request: &Request) -> usize
    requires { IsRequest request.now }
{
    match request {
        Request::Open { info, .. } => 7 + info.as_slice().len(),
        Request::Get { key } | Request::Delete { key } => 3 + key.as_slice().len(),
        Request::Put { key, value } => 5 + key.as_slice().len() + value.as_slice().len(),
        Request::Close { .. }
        | Request::Recover { .. }
        | Request::Restart
        | Request::Timeout { .. }
        | Request::Tick { .. }
        | Request::Trim => 10,
        _ => 7 + XID_BYTES,
    }
}

/// The content that spells the request.
pub fn encode_request(alloc: Global, request: &Request) -> Result<Vec<u8>, AllocError>
    requires { IsRequest request.now }
    ensures { IfOk result (λ v. SpellsRequest v.items request.now) }
{
    let mut content = Vec::with_capacity(alloc, room_of(request))?;
    content.push(VERSION)?;
    content.push(operation_of(request.call()))?;
    put_fields(&mut content, request)?;
    Ok(content)
}

fn put_list<T: Listed>(out: &mut Vec<u8>, list: &[T]) -> Result<(), AllocError>
    ensures bytes { OnOk result (out.new.items ≡ out.old.items ++ counted_bytes T.spell list.now) }
    ensures holds { OnOk result (All T.fits list.now) }
{
    put_length(out, list.len())?;
    for item in list {
        item.put(out)?;
    }
    Ok(())
}

fn put_counts(out: &mut Vec<u8>, counts: AssociationCounts) -> Result<(), AllocError>
    ensures bytes { OnOk result (out.new.items ≡ out.old.items ++ counts_bytes counts) }
    ensures holds { HoldsCounts counts }
{
    put_u16(out, counts.active)?;
    put_u16(out, counts.suspended)?;
    put_u16(out, counts.loose)
}

pub(crate) fn put_branch(out: &mut Vec<u8>, branch: &KnownBranch) -> Result<(), AllocError>
    ensures bytes { OnOk result (out.new.items ≡ out.old.items ++ branch_bytes branch.now) }
    ensures holds { OnOk result (HoldsBranch branch.now) }
{
    put_xid(out, &branch.xid)?;
    out.push(state_number(branch.state))?;
    out.extend_from_slice(&branch.mark.to_be_bytes())?;
    put_u64(out, branch.timestamp)?;
    put_counts(out, branch.associations)?;
    Ok(())
}

fn put_body(out: &mut Vec<u8>, body: &Body) -> Result<(), AllocError>
    ensures bytes { OnOk result (out.new.items ≡ out.old.items ++ body_bytes body.now) }
    ensures holds { OnOk result (HoldsBody body.now) }
{
    match body {
        Body::Nothing => Ok(out.push(0)?),
        Body::Number(number) => {
            out.push(1)?;
            put_u64(out, *number)
        }
        Body::Value(value) => {
            out.push(2)?;
            put_value(out, value.as_slice())
        }
        Body::Absent => Ok(out.push(3)?),
        Body::Xids(xids) => {
            out.push(4)?;
            put_list(out, xids.as_slice())
        }
        Body::Branches(branches) => {
            out.push(5)?;
            put_list(out, branches.as_slice())
        }
        Body::Status(status) => {
            out.push(6)?;
            put_status(out, *status)
        }
    }
}

/// Enough bytes for most replies.
fn reply_room(body: &Body) -> usize
    requires { IsBody body.now }
{
    match body {
        Body::Value(value) => 17 + value.as_slice().len(),
        Body::Xids(xids) => 17 + 32 * xids.as_slice().len(),
        Body::Branches(branches) => 17 + 51 * branches.as_slice().len(),
        Body::Status(_) => 95,
        Body::Nothing | Body::Number(_) | Body::Absent => 23,
    }
}

/// Appends the content that spells the reply. Takes no memory if there is room for it.
pub fn put_reply(out: &mut Vec<u8>, reply: &Reply) -> Result<(), AllocError>
    requires { IsReply reply.now }
    ensures bytes { OnOk result (out.new.items ≡ out.old.items ++ bytes_of_reply reply.now) }
    ensures holds { OnOk result (HoldsReply reply.now) }
{
    out.reserve(reply_room(&reply.body))?;
    out.push(VERSION)?;
    out.extend_from_slice(&reply.code.to_be_bytes())?;
    out.push(detail_number(reply.detail))?;
    put_u64(out, reply.place)?;
    put_body(out, &reply.body)
}

/// The content that spells the reply.
pub fn encode_reply(alloc: Global, reply: &Reply) -> Result<Vec<u8>, AllocError>
    requires { IsReply reply.now }
    ensures { IfOk result (λ v. SpellsReply v.items reply.now) }
{
    let mut content = Vec::new(alloc);
    put_reply(&mut content, reply)?;
    Ok(content)
}

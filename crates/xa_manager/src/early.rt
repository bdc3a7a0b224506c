ghost use Rattle.std.specs.Prelude.{◌≡◌, IfSome, IsSome, None, Option, true, false};
ghost use Rattle.xa_model.specs.Early.{flags_of, call_of, needs_open, passes_down, is_async};
ghost use Rattle.xa_model.specs.Early.{has_wrong_info, has_wrong_count, has_wrong_moment, is_invalid, early_refusal};
ghost use Rattle.xa_assoc.specs.Refusals.{is_memory, IsBare};

use xa_codes::{
    Bytes, Call, TMASYNC, XAER_ASYNC, XAER_INVAL, XAER_PROTO, XAER_RMFAIL, legal_flags,
};
use xa_frame::{Reply, Request};
use xa_limits::MOST_XIDS;

fn flags_of(request: &Request) -> u32
    ensures { result ≡ flags_of request.now }
{
    match request {
        Request::Open { flags, .. }
        | Request::Close { flags }
        | Request::Start { flags, .. }
        | Request::End { flags, .. }
        | Request::Prepare { flags, .. }
        | Request::Commit { flags, .. }
        | Request::Rollback { flags, .. }
        | Request::Forget { flags, .. }
        | Request::Recover { flags, .. } => *flags,
        Request::Get { .. }
        | Request::Put { .. }
        | Request::Delete { .. }
        | Request::Decide { .. }
        | Request::Doom { .. }
        | Request::Restart
        | Request::Timeout { .. }
        | Request::Tick { .. }
        | Request::Trim
        | Request::Branches { .. } => 0,
    }
}

fn needs_open(call: Call) -> bool
    ensures { result ≡ needs_open call }
{
    match call {
        Call::Open
        | Call::Close
        | Call::Decide
        | Call::Doom
        | Call::Restart
        | Call::Tick
        | Call::Trim
        | Call::Branches => false,
        Call::Start
        | Call::End
        | Call::Prepare
        | Call::Commit
        | Call::Rollback
        | Call::Recover
        | Call::Forget
        | Call::Get
        | Call::Put
        | Call::Delete
        | Call::Timeout => true,
    }
}

fn is_async(call: Call, flags: u32) -> bool
    ensures { result ≡ is_async call flags }
{
    match call {
        Call::Recover => false,
        _ => flags & TMASYNC == TMASYNC,
    }
}

/// Whether a manager that is down answers the call.
fn passes_down(call: Call) -> bool
    ensures { result ≡ passes_down call }
{
    matches!(call, Call::Open | Call::Close | Call::Restart)
}

fn has_wrong_info(name: &Bytes, request: &Request) -> bool
    ensures { result ≡ has_wrong_info name.now request.now }
{
    match request {
        Request::Open { info, .. } => *info != *name,
        _ => false,
    }
}

fn has_wrong_count(request: &Request) -> bool
    ensures { result ≡ has_wrong_count request.now }
{
    match request {
        Request::Recover { count, .. } => *count as usize > MOST_XIDS,
        Request::Branches { count, .. } => *count == 0 || *count as usize > MOST_XIDS,
        _ => false,
    }
}

/// Whether a request tells a moment below the last one.
fn has_wrong_moment(last: u64, request: &Request) -> bool
    ensures { result ≡ has_wrong_moment last request.now }
{
    match request {
        Request::Tick { moment } => *moment < last,
        _ => false,
    }
}

fn is_invalid(name: &Bytes, moment: u64, request: &Request) -> bool
    ensures { result ≡ is_invalid name.now moment request.now }
{
    let call = request.call();
    let flags = flags_of(request);
    !legal_flags(call, flags)
        || has_wrong_info(name, request)
        || has_wrong_count(request)
        || has_wrong_moment(moment, request)
}

/// The refusals that come before the row of a call. The session is connected if `session` says whether it is
/// opened.
pub fn early_refusal(
    up: bool,
    name: &Bytes,
    moment: u64,
    session: Option<bool>,
    request: &Request,
) -> Option<Reply>
    ensures value { result
        ≡ early_refusal (record { up = up; name = name.now; session = session; moment = moment }) request.now }
    ensures served { IfSome result (λ r. is_memory r.detail ≡ false) }
    ensures bare { IfSome result IsBare }
    ensures connected { result ≡ None → IsSome session }
    ensures counted { result ≡ None → has_wrong_count request.now ≡ false }
    ensures later { result ≡ None → has_wrong_moment moment request.now ≡ false }
    ensures answered { result ≡ None → up ≡ false → passes_down (call_of request.now) ≡ true }
{
    let call = request.call();
    if !up && !passes_down(call) {
        return Some(Reply::plain(XAER_RMFAIL));
    }
    let Some(opened) = session else {
        return Some(Reply::plain(XAER_PROTO));
    };
    if needs_open(call) && !opened {
        return Some(Reply::plain(XAER_PROTO));
    }
    if is_async(call, flags_of(request)) {
        return Some(Reply::plain(XAER_ASYNC));
    }
    if is_invalid(name, moment, request) {
        return Some(Reply::plain(XAER_INVAL));
    }
    None
}

ghost use Rattle.std.specs.Prelude.{◌≡◌, ◌↔◌, IsTrue};

use xa_frame::{Body, KnownBranch, Reply, Request};
use xa_history::Receipt;
use xa_model::Event;
use xa_xid::Xid;

/// Whether two receipts are the same.
pub(crate) fn same_receipt(one: &Receipt, other: &Receipt) -> bool
    ensures { IsTrue result ↔ (one.now ≡ other.now) }
{
    one.place == other.place
        && same_event(&one.event, &other.event)
        && same_reply(&one.reply, &other.reply)
}

fn same_event(one: &Event, other: &Event) -> bool
    ensures { IsTrue result ↔ (one.now ≡ other.now) }
{
    match (one, other) {
        (Event::Connect, Event::Connect) => true,
        (Event::Hangup(session), Event::Hangup(wanted)) => session == wanted,
        (Event::Call(session, request), Event::Call(wanted, asked)) => {
            session == wanted && same_request(request, asked)
        }
        _ => false,
    }
}

fn same_reply(one: &Reply, other: &Reply) -> bool
    ensures { IsTrue result ↔ (one.now ≡ other.now) }
{
    one.code == other.code
        && one.detail == other.detail
        && one.place == other.place
        && same_body(&one.body, &other.body)
}

fn same_body(one: &Body, other: &Body) -> bool
    ensures { IsTrue result ↔ (one.now ≡ other.now) }
{
    match (one, other) {
        (Body::Nothing, Body::Nothing) | (Body::Absent, Body::Absent) => true,
        (Body::Number(number), Body::Number(wanted)) => number == wanted,
        (Body::Value(value), Body::Value(wanted)) => value == wanted,
        (Body::Xids(xids), Body::Xids(wanted)) => same_xids(xids.as_slice(), wanted.as_slice()),
        (Body::Branches(branches), Body::Branches(wanted)) => {
            same_branches(branches.as_slice(), wanted.as_slice())
        }
        (Body::Status(status), Body::Status(wanted)) => status == wanted,
        _ => false,
    }
}

fn same_xids(one: &[Xid], other: &[Xid]) -> bool
    ensures { IsTrue result ↔ (one.now ≡ other.now) }
{
    one == other
}

fn same_branches(one: &[KnownBranch], other: &[KnownBranch]) -> bool
    ensures { IsTrue result ↔ (one.now ≡ other.now) }
{
    if one.len() != other.len() {
        return false;
    }
    for i in 0..one.len() {
        let same = same_branch(&one[i], &other[i]);
        if !same {
            return false;
        }
    }
    true
}

fn same_branch(one: &KnownBranch, other: &KnownBranch) -> bool
    ensures { IsTrue result ↔ (one.now ≡ other.now) }
{
    one.xid == other.xid
        && one.state == other.state
        && one.mark == other.mark
        && one.timestamp == other.timestamp
        && one.associations == other.associations
}

fn same_request(one: &Request, other: &Request) -> bool
    ensures { IsTrue result ↔ (one.now ≡ other.now) }
{
    match (one, other) {
        (Request::Open { flags, info }, Request::Open { flags: f, info: i }) => {
            flags == f && info == i
        }
        (Request::Close { flags }, Request::Close { flags: f }) => flags == f,
        (Request::Start { flags, xid }, Request::Start { flags: f, xid: x })
        | (Request::End { flags, xid }, Request::End { flags: f, xid: x })
        | (Request::Prepare { flags, xid }, Request::Prepare { flags: f, xid: x })
        | (Request::Commit { flags, xid }, Request::Commit { flags: f, xid: x })
        | (Request::Rollback { flags, xid }, Request::Rollback { flags: f, xid: x })
        | (Request::Forget { flags, xid }, Request::Forget { flags: f, xid: x }) => {
            flags == f && xid == x
        }
        (Request::Recover { flags, count }, Request::Recover { flags: f, count: c }) => {
            flags == f && count == c
        }
        (Request::Get { key }, Request::Get { key: k })
        | (Request::Delete { key }, Request::Delete { key: k }) => key == k,
        (Request::Put { key, value }, Request::Put { key: k, value: v }) => key == k && value == v,
        (
            Request::Decide { direction, xid },
            Request::Decide {
                direction: d,
                xid: x,
            },
        ) => { direction == d && xid == x }
        (Request::Doom { xid }, Request::Doom { xid: x }) => xid == x,
        (Request::Restart, Request::Restart) | (Request::Trim, Request::Trim) => true,
        (Request::Timeout { seconds }, Request::Timeout { seconds: s }) => seconds == s,
        (Request::Tick { moment }, Request::Tick { moment: m }) => moment == m,
        (Request::Branches { count, after }, Request::Branches { count: c, after: a }) => {
            count == c && same_cursor(after, a)
        }
        _ => false,
    }
}

fn same_cursor(one: &Option<Xid>, other: &Option<Xid>) -> bool
    ensures { IsTrue result ↔ (one.now ≡ other.now) }
{
    match (one, other) {
        (None, None) => true,
        (Some(xid), Some(wanted)) => xid == wanted,
        _ => false,
    }
}

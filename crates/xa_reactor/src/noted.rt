ghost use Rattle.std.specs.Prelude.{◌≡◌};
ghost use Rattle.xa_reactor.specs.Allowance.{after_noted, taken};
ghost use Rattle.xa_reactor.specs.Noted.{IsNoted, code_of, order_in, order_of};

use crate::allowance::Allowance;
use crate::socket::{Socket, Source};
use arrayvec::ArrayVec;
use std::{fmt, str};
use xa_codes::{Code, Direction, XA_OK};
use xa_control::{Answer, Control};
use xa_frame::Request;
use xa_xid::{MOST_TEXT, Xid};

/// What is asked about afterwards, so the server tells of it: an operator's call, or an end of a connection. Its text is that
/// of a script's line.
#[derive(Debug, Drop)]
pub(crate) enum Order {
    Decide(Direction, Xid),
    Doom(Xid),
    Restart,
    Trim,
    Disconnect(u64),
}

/// An order, and where it came from.
#[derive(Debug, Drop)]
pub(crate) struct Noted {
    pub(crate) source: Source,
    pub(crate) order: Order,
}

impl Noted {
    // An order that came by a socket.
    fn new(socket: &Socket, order: Option<Order>) -> Option<Noted>
        ensures { IsNoted socket.now order result }
    {
        let order = order?;
        Some(Noted {
            source: socket.source(),
            order,
        })
    }

    /// A request that came by a socket, if it is an order.
    pub(crate) fn of_request(socket: &Socket, request: &Request) -> Option<Noted>
        ensures { IsNoted socket.now (order_of request.now) result }
    {
        Noted::new(socket, order_of(request))
    }

    /// What was asked of the server itself, if it is an order.
    pub(crate) fn of_control(socket: &Socket, control: &Control) -> Option<Noted>
        ensures { IsNoted socket.now (order_in control.now) result }
    {
        Noted::new(socket, order_in(control))
    }
}

/// Tells of an order, if there is one, that was answered so, if there is a line for it.
pub(crate) fn tell<R: Eprint>(
    rt: &R,
    allowance: &mut Allowance,
    now: u64,
    noted: Option<Noted>,
    code: Code,
)
    ensures { allowance.new ≡ after_noted noted now allowance.old }
{
    let Some(Noted { source, order }) = noted else {
        return;
    };
    if let Some(left_out) = allowance.take(now) {
        tell_left_out(rt, left_out);
        let _ = eprintln!(rt; "xarm: {source}: {order}: {code}");
    }
}

/// Tells of a login that was refused, if there is a line for it.
pub(crate) fn tell_refused<R: Eprint>(rt: &R, allowance: &mut Allowance, now: u64, source: Source)
    ensures { allowance.new ≡ (taken allowance.old now).1 }
{
    if let Some(left_out) = allowance.take(now) {
        tell_left_out(rt, left_out);
        let _ = eprintln!(rt; "xarm: {source}: login refused");
    }
}

/// Tells how many orders weren't told of, if there are some.
pub(crate) fn tell_left_out<R: Eprint>(rt: &R, left_out: u64) {
    let were = if left_out == 1 {
        "order was"
    } else {
        "orders were"
    };
    if left_out > 0 {
        let _ = eprintln!(rt; "xarm: {left_out} {were} not told of");
    }
}

/// The code of an answer.
pub(crate) fn code_of(answer: &Answer) -> Code
    ensures { result ≡ code_of answer.now }
{
    match answer {
        Answer::Refused(code, _) => *code,
        _ => XA_OK,
    }
}

// Which order a request is.
fn order_of(request: &Request) -> Option<Order>
    ensures { result ≡ order_of request.now }
{
    match request {
        Request::Decide { direction, xid } => Some(Order::Decide(*direction, xid.copied())),
        Request::Doom { xid } => Some(Order::Doom(xid.copied())),
        Request::Restart => Some(Order::Restart),
        Request::Trim => Some(Order::Trim),
        _ => None,
    }
}

// Which one it is that was asked of the server itself.
fn order_in(control: &Control) -> Option<Order>
    ensures { result ≡ order_in control.now }
{
    match control {
        Control::Disconnect(session) => Some(Order::Disconnect(*session)),
        _ => None,
    }
}

impl fmt::Display for Order {
    fn fmt<W: fmt::Write>(&self, f: &mut fmt::Formatter<W>) -> fmt::Result {
        match self {
            Order::Decide(Direction::Commit, xid) => write_xid(f, "decide commit ", xid),
            Order::Decide(Direction::Rollback, xid) => write_xid(f, "decide rollback ", xid),
            Order::Doom(xid) => write_xid(f, "doom ", xid),
            Order::Restart => f.write_str("restart"),
            Order::Trim => f.write_str("trim"),
            Order::Disconnect(session) => write!(f, "disconnect {session}"),
        }
    }
}

// Writes what an order is, and of which branch.
fn write_xid<W: fmt::Write>(f: &mut fmt::Formatter<W>, order: &str, xid: &Xid) -> fmt::Result {
    let mut text: ArrayVec<u8, MOST_TEXT> = ArrayVec::new();
    xid.put_text(&mut text);
    f.write_str(order)?;
    match str::from_utf8(text.as_slice()) {
        Ok(text) => f.write_str(text),
        Err(_) => Ok(()),
    }
}

ghost use Rattle.std.specs.Prelude.{◌≡◌, ◌++◌, ◌∷◌, IfOk, IfSome, OnOk, Some};
ghost use Rattle.xa_control.specs.Controls.{HoldsControl, SpellsControl, bytes_of_control};
ghost use Rattle.xa_control.specs.declared.control.Control.{Control};

use crate::hello::{Hello, hello_of, put_hello};
use crate::message::{MOST_MESSAGE, Message, message_of, put_message};
use crate::whole::{u64_of, xid_of};
use std::alloc::{AllocError, Global};
use xa_bytes::put_u64;
use xa_fields::put_xid;
use xa_xid::Xid;

/// What a server is asked, and no manager: it is no call, and has no place in the history.
#[derive(Debug, Drop, PartialEq, Eq)]
pub enum Control {
    /// To end. That has no answer: the server closes the connection once it has ended.
    Shutdown,
    /// Which revision of the protocol it speaks, and which features it has. These are the client's.
    Hello(Hello),
    /// To end the connection of this session.
    Disconnect(u64),
    /// What it has counted.
    Metrics,
    /// Which sessions have an association of their own with this branch: are at work for it, or have suspended that.
    Sessions(Xid),
    /// To begin a login by SCRAM-SHA-256 (RFC 7677): the client-first-message.
    First(Message),
    /// To finish the login that was begun: the client-final-message.
    Final(Message),
}

// The most bytes of what is asked: the version, the operation and a message.
const MOST_ASKED: usize = 2 + MOST_MESSAGE;

impl Control {
    /// A copy. Takes no memory.
    pub fn copied(&self) -> Control
        ensures { result ≡ self.now }
    {
        match self {
            Control::Shutdown => Control::Shutdown,
            Control::Hello(hello) => Control::Hello(*hello),
            Control::Disconnect(session) => Control::Disconnect(*session),
            Control::Metrics => Control::Metrics,
            Control::Sessions(xid) => Control::Sessions(xid.copied()),
            Control::First(message) => Control::First(message.copied()),
            Control::Final(message) => Control::Final(message.copied()),
        }
    }
}

/// What a content asks of a server, or `None` if it asks nothing of the kind. Takes no memory.
pub fn control_of(content: &[u8]) -> Option<Control>
    // What is found has this spelling.
    ensures found { IfSome result (SpellsControl content.now) }
    // What has this spelling is found.
    ensures only { (k : Control) → SpellsControl content.now k → result ≡ Some k }
{
    match content {
        [1, 69] => Some(Control::Shutdown),
        [1, 70, fields @ ..] => greeting(fields),
        [1, 71, fields @ ..] => cut(fields),
        [1, 72] => Some(Control::Metrics),
        [1, 73, fields @ ..] => listing(fields),
        [1, 74, message @ ..] => first_message(message),
        [1, 75, message @ ..] => final_message(message),
        _ => None,
    }
}

fn greeting(fields: &[u8]) -> Option<Control>
    ensures found { IfSome result (SpellsControl (1 ∷ 70 ∷ fields.now)) }
    ensures only { (k : Control) → SpellsControl (1 ∷ 70 ∷ fields.now) k → result ≡ Some k }
{
    Some(Control::Hello(hello_of(fields)?))
}

fn cut(fields: &[u8]) -> Option<Control>
    ensures found { IfSome result (SpellsControl (1 ∷ 71 ∷ fields.now)) }
    ensures only { (k : Control) → SpellsControl (1 ∷ 71 ∷ fields.now) k → result ≡ Some k }
{
    Some(Control::Disconnect(u64_of(fields)?))
}

fn listing(fields: &[u8]) -> Option<Control>
    ensures found { IfSome result (SpellsControl (1 ∷ 73 ∷ fields.now)) }
    ensures only { (k : Control) → SpellsControl (1 ∷ 73 ∷ fields.now) k → result ≡ Some k }
{
    Some(Control::Sessions(xid_of(fields)?))
}

fn first_message(message: &[u8]) -> Option<Control>
    ensures found { IfSome result (SpellsControl (1 ∷ 74 ∷ message.now)) }
    ensures only { (k : Control) → SpellsControl (1 ∷ 74 ∷ message.now) k → result ≡ Some k }
{
    Some(Control::First(message_of(message)?))
}

fn final_message(message: &[u8]) -> Option<Control>
    ensures found { IfSome result (SpellsControl (1 ∷ 75 ∷ message.now)) }
    ensures only { (k : Control) → SpellsControl (1 ∷ 75 ∷ message.now) k → result ≡ Some k }
{
    Some(Control::Final(message_of(message)?))
}

/// Appends the content that asks for this.
pub fn put_control(out: &mut Vec<u8>, control: &Control) -> Result<(), AllocError>
    ensures bytes { OnOk result (out.new.items ≡ out.old.items ++ bytes_of_control control.now) }
    ensures holds { OnOk result (HoldsControl control.now) }
{
    match control {
        Control::Shutdown => out.extend_from_slice(&[1, 69]),
        Control::Hello(hello) => {
            out.extend_from_slice(&[1, 70])?;
            put_hello(out, *hello)
        }
        Control::Disconnect(session) => {
            out.extend_from_slice(&[1, 71])?;
            put_u64(out, *session)
        }
        Control::Metrics => out.extend_from_slice(&[1, 72]),
        Control::Sessions(xid) => {
            out.extend_from_slice(&[1, 73])?;
            put_xid(out, xid)
        }
        Control::First(message) => {
            out.extend_from_slice(&[1, 74])?;
            put_message(out, message)
        }
        Control::Final(message) => {
            out.extend_from_slice(&[1, 75])?;
            put_message(out, message)
        }
    }
}

/// The content that asks for this.
pub fn control_content(alloc: Global, control: &Control) -> Result<Vec<u8>, AllocError>
    ensures { IfOk result (λ v. SpellsControl v.items control.now) }
{
    let mut content = Vec::with_capacity(alloc, MOST_ASKED)?;
    put_control(&mut content, control)?;
    Ok(content)
}

ghost use Rattle.std.specs.Prelude.{◌≡◌, ◌↔◌, ◌≤◌, ◌++◌, ℕ, List, IfSome, IsSome, OnOk, Some, length};
ghost use Rattle.xa_control.specs.Messages.{IsMessage};

use arrayvec::ArrayVec;
use std::alloc::AllocError;
use std::marker::Model;

/// The most bytes of a message of a login.
pub const MOST_MESSAGE: usize = 256;

/// A message of a login by SCRAM-SHA-256 (RFC 5802, RFC 7677), carried as it is: at most `MOST_MESSAGE` bytes of its own.
/// Contracts see it as the list of them.
#[derive(Debug, Drop)]
pub struct Message {
    bytes: ArrayVec<u8, MOST_MESSAGE>,
}

impl Model for Message {
    ghost use Rattle.std.specs.Prelude.{ℕ, List, ◌≤◌, length};

    ghost Value = { List ℕ };

    ghost view = { λ m. m.bytes.items };

    ghost invariant = { λ m. length m.bytes.items ≤ 256 };
}

impl Message {
    /// These bytes; `None` if they are more than `MOST_MESSAGE`. Takes no memory.
    pub fn new(bytes: &[u8]) -> Option<Message>
        ensures bytes { IfSome result (λ m. m ≡ bytes.now) }
        ensures valid { IsSome result ↔ length bytes.now ≤ MOST_MESSAGE }
    {
        if bytes.len() > MOST_MESSAGE {
            return None;
        }
        Some(Message { bytes: held(bytes) })
    }

    /// The bytes. Takes no memory.
    pub fn as_slice(&self) -> &[u8]
        ensures bytes { result.now ≡ self.now }
        ensures few { length result.now ≤ MOST_MESSAGE }
    {
        self.bytes.as_slice()
    }

    /// A copy. Takes no memory.
    pub fn copied(&self) -> Message
        ensures { result ≡ self.now }
    {
        Message {
            bytes: held(self.bytes.as_slice()),
        }
    }
}

fn held(bytes: &[u8]) -> ArrayVec<u8, MOST_MESSAGE>
    requires { length bytes.now ≤ MOST_MESSAGE }
    ensures { result.items ≡ bytes.now }
{
    let mut all: ArrayVec<u8, MOST_MESSAGE> = ArrayVec::new();
    let _ = all.try_extend_from_slice(bytes);
    all
}

impl PartialEq for Message {
    ghost use Rattle.std.proofs.Common.{rules};
    ghost use Rattle.std.specs.Cmp.Rules.{comparing};
    ghost use Rattle.std.specs.Prelude.{bytes_eq};

    ghost eq = { bytes_eq };

    ghost laws = { Prim.search (comparing, rules) depth 9 };

    fn eq(&self, other: &Message) -> bool {
        self.bytes.as_slice() == other.bytes.as_slice()
    }
}

impl Eq for Message {
    ghost use Rattle.std.proofs.Common.{rules};
    ghost use Rattle.std.specs.Cmp.Rules.{comparing};

    ghost laws = { Prim.search (comparing, rules) depth 9 };
}

// Few bytes are a message's.
fn hold(_bytes: &[u8])
    requires { length _bytes.now ≤ MOST_MESSAGE }
    ensures { IsMessage _bytes.now }
{}

/// Appends the bytes of the message.
pub(crate) fn put_message(out: &mut Vec<u8>, message: &Message) -> Result<(), AllocError>
    ensures bytes { OnOk result (out.new.items ≡ out.old.items ++ message.now) }
    ensures holds { IsMessage message.now }
{
    let bytes = message.as_slice();
    hold(bytes);
    out.extend_from_slice(bytes)
}

/// What these bytes are, if few enough for a message. Takes no memory.
pub(crate) fn message_of(bytes: &[u8]) -> Option<Message>
    ensures found { IfSome result (λ m. (bytes.now ≡ m) × IsMessage m) }
    ensures only { (m : List ℕ) → IsMessage m → bytes.now ≡ m → result ≡ Some m }
{
    Message::new(bytes)
}

ghost use Rattle.std.specs.Prelude.{◌≡◌, IfSome, Some};
ghost use Rattle.xa_scram.specs.declared.opening.Opening.{Opening};
ghost use Rattle.xa_scram.specs.Believed.Messages.{SpellsOpening, opening_bare, opening_bytes};
ghost use Rattle.xa_scram.specs.{Believed.Exchanges.opened_by, Reading.IsBare};

use crate::bytes::append;
use crate::fields::{Message, after, cut};
use crate::limits::MOST_MESSAGE;
use crate::name::Name;
use crate::nonce::Nonce;
use arrayvec::ArrayVec;

/// What a client says of channel binding, the header of its first message (RFC 5802, 7: `gs2-cbind-flag`).
#[derive(Clone, Copy, Debug, PartialEq, Eq)]
pub enum Binding {
    /// `n,,`: it supports none.
    Unsupported,
    /// `y,,`: it does, but thinks that the server doesn't.
    Unoffered,
}

/// The first message of a client, with no authzid and no extension.
#[derive(Debug, Drop)]
pub struct Opening {
    pub name: Name,
    pub nonce: Nonce,
    pub binding: Binding,
}

impl Opening {
    /// The opening that all of the message spells, as `n,,n=user,r=fyko+d2lbbFgONRv9qkxdawL`. Takes no memory.
    pub fn of(message: &[u8]) -> Option<Opening>
        // What is found has this spelling.
        ensures found { IfSome result (SpellsOpening message.now) }
        // What has this spelling is found.
        ensures only { (o : Opening) → SpellsOpening message.now o → result ≡ Some o }
    {
        if let Some(bare) = after(message, b"n,,n=") {
            return bare_of(bare, Binding::Unsupported);
        }
        match after(message, b"y,,n=") {
            Some(bare) => bare_of(bare, Binding::Unoffered),
            None => None,
        }
    }

    /// A copy. Takes no memory.
    pub fn copied(&self) -> Opening
        ensures { result ≡ self.now }
    {
        Opening {
            name: self.name.copied(),
            nonce: self.nonce.copied(),
            binding: self.binding,
        }
    }
}

fn bare_of(bare: &[u8], binding: Binding) -> Option<Opening>
    ensures found { IfSome result (IsBare binding bare.now) }
    ensures only { (o : Opening) → IsBare binding bare.now o → result ≡ Some o }
{
    let (name, rest) = cut(bare, b',')?;
    let nonce = after(rest, b"r=")?;
    let name = Name::new(name)?;
    let nonce = Nonce::new(nonce)?;
    Some(Opening {
        name,
        nonce,
        binding,
    })
}

/// The first message without its header (RFC 5802, 7: `client-first-message-bare`).
pub(crate) fn bare(opening: &Opening) -> Message
    ensures { result.items ≡ opening_bare opening.now }
{
    let mut out: Message = ArrayVec::new();
    append(&mut out, b"n=");
    append(&mut out, opening.name.as_slice());
    append(&mut out, b",r=");
    append(&mut out, opening.nonce.as_slice());
    out
}

/// The first message of a client without channel binding. Takes no memory.
pub fn put_opening(name: &Name, nonce: &Nonce) -> ArrayVec<u8, MOST_MESSAGE>
    ensures { result.items ≡ opening_bytes (opened_by name.now nonce.now) }
{
    let mut out: Message = ArrayVec::new();
    append(&mut out, b"n,,n=");
    append(&mut out, name.as_slice());
    append(&mut out, b",r=");
    append(&mut out, nonce.as_slice());
    out
}

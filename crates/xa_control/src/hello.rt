ghost use Rattle.std.specs.Prelude.{◌≡◌, ◌++◌, IfSome, OnOk, Some};
ghost use Rattle.xa_control.specs.Controls.{HoldsHello, hello_bytes};
ghost use Rattle.xa_control.specs.declared.hello.Hello.{Hello};

use crate::whole::u64_of;
use std::alloc::AllocError;
use xa_bytes::{put_u32, put_u64, take_u32};

/// Which revision of the protocol a side speaks, and which features it has, a bit each.
#[derive(Clone, Copy, Debug, PartialEq, Eq)]
pub struct Hello {
    pub revision: u32,
    pub features: u64,
}

/// The revision that this server speaks.
pub const REVISION: u32 = 1;

/// The feature of ending the connection of a session.
pub const DISCONNECTS: u64 = 1;

/// The feature of telling what was counted.
pub const MEASURES: u64 = 2;

/// The feature of listing the sessions of a branch.
pub const LISTS: u64 = 4;

/// The feature of taking logins by SCRAM-SHA-256 (RFC 7677).
pub const LOGINS: u64 = 8;

/// The features that this server has.
pub const FEATURES: u64 = DISCONNECTS + MEASURES + LISTS;

// The numbers of a program have 32 and 64 bits.
fn hold(_hello: Hello)
    ensures { HoldsHello _hello }
{}

/// Appends the revision and the features.
pub(crate) fn put_hello(out: &mut Vec<u8>, hello: Hello) -> Result<(), AllocError>
    ensures bytes { OnOk result (out.new.items ≡ out.old.items ++ hello_bytes hello) }
    ensures holds { HoldsHello hello }
{
    hold(hello);
    put_u32(out, hello.revision)?;
    put_u64(out, hello.features)
}

/// What these bytes are, if a revision and features. Takes no memory.
pub(crate) fn hello_of(bytes: &[u8]) -> Option<Hello>
    ensures found { IfSome result (λ h. (bytes.now ≡ hello_bytes h) × HoldsHello h) }
    ensures only { (h : Hello) → HoldsHello h → bytes.now ≡ hello_bytes h → result ≡ Some h }
{
    let (revision, rest) = take_u32(bytes)?;
    let features = u64_of(rest)?;
    Some(Hello { revision, features })
}

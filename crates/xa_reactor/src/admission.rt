//! Who is admitted, the fewer places are left.
ghost use Rattle.std.specs.Prelude.{◌≡◌, ◌<◌};
ghost use Rattle.std.specs.declared.net.ip_addr.IpAddr.{IpAddr};
ghost use Rattle.xa_reactor.specs.Admission.{ComesFrom, IsCanonical, admission_of, may_admit, most_open};

use std::net::IpAddr;

/// The most connections that are open at a time. With one session more the manager has as many as it may.
pub const MOST_OPEN: u64 = 1_023;

/// How many of these places are kept for an operator: the last ones.
pub const KEPT_OPEN: u64 = 4;

/// How many of those that are open may have to log in, and haven't yet.
pub const MOST_STRANGERS: u64 = 64;

/// Whether a connection is taken up.
#[derive(Clone, Copy, Debug, PartialEq, Eq)]
pub(crate) enum Admitted {
    Yes,
    /// As many are open as may be.
    Full,
    /// As many as may be haven't logged in.
    Strange,
}

/// Where a connection comes from.
#[derive(Clone, Copy, Debug, PartialEq, Eq)]
pub(crate) enum Origin {
    /// The server's Unix socket.
    Path,
    /// Its port, from a loopback address.
    Loopback,
    /// Its port, from another address.
    Elsewhere,
}

/// Where a connection of a port comes from, by its peer's address. One of IPv4 may be mapped to one of IPv6.
pub(crate) fn origin_of(address: IpAddr) -> Origin
    ensures { (canonical : IpAddr) × IsCanonical address canonical × ComesFrom canonical result }
{
    if address.to_canonical().is_loopback() {
        Origin::Loopback
    } else {
        Origin::Elsewhere
    }
}

/// How many connections are open at most, those from there and all others, if one from there is admitted. The last
/// places are for the Unix socket's, or if there is none, for those from a loopback address.
pub(crate) fn most_open(has_path: bool, origin: Origin) -> u64
    ensures { result ≡ most_open has_path origin }
{
    let is_operators = match origin {
        Origin::Path => true,
        Origin::Loopback => !has_path,
        Origin::Elsewhere => false,
    };
    if is_operators {
        MOST_OPEN
    } else {
        MOST_OPEN - KEPT_OPEN
    }
}

/// Whether a connection from there is admitted, while this many are open.
pub(crate) fn may_admit(has_path: bool, origin: Origin, count: u64) -> bool
    ensures { result ≡ may_admit has_path origin count }
{
    count < most_open(has_path, origin)
}

/// Whether a connection from there is taken up, while this many are open, and this many of these haven't logged in.
pub(crate) fn admission_of(
    has_path: bool,
    has_users: bool,
    origin: Origin,
    count: u64,
    strangers: u64,
) -> Admitted
    ensures { result ≡ admission_of has_path has_users origin count strangers }
{
    if !may_admit(has_path, origin, count) {
        Admitted::Full
    } else if has_users && strangers >= MOST_STRANGERS {
        Admitted::Strange
    } else {
        Admitted::Yes
    }
}

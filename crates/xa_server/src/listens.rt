use crate::socket_access::SocketAccess;
use std::fs::{self, Files, Permissions};
use std::io::{self, ErrorKind};
use std::net::{Net, TcpListener};
use std::os::unix::fs::{FileTypeExt, PermissionsExt, chown};
use std::os::unix::net::{UnixListener, UnixStream};

/// What listens on the ports of a machine, and at its paths.
pub trait Listens {
    ghost use Rattle.std.specs.Prelude.{ℕ, List, IfOk, OnErr};
    ghost use Rattle.std.specs.declared.net.TcpListener.{TcpListener};
    ghost use Rattle.std.specs.declared.net.unix.UnixListener.{UnixListener};

    /// A listener listens at an address, by its text's bytes, on a port.
    ghost listens: { TcpListener → List ℕ → ℕ → Type 0 };

    /// It was asked to listen at this address on this port, and didn't.
    ghost refuses: { List ℕ → ℕ → Type 0 };

    /// A listener listens at a path.
    ghost listens_at: { UnixListener → List ℕ → Type 0 };

    /// It was asked to listen at this path, and didn't.
    ghost refuses_at: { List ℕ → Type 0 };

    /// Listens at an address on a port.
    fn listen(&self, address: &str, port: u16) -> io::Result<TcpListener>
        ensures listens { IfOk result (λ listener. listens listener address.now port) }
        ensures refuses { OnErr result (refuses address.now port) };

    /// Listens at a path, by a socket that those may connect to.
    fn listen_at(&self, path: &str, access: SocketAccess) -> io::Result<UnixListener>
        ensures listens { IfOk result (λ listener. listens_at listener path.now) }
        ensures refuses { OnErr result (refuses_at path.now) };
}

/// Of a socket a contract can't say anything.
impl Listens for HostRuntime {
    ghost listens = { λ _ _ _. Unit {0} };

    ghost refuses = { λ _ _. Unit {0} };

    ghost listens_at = { λ _ _. Unit {0} };

    ghost refuses_at = { λ _. Unit {0} };

    fn listen(&self, address: &str, port: u16) -> io::Result<TcpListener> {
        TcpListener::bind(self, (address, port))
    }

    fn listen_at(&self, path: &str, access: SocketAccess) -> io::Result<UnixListener> {
        let listener = bound(self, path)?;
        fs::set_permissions(self, path, Permissions::from_mode(0o600))?;
        if access.group.is_some() {
            chown(self, path, None, access.group)?;
        }
        fs::set_permissions(self, path, Permissions::from_mode(access.mode))?;
        drop_waiting(&listener)?;
        Ok(listener)
    }
}

// A socket at a path, in place of one that a server left behind which is gone.
fn bound<R: Files + Net>(rt: &R, path: &str) -> io::Result<UnixListener> {
    match UnixListener::bind(rt, path) {
        Err(error) if error.kind() == ErrorKind::AddrInUse && is_left_behind(rt, path) => {
            fs::remove_file(rt, path)?;
            UnixListener::bind(rt, path)
        }
        bound => bound,
    }
}

// Whether there is a socket at a path at which nobody listens.
fn is_left_behind<R: Files + Net>(rt: &R, path: &str) -> bool {
    let is_socket = match fs::symlink_metadata(rt, path) {
        Ok(metadata) => metadata.file_type().is_socket(),
        Err(_) => false,
    };
    is_socket
        && match UnixStream::connect(rt, path) {
            Ok(_) => false,
            Err(error) => error.kind() == ErrorKind::ConnectionRefused,
        }
}

// Closes the connections that wait: they may be of others than the owner, from before the socket's mode was set.
fn drop_waiting(listener: &UnixListener) -> io::Result<()> {
    listener.set_nonblocking(true)?;
    for _ in 0..u32::MAX {
        if listener.accept().is_err() {
            break;
        }
    }
    Ok(())
}

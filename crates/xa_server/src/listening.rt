ghost use Rattle.std.specs.Prelude.{IfOk, OnErr};
ghost use Rattle.xa_server.specs.Believed.Served.{IsListening, IsRefusedAt, where_of};

use crate::listens::Listens;
use crate::socket_access::SocketAccess;
use std::io;
use std::net::TcpListener;
use std::os::unix::net::UnixListener;
use xa_service::At;

/// What listens where a server is to.
#[derive(Debug, Drop)]
pub(crate) enum Listening {
    Tcp(TcpListener),
    Unix(UnixListener),
    Both(TcpListener, UnixListener),
}

/// Listens on the port first: a Unix socket that was made stays.
pub(crate) fn listen<R: Listens>(rt: &R, at: At<'_>, access: SocketAccess) -> io::Result<Listening>
    ensures listens { IfOk result (λ listener. IsListening R.Listens listener (where_of at.entry)) }
    ensures refused { OnErr result (IsRefusedAt R.Listens (where_of at.entry)) }
{
    match at {
        At::Port { address, port } => match rt.listen(address, port) {
            Ok(listener) => Ok(Listening::Tcp(listener)),
            Err(error) => Err(error),
        },
        At::Socket(path) => match rt.listen_at(path, access) {
            Ok(listener) => Ok(Listening::Unix(listener)),
            Err(error) => Err(error),
        },
        At::Both {
            address,
            port,
            path,
        } => {
            let tcp = match rt.listen(address, port) {
                Ok(listener) => listener,
                Err(error) => return Err(error),
            };
            match rt.listen_at(path, access) {
                Ok(unix) => Ok(Listening::Both(tcp, unix)),
                Err(error) => Err(error),
            }
        }
    }
}

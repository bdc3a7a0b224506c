ghost use Rattle.std.specs.Prelude.{◌≡◌, IfOk};
ghost use Rattle.xa_reactor.specs.Admission.{MayComeFrom, has_path};

use crate::admission::{Origin, origin_of};
use crate::socket::Socket;
use mio::net::{TcpListener, UnixListener};
use mio::{Interest, Registry, Token};
use std::io;
use std::io::ErrorKind;

/// What connections come from. Its accepts answer `WouldBlock` if none waits.
#[derive(Debug, Drop)]
pub enum Listener {
    Tcp(TcpListener),
    Unix(UnixListener),
    Both(TcpListener, UnixListener),
}

impl Listener {
    /// Whether there is a Unix socket.
    pub(crate) fn has_path(&self) -> bool
        ensures { result ≡ has_path self.now }
    {
        match self {
            Listener::Tcp(_) => false,
            Listener::Unix(_) | Listener::Both(..) => true,
        }
    }

    /// What tells that it can be reached: a line for the port, and one for the Unix socket.
    pub(crate) fn ready_lines(&self) -> &'static str {
        match self {
            Listener::Tcp(_) | Listener::Unix(_) => "ready",
            Listener::Both(..) => "ready\nready",
        }
    }

    /// The next connection, and where it comes from: of the Unix socket's first. A reply is written whole, so it need not
    /// wait for more.
    pub(crate) fn accept(&self) -> io::Result<(Socket, Origin)>
        ensures { IfOk result (λ one. MayComeFrom one.0 one.1) }
    {
        match self {
            Listener::Tcp(tcp) => accept_tcp(tcp),
            Listener::Unix(unix) => accept_unix(unix),
            Listener::Both(tcp, unix) => match accept_unix(unix) {
                Err(error) if error.kind() == ErrorKind::WouldBlock => accept_tcp(tcp),
                accepted => accepted,
            },
        }
    }

    /// Has events tell when a connection waits.
    pub(crate) fn register(&mut self, registry: &Registry, token: Token) -> io::Result<()> {
        match self {
            Listener::Tcp(tcp) => registry.register(tcp, token, Interest::READABLE),
            Listener::Unix(unix) => registry.register(unix, token, Interest::READABLE),
            Listener::Both(tcp, unix) => {
                registry.register(tcp, token, Interest::READABLE)?;
                registry.register(unix, token, Interest::READABLE)
            }
        }
    }
}

fn accept_tcp(listener: &TcpListener) -> io::Result<(Socket, Origin)>
    ensures { IfOk result (λ one. MayComeFrom one.0 one.1) }
{
    let (stream, address) = listener.accept()?;
    let _ = stream.set_nodelay(true);
    Ok((Socket::Tcp(stream), origin_of(address.ip())))
}

fn accept_unix(listener: &UnixListener) -> io::Result<(Socket, Origin)>
    ensures { IfOk result (λ one. MayComeFrom one.0 one.1) }
{
    let (stream, _) = listener.accept()?;
    Ok((Socket::Unix(stream), Origin::Path))
}

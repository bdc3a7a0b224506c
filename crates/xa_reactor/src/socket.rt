ghost use Rattle.std.specs.Io.{ReadsAtMost, WritesAtMost};
ghost use Rattle.xa_reactor.specs.Noted.{MayBeFrom};

use mio::net::{TcpStream, UnixStream};
use mio::{Interest, Registry, Token};
use std::io::{ErrorKind, Read, Write};
use std::net::SocketAddr;
use std::{fmt, io};

/// A connection's socket, whose reads and writes answer `WouldBlock` if they would wait.
#[derive(Debug, Drop)]
pub enum Socket {
    Tcp(TcpStream),
    Unix(UnixStream),
}

/// Where a connection comes from, as it is told: by its peer's address, or by the Unix socket.
#[derive(Clone, Copy, Debug)]
pub(crate) enum Source {
    Address(SocketAddr),
    Path,
    /// The port, from where its peer has gone.
    Gone,
}

impl fmt::Display for Source {
    fn fmt<W: fmt::Write>(&self, f: &mut fmt::Formatter<W>) -> fmt::Result {
        match self {
            Source::Address(address) => write!(f, "{address}"),
            Source::Path => f.write_str("socket"),
            Source::Gone => f.write_str("port"),
        }
    }
}

impl Socket {
    /// Where the connection comes from.
    pub(crate) fn source(&self) -> Source
        ensures { MayBeFrom self.now result }
    {
        match self {
            Socket::Tcp(stream) => match stream.peer_addr() {
                Ok(address) => Source::Address(address),
                Err(_) => Source::Gone,
            },
            Socket::Unix(_) => Source::Path,
        }
    }

    pub(crate) fn read(&mut self, bytes: &mut [u8]) -> io::Result<usize>
        ensures { ReadsAtMost result bytes.new }
    {
        match self {
            Socket::Tcp(stream) => stream.read(bytes),
            Socket::Unix(stream) => stream.read(bytes),
        }
    }

    pub(crate) fn write(&mut self, bytes: &[u8]) -> io::Result<usize>
        ensures { WritesAtMost result bytes.now }
    {
        match self {
            Socket::Tcp(stream) => stream.write(bytes),
            Socket::Unix(stream) => stream.write(bytes),
        }
    }

    /// Has events tell when there is something to read. Whether that went well.
    pub(crate) fn register(&mut self, registry: &Registry, token: Token) -> bool {
        let told = match self {
            Socket::Tcp(stream) => registry.register(stream, token, Interest::READABLE),
            Socket::Unix(stream) => registry.register(stream, token, Interest::READABLE),
        };
        told.is_ok()
    }

    /// Has events tell when there is something to read, and also, if that is asked, when the socket takes more.
    /// Whether that went well.
    pub(crate) fn watch(&mut self, registry: &Registry, token: Token, writes: bool) -> bool {
        let interests = if writes {
            Interest::READABLE | Interest::WRITABLE
        } else {
            Interest::READABLE
        };
        let told = match self {
            Socket::Tcp(stream) => registry.reregister(stream, token, interests),
            Socket::Unix(stream) => registry.reregister(stream, token, interests),
        };
        told.is_ok()
    }
}

/// Whether a read or a write that failed so may go on later.
pub(crate) fn is_passing(kind: ErrorKind) -> bool {
    kind == ErrorKind::WouldBlock || kind == ErrorKind::Interrupted
}

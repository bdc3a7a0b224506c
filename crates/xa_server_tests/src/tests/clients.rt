use std::alloc::Global;
use std::io::{self, Read, Write};
use std::net::{Net, Shutdown, SocketAddr, TcpListener, TcpStream};
use std::time::Duration;

// Clients of a listener, the frames that they send, and those that they get.

/// The frame of an Open.
pub const OPEN: [u8; 15] = [0, 0, 0, 11, 1, 1, 0, 0, 0, 0, 4, 0x78, 0x61, 0x72, 0x6d];

/// The frame of a Status, and the bytes of its reply.
const STATUS: [u8; 6] = [0, 0, 0, 2, 1, 67];

const TOLD: usize = 99;

/// A listener at a port of its own, and where it is reached.
pub fn listening<R: Net<Listener = TcpListener, Stream = TcpStream>>(
    rt: &R,
) -> Option<(TcpListener, SocketAddr)> {
    let listener = TcpListener::bind(rt, "127.0.0.1:0").ok()?;
    let address = listener.local_addr().ok()?;
    listener.set_nonblocking(true).ok()?;
    Some((listener, address))
}

/// A connection that is a session, since it was told how the server is doing, which is no call. A server that doesn't answer
/// fails the test, and doesn't keep it.
pub fn reach<R: Net<Stream = TcpStream>>(rt: &R, address: SocketAddr) -> io::Result<TcpStream> {
    let mut stream = TcpStream::connect(rt, address)?;
    stream.set_read_timeout(Some(Duration::from_secs(30)))?;
    stream.write_all(&STATUS)?;
    let mut told = [0u8; TOLD];
    stream.read_exact(&mut told)?;
    Ok(stream)
}

/// Sends the bytes, and no more.
pub fn send(stream: &mut TcpStream, bytes: &[u8]) -> io::Result<()> {
    stream.write_all(bytes)?;
    stream.shutdown(Shutdown::Write)
}

/// What comes back until the server closes the connection.
pub fn replies(alloc: Global, stream: TcpStream) -> Option<Vec<u8>> {
    let mut stream = stream;
    let mut replies = Vec::new(alloc);
    stream.read_to_end(&mut replies).ok()?;
    Some(replies)
}

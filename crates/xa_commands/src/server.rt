use crate::client::Client;
use crate::stream::Stream;
use crate::unlogged::Unlogged;
use std::fs::Files;
use std::io::{Eprint, ErrorKind, Read};
use std::net::{Net, TcpStream};
use std::os::unix::net::UnixStream;
use std::random::RandomSource;
use std::rt::Env;
use std::time::Duration;
use std::{fmt, io};
use xa_talk::{Connection, Dial};

/// How a server is reached. Its text is what `xarm` prints of it.
#[derive(Clone, Copy, Debug, Drop)]
pub enum Reach<'a> {
    /// At an address, or by a name that has one, and its port.
    Port { host: &'a str, port: u16 },
    /// By its Unix socket at a path.
    Socket(&'a str),
}

impl fmt::Display for Reach<'_> {
    fn fmt<W: fmt::Write>(&self, f: &mut fmt::Formatter<W>) -> fmt::Result {
        match self {
            // An address of IPv6 has colons of its own.
            Reach::Port { host, port } if host.contains(':') => write!(f, "[{host}]:{port}"),
            Reach::Port { host, port } => write!(f, "{host}:{port}"),
            Reach::Socket(path) => write!(f, "{path}"),
        }
    }
}

/// A server, how long it is waited for, and who logs in to it, if anybody does.
#[derive(Drop)]
pub struct Server<'a, 'w, R> {
    rt: &'a R,
    reach: Reach<'w>,
    seconds: u64,
    client: Option<Client<'w>>,
    unreached: Option<io::Error>,
    unlogged: Option<Unlogged<'w>>,
}

impl<'a, 'w, R> Server<'a, 'w, R> {
    /// A server of which each answer is waited for this many seconds at most, or without end if they are 0: an answer of
    /// which no byte comes meanwhile is given up, as a connection that broke.
    ///
    /// With a user, each connection is logged in as that one before it is used. The secret is the first line of the file
    /// that the environment variable `XARM_PASSWORD_FILE` names, which is its owner's alone, and is read once.
    pub fn new(
        rt: &'a R,
        reach: Reach<'w>,
        seconds: u64,
        user: Option<&'w str>,
    ) -> Server<'a, 'w, R> {
        let client = match user {
            Some(user) => Some(Client::new(user)),
            None => None,
        };
        Server {
            rt,
            reach,
            seconds,
            client,
            unreached: None,
            unlogged: None,
        }
    }

    /// How it is reached.
    pub fn reach(&self) -> Reach<'w> {
        self.reach
    }

    /// Why the last connection couldn't be opened, if it couldn't.
    pub fn unreached(&self) -> Option<io::Error> {
        self.unreached
    }

    /// Why the last connection that was opened wasn't logged in, if it was to be, and wasn't.
    pub fn unlogged(&self) -> Option<&Unlogged<'w>> {
        self.unlogged.as_ref()
    }
}

impl<R: Net<Stream = TcpStream>> Server<'_, '_, R> {
    fn connect(&self) -> io::Result<Connection<Stream, Stream>> {
        let connection = self.open()?;
        if self.seconds > 0 {
            // Its reader is the same socket.
            connection
                .writer
                .wait_at_most(Duration::from_secs(self.seconds))?;
        }
        Ok(connection)
    }

    fn open(&self) -> io::Result<Connection<Stream, Stream>> {
        match self.reach {
            Reach::Port { host, port } => {
                let writer = TcpStream::connect(self.rt, (host, port))?;
                // A request is written whole, so it need not wait for more.
                writer.set_nodelay(true)?;
                let reader = Stream::Tcp(writer.try_clone()?);
                Ok(Connection {
                    reader,
                    writer: Stream::Tcp(writer),
                })
            }
            Reach::Socket(path) => {
                let writer = UnixStream::connect(self.rt, path)?;
                let reader = Stream::Unix(writer.try_clone()?);
                Ok(Connection {
                    reader,
                    writer: Stream::Unix(writer),
                })
            }
        }
    }
}

impl<R: AllocGlobal + Env + Eprint + Files + Net<Stream = TcpStream> + RandomSource> Server<
    '_,
    '_,
    R,
> {
    // Logs in over a connection, if anybody is to.
    fn log_in(&mut self, connection: &mut Connection<Stream, Stream>) -> io::Result<()> {
        let Some(client) = &mut self.client else {
            return Ok(());
        };
        match client.log_in(self.rt, self.reach, connection) {
            Ok(()) => Ok(()),
            Err(why) => {
                self.unlogged = Some(why);
                Err(io::Error::from(ErrorKind::PermissionDenied))
            }
        }
    }
}

impl<R: AllocGlobal + Env + Eprint + Files + Net<Stream = TcpStream> + RandomSource> Dial<
    Stream,
    Stream,
> for Server<'_, '_, R> {
    fn dial(&mut self) -> io::Result<Connection<Stream, Stream>> {
        let mut connection = match self.connect() {
            Ok(connection) => connection,
            Err(error) => {
                self.unreached = Some(error);
                return Err(error);
            }
        };
        self.log_in(&mut connection)?;
        Ok(connection)
    }

    fn hang_up(&mut self, connection: Connection<Stream, Stream>) {
        let Connection { mut reader, writer } = connection;
        if writer.end().is_err() {
            return;
        }
        let mut rest = [0u8; 256];
        for _ in 0..MOST_READS {
            match reader.read(&mut rest) {
                Ok(0) | Err(_) => return,
                Ok(_) => {}
            }
        }
    }
}

// How often what still comes is read, before the wait for the server's end is over.
const MOST_READS: u32 = 1_000_000;

impl<R> fmt::Debug for Server<'_, '_, R> {
    fn fmt<W: fmt::Write>(&self, f: &mut fmt::Formatter<W>) -> fmt::Result {
        f.debug_struct("Server")
            .field("reach", &self.reach)
            .field("seconds", &self.seconds)
            .finish_non_exhaustive()
    }
}

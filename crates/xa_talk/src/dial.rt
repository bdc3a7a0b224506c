use std::io;

/// A connection to a server: what comes from it, and what goes to it. It is closed when it is dropped.
#[derive(Debug, Drop)]
pub struct Connection<R, W> {
    pub reader: R,
    pub writer: W,
}

/// What opens connections to one server.
pub trait Dial<R, W> {
    fn dial(&mut self) -> io::Result<Connection<R, W>>;

    /// Sends no more over a connection, and waits until the server has closed it too: by then it has hung the session up.
    fn hang_up(&mut self, connection: Connection<R, W>);
}

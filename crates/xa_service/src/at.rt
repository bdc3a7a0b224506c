/// Where a server listens.
#[derive(Clone, Copy, Debug, Drop)]
pub enum At<'a> {
    /// At an address on a port.
    Port {
        address: &'a str,
        port: u16,
    },
    /// At a path, by a Unix socket.
    Socket(&'a str),
    /// At both.
    Both {
        address: &'a str,
        port: u16,
        path: &'a str,
    },
}

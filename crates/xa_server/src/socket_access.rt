/// Who may connect to a Unix socket.
#[derive(Clone, Copy, Debug, Drop)]
pub struct SocketAccess {
    /// Its permissions, as `chmod` has them.
    pub mode: u32,
    /// The number of its group; None for its owner's own.
    pub group: Option<u32>,
}

/// The content of the frame that asks a server to shut down: the version, the operation, and no field. It is no call,
/// has no place in the history, and no reply: the server closes the connection once it has ended.
pub const SHUTDOWN: [u8; 2] = [1, 69];

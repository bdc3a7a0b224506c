/// The fewest iterations (RFC 7677, 4).
pub const LEAST_ITERATIONS: u32 = 4096;
/// The most iterations: about a second's work, so that no server keeps a client at it for long.
pub const MOST_ITERATIONS: u32 = 1_000_000;
/// The most bytes of a name.
pub const MOST_NAME: usize = 64;
/// The most bytes of a client's nonce, and of a server's part of the nonce.
pub const MOST_NONCE: usize = 64;
/// The most bytes of a salt.
pub const MOST_SALT: usize = 32;
/// The bytes of this server's part of the nonce, which are spelled by 24 characters of Base64.
pub const OWN_BYTES: usize = 18;
/// The most bytes of a message, and of a verifier's text.
pub const MOST_MESSAGE: usize = 256;

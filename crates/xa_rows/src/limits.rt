// The limits, as docs/PROTOCOL.md states them: what is asked at them doesn't use the crates' own constants.

/// The bytes of an Open's text, of each part of an XID, of a key and of a value.
pub const INFO_BYTES: u8 = 255;

pub const PART_BYTES: u8 = 64;

pub const KEY_BYTES: u8 = 64;

pub const VALUE_BYTES: u16 = 16_384;

/// The bytes of a log, at least and at most.
pub const LEAST_LOG_BYTES: u64 = 64;

pub const LOG_BYTES: u64 = 1 << 30;

/// The keys that a branch writes, and the loose associations that it has.
pub const WRITES: u16 = 256;

pub const LOOSE: u16 = 64;

/// The sessions, and the known branches.
pub const SESSIONS: u16 = 1_024;

pub const BRANCHES: u16 = 4_096;

/// The XIDs of a reply.
pub const XIDS: u16 = 256;

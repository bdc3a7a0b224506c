//! The limits and the sizes that several layers must agree on, each written once. `docs/PROTOCOL.md` has them in a
//! list, with what is answered beyond each.
#![tactic(auto)]

ghost use Rattle.std.specs.Prelude.{◌≡◌};
ghost use Rattle.xa_limits.specs.declared.TheConstants.{AROUND_BODY, AROUND_CLOSED, DECIDED_ROOM, FIRST_OFFSET, MOST_SMALL};
ghost use Rattle.xa_limits.specs.declared.TheConstants.{PREPARED_ROOM, XID_BYTES};

// Frames and calls.

/// The most bytes of each of an XID's two parts (C193's MAXGTRIDSIZE and MAXBQUALSIZE).
pub const MOST_PART: usize = 64;
/// The most bytes of an XID: a format number in 4, the lengths of its parts in 1 each, and the parts.
pub const XID_BYTES: usize = 6 + 2 * MOST_PART;
/// The most bytes of the info that an Open gives, and so of the manager's name.
pub const MOST_INFO: usize = 255;
/// The most bytes of a key; it has at least one.
pub const MOST_KEY: usize = 64;
/// The most bytes of a value.
pub const MOST_VALUE: usize = 16_384;
/// The most XIDs that a Recover asks for and is answered.
pub const MOST_XIDS: usize = 256;
/// The most bytes of a frame's content, after its length.
pub const MOST_CONTENT: usize = 65_535;

// A manager.

/// The most sessions that are connected at a time.
pub const MOST_SESSIONS: usize = 1024;
/// The most branches that are known at a time.
pub const MOST_BRANCHES: usize = 4096;
/// The most keys that a branch writes.
pub const MOST_WRITES: usize = 256;
/// The most loose associations of a branch.
pub const MOST_LOOSE: u64 = 64;
/// The most boots of a manager.
pub const MOST_BOOTS: u32 = 4_294_967_295;
/// The greatest boot that a trim begins: those above it are kept for restarts and openings.
pub const MOST_TRIM_BOOTS: u32 = 2_147_483_648;
/// How many timestamps a boot's number makes room for: the n-th of a boot is the boot's number times this, plus n.
pub const BOOT_TIMESTAMPS: u64 = 4_294_967_296;
/// The most timestamps that one boot gives: all that there is room for, but that with n = 0.
pub const MOST_GIVEN: u64 = BOOT_TIMESTAMPS - 1;

// A file of the log.

/// The fewest bytes that a log may be given.
pub const LEAST_LOG: u64 = 64;
/// The most bytes that a log may be given.
pub const MOST_LOG: u64 = 1_073_741_824;
/// The bytes of a format's name, with which a file begins.
pub const FORMAT_BYTES: usize = 8;
/// Where the first record begins, after the name of its format.
pub const FIRST_OFFSET: u64 = FORMAT_BYTES as u64;
/// The bytes of a length: of the one before a body, and of the closing one after the last record, which is 0.
pub const LENGTH_BYTES: usize = 4;
/// The bytes of a digest (SHA-256, FIPS 180-4).
pub const DIGEST_BYTES: usize = 32;
/// How many bytes of a record aren't its body.
pub const AROUND_BODY: usize = LENGTH_BYTES + DIGEST_BYTES;
/// The same, with a closing length after the record.
pub const AROUND_CLOSED: usize = AROUND_BODY + LENGTH_BYTES;
/// The most bytes of a record's body in a file of format 1.
pub const MOST_BODY_OF_ONE: usize = 524_288;
/// The same in one of format 2, the newest.
pub const MOST_BODY: usize = 8_388_608;
/// The most bytes of the body of a record that has no writes: its kind and a direction, in 1 byte each, and an XID.
pub const MOST_SMALL: usize = 2 + XID_BYTES;

// Room that a log keeps, so that what is prepared can be completed, and what the operator completed be forgotten.

/// The room that is kept for an XID that the operator completed: the most bytes of the record that forgets it, which is
/// of a kind, in 1 byte, and an XID.
pub const DECIDED_ROOM: u64 = AROUND_BODY as u64 + 1 + XID_BYTES as u64;
/// The room that is kept for a prepared branch: the most bytes of the record that completes it, which has no writes,
/// and of the one that forgets it.
pub const PREPARED_ROOM: u64 = AROUND_BODY as u64 + MOST_SMALL as u64 + DECIDED_ROOM;

/// The sizes that follow from others, in bytes. Does nothing.
pub fn sizes()
    ensures xid { XID_BYTES ≡ 134 }
    ensures first { FIRST_OFFSET ≡ 8 }
    ensures around { AROUND_BODY ≡ 36 }
    ensures closed { AROUND_CLOSED ≡ 40 }
    ensures small { MOST_SMALL ≡ 136 }
    ensures decided { DECIDED_ROOM ≡ 171 }
    ensures prepared { PREPARED_ROOM ≡ 343 }
{}

//! How far a file is made ready ahead of its log.
ghost use Rattle.std.specs.Prelude.{◌≡◌, ◌+◌, ◌≤◌};
ghost use Rattle.xa_log.specs.{Ahead.ready, declared.ahead.TheConstants.READY_BYTES};

/// Bytes of a piece of the current file. An append that reaches into a new piece writes zeros up to its end in the same
/// write, unless the file is known to reach that far: the appends that follow write over bytes that are there, and a
/// sync of a file that hasn't grown is the faster one. What stands after a log's closing length is no part of it.
pub const READY_BYTES: u64 = 262_144;

// How many zeros go after a record that is written from `from` up to `to`, closing length included, in a file that is
// known to reach up to `known`: those up to the end of the piece that the record reaches into, within `most` bytes of
// file; none if it stays in the piece in which it begins, or the file has these bytes already.
pub(crate) fn ready_behind(from: u64, to: u64, most: u64, known: u64) -> usize
    requires { to ≤ most }
    ensures exact { result ≡ ready from to most known }
    ensures within { to + result ≤ most }
    ensures few { result ≤ READY_BYTES }
{
    let behind = (READY_BYTES - to % READY_BYTES).min(most - to);
    if from / READY_BYTES == to / READY_BYTES || to + behind <= known {
        return 0;
    }
    behind as usize
}

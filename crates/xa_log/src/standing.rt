//! What stands in one of a log's two files, by its first bytes.
ghost use Rattle.std.specs.Prelude.{◌≡◌, ◌≤◌, List, ℕ, length, min, take, IfOk, MatchOption, if◌then◌else◌};
ghost use Rattle.xa_disk.specs.{Disk.Same, Time.TimePasses};
ghost use Rattle.xa_log.specs.Believed.Standing.{InterruptedLaw, is_part_of, is_remnant, standing};
ghost use Rattle.xa_log.specs.declared.standing.Standing.TheVariants.{Nothing, Stray};

use crate::OpenFault;
use crate::format::{Format, PREAMBLE_BYTES};
use xa_disk::{Disk, DiskFault};
use xa_limits::FORMAT_BYTES;

/// What stands in one of a log's two files.
#[derive(Clone, Copy, Debug, PartialEq, Eq)]
pub enum Standing {
    /// No byte, or what an interrupted write of a log's first bytes leaves of an empty file.
    Nothing,
    /// A log.
    Log,
    /// A log of a later format.
    Later,
    /// Anything else.
    Stray,
}

// What stands in a file of this length, of which only the first bytes are read.
pub(crate) fn standing_of<D: Disk>(disk: &mut D, len: u64) -> Result<Standing, DiskFault>
    ensures value { D.honest → len ≡ length (D.seen disk.old) → IfOk result (λ s. s ≡ standing (D.seen disk.old)) }
    ensures same { D.honest → D.seen disk.new ≡ D.seen disk.old }
    ensures time { D.honest → TimePasses D.Disk Same disk.old disk.new }
{
    if len == 0 {
        return Ok(Standing::Nothing);
    }
    let mut bytes = [0; PREAMBLE_BYTES];
    let front = &mut bytes[..len.min(PREAMBLE_BYTES as u64) as usize];
    disk.read_at(0, front)?;
    Ok(standing_by(front, len))
}

// What stands in a file of this length that begins like this.
fn standing_by(front: &[u8], len: u64) -> Standing
    requires { length front.now ≡ min len PREAMBLE_BYTES }
    ensures { (file : List ℕ) → len ≡ length file → front.now ≡ take PREAMBLE_BYTES file → result ≡ standing file }
{
    match named_by(front) {
        Some(standing) => standing,
        None => {
            if is_remnant(front, len) {
                Standing::Nothing
            } else {
                Standing::Stray
            }
        }
    }
}

// What a file that begins like this is, by its name, if that is a format's, or a later one's.
fn named_by(front: &[u8]) -> Option<Standing>
    ensures { (file : List ℕ) → front.now ≡ take PREAMBLE_BYTES file
        → MatchOption result (standing file ≡ (if is_remnant file then Nothing else Stray)) (λ s. s ≡ standing file) }
{
    if front.len() < FORMAT_BYTES {
        return None;
    }
    match Format::of(&front[..FORMAT_BYTES]) {
        Ok(_) => Some(Standing::Log),
        Err(OpenFault::TooNew) => Some(Standing::Later),
        Err(_) => None,
    }
}

// Whether an interrupted write of a log's first bytes may leave a file of this length of an empty one, if it begins so.
fn is_remnant(front: &[u8], len: u64) -> bool
    requires { length front.now ≡ min len PREAMBLE_BYTES }
    ensures { (file : List ℕ) → len ≡ length file → front.now ≡ take PREAMBLE_BYTES file → result ≡ is_remnant file }
{
    len <= PREAMBLE_BYTES as u64
        && (is_part(front, &Format::One.preamble()) || is_part(front, &Format::Two.preamble()))
}

// Whether each byte is the one at its place of those that should have been written, or 0.
fn is_part(front: &[u8], written: &[u8]) -> bool
    requires { length front.now ≤ length written.now }
    ensures { result ≡ is_part_of written.now front.now }
{
    for at in 0..front.len() {
        if front[at] != 0 && front[at] != written[at] {
            return false;
        }
    }
    true
}

/// What an interrupted write of a log's first bytes leaves of an empty file is no stray, and of a log a log, if each
/// byte is the one that stood there or the one that was written.
pub fn interrupted_is_no_stray()
    ensures { InterruptedLaw }
{}

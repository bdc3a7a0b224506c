//! Whether two files may be one log's.
ghost use Rattle.std.specs.Prelude.{◌≡◌, ◌⊎◌, List, ℕ, false, length, IfErr, IfOk};
ghost use Rattle.xa_disk.specs.{Disk.Same, Time.TimePasses};
ghost use Rattle.xa_log.specs.Believed.Unfit.{FitLaw, MissingLaw, StaysFitLaw, generation_in, unfit_by, unfit_of};
ghost use Rattle.xa_log.specs.Believed.Standing.{standing};

use crate::OpenFault;
use crate::heads::{head_of, number_in_first};
use crate::looking::front_of;
use crate::opening::new_buffer;
use crate::standing::{Standing, standing_of};
use crate::window::WINDOW;
use std::alloc::Global;
use xa_disk::Disk;

/// Which of two files isn't one of a log's, and why.
#[derive(Clone, Copy, Debug, PartialEq, Eq)]
pub enum Unfit {
    Neither,
    /// The other one is a log, and this one is empty, or only what an interrupted write of a log's first bytes leaves.
    MissingFirst,
    MissingSecond,
    /// Something stands there that is no log.
    StrayFirst,
    StraySecond,
}

/// Which of two files isn't one of a log's: is missing beside the other one, or has something else in it, over which an
/// opening would write. `Neither` if they may be one log's, or an opening refuses them anyway: as too long, or as too
/// new. Asks both lengths, reads the first bytes of each, and the first one's first record if the second one is empty.
pub fn unfit_file<D: Disk>(
    alloc: Global,
    first: &mut D,
    second: &mut D,
    log_bytes: u64,
) -> Result<Unfit, OpenFault>
    ensures value { D.honest
        → IfOk result (λ unfit. unfit ≡ unfit_of log_bytes (D.seen first.old) (D.seen second.old)) }
    ensures kinds { IfErr result (λ e. (e ≡ OpenFault.Device) ⊎ (e ≡ OpenFault.Memory)) }
    ensures same { D.honest → D.seen first.new ≡ D.seen first.old }
    ensures same_second { D.honest → D.seen second.new ≡ D.seen second.old }
    ensures time { D.honest → TimePasses D.Disk Same first.old first.new }
    ensures time_second { D.honest → TimePasses D.Disk Same second.old second.new }
{
    let len = first.length()?;
    let other_len = second.length()?;
    if len > log_bytes || other_len > log_bytes {
        return Ok(Unfit::Neither);
    }
    unfit_beside(alloc, first, second, len, other_len)
}

// The same of two files of these lengths, neither of which is too long.
fn unfit_beside<D: Disk>(
    alloc: Global,
    first: &mut D,
    second: &mut D,
    len: u64,
    other_len: u64,
) -> Result<Unfit, OpenFault>
    ensures value { D.honest → len ≡ length (D.seen first.old) → other_len ≡ length (D.seen second.old)
        → IfOk result (λ unfit. unfit
        ≡ unfit_by (standing (D.seen first.old)) (standing (D.seen second.old)) (generation_in (D.seen first.old))) }
    ensures kinds { IfErr result (λ e. (e ≡ OpenFault.Device) ⊎ (e ≡ OpenFault.Memory)) }
    ensures same { D.honest → D.seen first.new ≡ D.seen first.old }
    ensures same_second { D.honest → D.seen second.new ≡ D.seen second.old }
    ensures time { D.honest → TimePasses D.Disk Same first.old first.new }
    ensures time_second { D.honest → TimePasses D.Disk Same second.old second.new }
{
    let standing = standing_of(first, len)?;
    let other = standing_of(second, other_len)?;
    let number = number_beside(alloc, first, len, standing, other)?;
    Ok(unfit_by(standing, other, number))
}

// The first file's generation, if it decides which one is unfit by what stands in both.
fn number_beside<D: Disk>(
    alloc: Global,
    disk: &mut D,
    len: u64,
    standing: Standing,
    other: Standing,
) -> Result<usize, OpenFault>
    ensures value { D.honest → len ≡ length (D.seen disk.old)
        → IfOk result (λ number. unfit_by standing other number ≡ unfit_by standing other (generation_in (D.seen disk.old))) }
    ensures kinds { IfErr result (λ e. (e ≡ OpenFault.Device) ⊎ (e ≡ OpenFault.Memory)) }
    ensures same { D.honest → D.seen disk.new ≡ D.seen disk.old }
    ensures time { D.honest → TimePasses D.Disk Same disk.old disk.new }
{
    if is_numbered(standing, other) {
        return generation_of(alloc, disk, len);
    }
    Ok(0)
}

// Whether the first file's generation decides.
fn is_numbered(standing: Standing, other: Standing) -> bool
    ensures { (m n : ℕ) → result ≡ false → unfit_by standing other m ≡ unfit_by standing other n }
{
    matches!((standing, other), (Standing::Log, Standing::Nothing))
}

// Which file is unfit, by what stands in both, and the first one's generation if it decides.
fn unfit_by(standing: Standing, other: Standing, number: usize) -> Unfit
    ensures { result ≡ unfit_by standing other number }
{
    match (standing, other) {
        (Standing::Later, _) | (_, Standing::Later) => Unfit::Neither,
        (Standing::Stray, _) => Unfit::StrayFirst,
        (_, Standing::Stray) => Unfit::StraySecond,
        (Standing::Nothing, Standing::Log) => Unfit::MissingFirst,
        (Standing::Log, Standing::Nothing) if number > 1 => Unfit::MissingSecond,
        _ => Unfit::Neither,
    }
}

// The generation of the log that a file of this length is, 0 if it is none.
fn generation_of<D: Disk>(alloc: Global, disk: &mut D, len: u64) -> Result<usize, OpenFault>
    ensures value { D.honest → len ≡ length (D.seen disk.old)
        → IfOk result (λ number. number ≡ generation_in (D.seen disk.old)) }
    ensures kinds { IfErr result (λ e. (e ≡ OpenFault.Device) ⊎ (e ≡ OpenFault.Memory)) }
    ensures same { D.honest → D.seen disk.new ≡ D.seen disk.old }
    ensures time { D.honest → TimePasses D.Disk Same disk.old disk.new }
{
    let mut window = new_buffer(alloc, WINDOW)?;
    let front = front_of(disk, &mut window, len)?;
    match head_of(alloc, disk, &mut window, front, len)? {
        Some(head) => Ok(number_in_first(&head.first)),
        None => Ok(0),
    }
}

/// Two files that fit, and that an opening doesn't refuse, are none of which one is no log and yet has records that come
/// before the other one's. So a torn write of its first bytes can't make it the current one.
pub fn fit_has_no_stray()
    ensures { FitLaw }
{}

/// Two files that fit still do when the first write of a checkpoint was interrupted, if each byte is the one that stood
/// there or the one that was written.
pub fn interrupted_stays_fit()
    ensures { StaysFitLaw }
{}

/// Two files that fit, and that an opening doesn't refuse, are none of which one is missing beside the other.
pub fn fit_has_none_missing()
    ensures { MissingLaw }
{}

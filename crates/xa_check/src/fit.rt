//! What two files are together.
ghost use Rattle.std.specs.Prelude.{◌≡◌};
ghost use Rattle.xa_check.specs.Fit.{comes_before, is_first, is_log, is_second, is_sound, is_whole, unfit_told};

use crate::told::{LogTold, Told};
use xa_log::Unfit;

/// Whether the first of two files is the current one.
pub(crate) fn is_first(first: &Told, second: &Told) -> bool
    ensures { result ≡ is_first first.now second.now }
{
    match (first, second) {
        (Told::Log(mine), Told::Log(other)) => comes_before(mine, other),
        (Told::Log(_), Told::Nothing | Told::Stray) => true,
        _ => false,
    }
}

/// Whether the second one is.
pub(crate) fn is_second(first: &Told, second: &Told) -> bool
    ensures { result ≡ is_second first.now second.now }
{
    match (first, second) {
        (Told::Log(other), Told::Log(mine)) => !comes_before(other, mine),
        (Told::Nothing | Told::Stray, Told::Log(_)) => true,
        _ => false,
    }
}

/// Whether the first file's log takes precedence over the second one's.
fn comes_before(mine: &LogTold, other: &LogTold) -> bool
    ensures { result ≡ comes_before mine.now other.now }
{
    other.generation < mine.generation
        || (other.generation == mine.generation && (other.records == 0 || mine.records != 0))
}

/// Which of two files isn't one of a log's.
pub(crate) fn unfit(first: &Told, second: &Told) -> Unfit
    ensures { result ≡ unfit_told first.now second.now }
{
    match (first, second) {
        (Told::Later | Told::TooLong, _) | (_, Told::Later | Told::TooLong) => Unfit::Neither,
        (Told::Stray, _) => Unfit::StrayFirst,
        (_, Told::Stray) => Unfit::StraySecond,
        (Told::Nothing, Told::Log(_)) => Unfit::MissingFirst,
        (Told::Log(log), Told::Nothing) if log.generation > 1 => Unfit::MissingSecond,
        _ => Unfit::Neither,
    }
}

/// Whether a server opens the log that two files have.
pub(crate) fn is_whole(first: &Told, second: &Told) -> bool
    ensures { result ≡ is_whole first.now second.now }
{
    (is_log(first) || is_log(second))
        && is_sound(first)
        && is_sound(second)
        && unfit(first, second) == Unfit::Neither
}

fn is_log(told: &Told) -> bool
    ensures { result ≡ is_log told.now }
{
    matches!(told, Told::Log(_))
}

/// Whether a file is a log that isn't damaged, or nothing.
fn is_sound(told: &Told) -> bool
    ensures { result ≡ is_sound told.now }
{
    match told {
        Told::Log(log) => log.damage.is_none(),
        Told::Nothing => true,
        Told::Stray | Told::Later | Told::TooLong => false,
    }
}

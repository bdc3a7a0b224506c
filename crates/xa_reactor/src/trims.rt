//! When the log is trimmed, by where it ends. Times are in milliseconds, as a loop's clock has them.
ghost use Rattle.std.specs.Prelude.{◌≡◌, ◌&&◌};
ghost use Rattle.xa_reactor.specs.Trims.{after_look, after_trim, bound_of, has_grown, is_due, is_news, is_quick, is_to_trim, may_try, new_trims};
ghost use Rattle.xa_reactor.specs.Trims.{refused_by};

use crate::common::Settings;

/// For how long a trim that was refused isn't tried again, unless the log grows by a quarter, and no other one is told.
pub(crate) const REST: u64 = 60_000;

/// By how much a log has grown that is trimmed as the server ends.
const GROWN: u64 = 1_048_576;

/// The most bytes of a log that is trimmed as the server ends: it takes less than a second.
const QUICK: u64 = 67_108_864;

/// Above which end a log may be trimmed: what was asked for, if that is at most half of its greatest size, so that much
/// comes before the log is full; else a quarter of that.
pub(crate) fn bound_of(asked: u64, log_bytes: u64) -> u64
    ensures { result ≡ bound_of asked log_bytes }
{
    if log_bytes / 2 < asked {
        log_bytes / 4
    } else {
        asked
    }
}

/// Whether a trim is due of a log that ends there, by the end that the last snapshot left: above the bound, and at least
/// four times as far, or if half of what that snapshot left free is used up.
pub(crate) fn is_due(end: u64, base: u64, bound: u64, log_bytes: u64) -> bool
    ensures { result ≡ is_due end base bound log_bytes }
{
    bound < end
        && (base <= end / 4 || log_bytes.saturating_sub(base) / 2 <= end.saturating_sub(base))
}

// Whether a trim of a log that ends there is quick.
fn is_quick(end: u64) -> bool
    ensures { result ≡ is_quick end }
{
    end <= QUICK
}

/// A trim that was refused: when, and where the log ended.
#[derive(Clone, Copy, Debug)]
pub(crate) struct Refused {
    at: u64,
    end: u64,
}

// Whether one is tried: none was refused since the last one that was made, or that was long ago, or the log grew since.
fn may_try(refused: Option<Refused>, now: u64, end: u64) -> bool
    ensures { result ≡ may_try refused now end }
{
    match refused {
        Some(refused) => {
            REST <= now.saturating_sub(refused.at)
                || refused.end / 4 <= end.saturating_sub(refused.end)
        }
        None => true,
    }
}

// Whether a refusal is to be told, by when one was told last.
fn is_news(told: Option<u64>, now: u64) -> bool
    ensures { result ≡ is_news told now }
{
    match told {
        Some(told) => REST <= now.saturating_sub(told),
        None => true,
    }
}

/// What the loops know of the log's trims.
#[derive(Clone, Copy, Debug)]
pub(crate) struct Trims {
    /// The end that the last snapshot left, as far as is known.
    base: u64,
    /// The last trim, if it was refused.
    refused: Option<Refused>,
    /// When a refusal was told last.
    told: Option<u64>,
}

impl Trims {
    /// Before the first look.
    pub(crate) fn new() -> Trims
        ensures { result ≡ new_trims }
    {
        Trims {
            base: u64::MAX,
            refused: None,
            told: None,
        }
    }

    /// The log was seen to end there. Where that is below the last snapshot's end, another one was made since.
    pub(crate) fn look(&mut self, end: u64)
        ensures { self.new ≡ after_look self.old end }
    {
        self.base = self.base.min(end);
    }

    /// Whether the log, which ends there, is to be trimmed now.
    pub(crate) fn is_to_trim(&self, settings: &Settings, now: u64, end: u64) -> bool
        ensures { result ≡ is_to_trim self.now settings.now now end }
    {
        let bound = bound_of(settings.trim_bytes, settings.log_bytes);
        settings.trim_bytes > 0
            && is_due(end, self.base, bound, settings.log_bytes)
            && may_try(self.refused, now, end)
    }

    /// Whether the log, which ends there, is to be trimmed as the server ends.
    pub(crate) fn is_to_trim_last(&self, end: u64) -> bool
        ensures { result ≡ (is_quick end && has_grown self.now end) }
    {
        is_quick(end) && self.has_grown(end)
    }

    // Whether the log, which ends there, has grown by so much since the last snapshot that a start is shorter after another
    // one; not if a trim was refused since.
    fn has_grown(&self, end: u64) -> bool
        ensures { result ≡ has_grown self.now end }
    {
        self.refused.is_none() && GROWN <= end.saturating_sub(self.base)
    }

    /// The log was trimmed to this end.
    pub(crate) fn finish(&mut self, end: u64)
        ensures { self.new ≡ after_trim self.old end }
    {
        self.base = end;
        self.refused = None;
    }

    /// A trim was refused, when the log ended there. Whether that is to be told.
    pub(crate) fn refuse(&mut self, now: u64, end: u64) -> bool
        ensures told { result ≡ is_news self.old.told now }
        ensures refused { self.new ≡ refused_by self.old now end }
    {
        let is_news = is_news(self.told, now);
        self.refused = Some(Refused { at: now, end });
        if is_news {
            self.told = Some(now);
        }
        is_news
    }
}

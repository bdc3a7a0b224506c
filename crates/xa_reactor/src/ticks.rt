//! When the loops tell the manager the time.
ghost use Rattle.std.specs.Prelude.{◌≡◌, not};
ghost use Rattle.xa_reactor.specs.Ticks.{after_tick, is_due, new_ticks, refused_by};

/// What the loops know of the moments that they told. A moment is in seconds since 1970.
#[derive(Clone, Copy, Debug)]
pub(crate) struct Ticks {
    /// The last one that was taken.
    told: Option<u64>,
    /// Whether one was refused since.
    is_refused: bool,
}

impl Ticks {
    /// None was told.
    pub(crate) fn new() -> Ticks
        ensures { result ≡ new_ticks }
    {
        Ticks {
            told: None,
            is_refused: false,
        }
    }

    /// Whether this moment is to be told: this many seconds have passed, or the clock went back.
    pub(crate) fn is_due(&self, moment: u64, seconds: u64) -> bool
        ensures { result ≡ is_due self.now moment seconds }
    {
        match self.told {
            Some(told) => moment < told || seconds <= moment - told,
            None => true,
        }
    }

    /// A moment was taken.
    pub(crate) fn finish(&mut self, moment: u64)
        ensures { self.new ≡ after_tick moment }
    {
        self.told = Some(moment);
        self.is_refused = false;
    }

    /// A moment was refused. Whether that is to be told: the first one is.
    pub(crate) fn refuse(&mut self) -> bool
        ensures told { result ≡ not self.old.is_refused }
        ensures refused { self.new ≡ refused_by self.old }
    {
        let is_news = !self.is_refused;
        self.is_refused = true;
        is_news
    }
}

ghost use Rattle.std.specs.Prelude.{◌≡◌, nat_le};
ghost use Rattle.xa_reactor.specs.Believed.Down.{after_told, is_downs, last_of, unseen};

use crate::cause::News;

/// What is known of whether the manager is up, by the replies to calls that tell of it: by the one of them that stands last
/// in the history.
#[derive(Clone, Copy, Debug, PartialEq, Eq)]
pub struct Seen {
    /// Where that stands, or 0.
    place: u64,
    is_down: bool,
}

impl Seen {
    /// Of a manager that is up nothing was seen.
    pub fn new() -> Seen
        ensures { result ≡ unseen }
    {
        Seen {
            place: 0,
            is_down: false,
        }
    }

    /// A reply that stands there told so. Whether it is the last one that did.
    pub(crate) fn take(&mut self, place: u64, news: News) -> bool
        ensures seen { self.new ≡ after_told self.old place (Some (is_downs news)) }
        ensures last { result ≡ nat_le self.old.place place }
    {
        if place < self.place {
            return false;
        }
        self.place = place;
        self.is_down = matches!(news, News::Down(_));
        true
    }

    /// What two know together.
    pub fn with(self, other: Seen) -> Seen
        ensures { result ≡ last_of self other }
    {
        if self.place <= other.place {
            other
        } else {
            self
        }
    }

    /// Whether it went down last.
    pub fn is_down(self) -> bool
        ensures { result ≡ self.is_down }
    {
        self.is_down
    }
}

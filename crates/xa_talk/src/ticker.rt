use xa_frame::Reply;

/// What a server is told the moments by: a clock, and whoever is told that the server refused one.
pub trait Ticker {
    ghost use Rattle.std.specs.Prelude.{ℕ, Option};
    ghost use Rattle.xa_frame.specs.declared.reply.Reply.{Reply};

    /// Between one and the other the next moment was due, and the clock gave it, or couldn't be read.
    ghost gives: { Self → Option ℕ → Self → Type 0 };

    /// Between one and the other a refusal was told.
    ghost tells: { Self → Reply → Self → Type 0 };

    /// Waits until the next moment is due, and gives it, in seconds, if the clock can be read.
    fn next_moment(&mut self) -> Option<u64>
        ensures { gives self.old result self.new };

    /// Tells that the server refused a moment so.
    fn tell(&mut self, refusal: &Reply)
        ensures { tells self.old refusal.now self.new };
}

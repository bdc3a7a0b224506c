//! Whether one of the two files of a log that was read is missing.
ghost use Rattle.std.specs.Prelude.{◌≡◌, List, ℕ};
ghost use Rattle.xa_log.specs.{Believed.Unfit.missing_of, Opened.WasFound};

use crate::generation::generation_of_bodies;
use crate::opened::Opened;
use crate::unfit::Unfit;

impl Opened {
    /// Which of the two files is empty, if the other one's log shows that it wasn't: a log is made in the first file, and
    /// its second generation goes to the second one. No file is read for it.
    pub fn missing(&self) -> Unfit
        ensures { (first second : List ℕ) → WasFound first second self.now → result ≡ missing_of first second }
    {
        if !self.on_first {
            if self.len == 0 {
                return Unfit::MissingFirst;
            }
            return Unfit::Neither;
        }
        if self.second_len > 0 {
            return Unfit::Neither;
        }
        if generation_of_bodies(&self.scan.bodies) > 1 {
            return Unfit::MissingSecond;
        }
        Unfit::Neither
    }
}

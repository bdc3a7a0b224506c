ghost use Rattle.std.specs.Prelude.{◌≡◌};
ghost use Rattle.xa_model.specs.Invariants.LowWater.{low_water};
ghost use Rattle.xa_branch.specs.Follows.{InSound};

use crate::branches::Branches;
use xa_limits::BOOT_TIMESTAMPS;

/// Below which timestamps nobody works.
impl Branches {
    /// The least timestamp of the branches that are at work or prepared; if there are none, the last that this boot
    /// gave, or before its first the boot's number times 2^32. Branches that the operator completed don't count. No
    /// later branch has a timestamp that is less, and as branches are completed this only rises. Takes no memory.
    pub fn low_water(&self) -> u64
        ensures { InSound self.now (λ s. result ≡ low_water s) }
    {
        match self.times.first() {
            Some(least) => *least,
            None => (u64::from(self.boot) * BOOT_TIMESTAMPS).saturating_add(self.given),
        }
    }
}

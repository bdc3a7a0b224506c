ghost use Rattle.xa_recovery.specs.Log.{BeginsWithBoot};

/// A log begins with a boot, and the last that was logged isn't below it.
pub fn begins_with_boot()
    ensures { BeginsWithBoot }
{}

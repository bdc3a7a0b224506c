//! What is promised of what a server served.
ghost use Rattle.xa_server.specs.Believed.{Audits.AuditedPromises, Loops.LoopedPromises, Moments.MomentPromises};

use xa_disk::Disk;

/// What loops served of a manager that was opened on a log is a legal history of an opening state. Its committed branches are
/// one copy, and what was answered as prepared is listed until its completion is asked for. After a Restart it is so under the
/// manager's premises.
pub fn looped_promises<D: Disk>()
    ensures { LoopedPromises D.Disk }
{}

/// The same of what loops served with an audit.
pub fn audited_promises<D: Disk>()
    ensures { AuditedPromises D.Disk }
{}

/// The same at each moment, as [`xa_handles::SharedSequencer::look`] has it of the share of each loop: also of a server that
/// doesn't come to an end, or by a signal.
pub fn serves_at_each_moment<D: Disk>()
    ensures { MomentPromises D.Disk }
{}

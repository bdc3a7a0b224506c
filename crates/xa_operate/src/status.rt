ghost use Rattle.std.specs.Prelude.{◌≡◌};
ghost use Rattle.xa_operate.specs.Courses.{status_of};

use crate::fault::OperateFault;

/// The program's status by a task's end: 0 where it is done, 1 where the server refused it or it wasn't asked for, 3 where
/// that isn't known.
pub fn operate_status(end: &Result<(), OperateFault>) -> u8
    ensures { result ≡ status_of end.now }
{
    match end {
        Ok(()) => 0,
        Err(OperateFault::Refused(..) | OperateFault::Declined) => 1,
        Err(OperateFault::Talk(_)) => 3,
    }
}

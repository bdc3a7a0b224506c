ghost use Rattle.std.specs.IoError.{error_kind};
ghost use Rattle.std.specs.Prelude.{◌≡◌, ◌≢◌, ◌≤◌, ◌⊎◌, IfErr, IfOk, IfSome, IsErrOf, OnErr, OnOk, length};
ghost use Rattle.xa_play.specs.{Plays.IsTooLong, declared.script.TheConstants.MOST_SCRIPT};

use crate::fault::PlayFault;
use std::alloc::Global;
use std::io::{self, Error, ErrorKind, Read};

/// The most bytes that a script has.
pub const MOST_SCRIPT: u64 = 16_777_216;

/// All that the reader gives, if it isn't too long.
pub fn read_script<R: Read + Drop>(alloc: Global, reader: &mut R) -> Result<Vec<u8>, PlayFault>
    ensures all { IfOk result (λ script. IfSome (R.remaining reader.old) (λ bytes. script.items ≡ bytes)) }
    ensures faults { IfErr result (λ fault. (fault ≡ PlayFault.Memory) ⊎ (fault ≡ PlayFault.Read)
        ⊎ (fault ≡ PlayFault.TooLong)) }
    ensures limit { IfOk result (λ script. length script.items ≤ MOST_SCRIPT) }
    ensures too_long { IsErrOf result PlayFault.TooLong → IfSome (R.remaining reader.old) IsTooLong }
{
    let mut script = Vec::new(alloc);
    let read = reader.take(MOST_SCRIPT + 1).read_to_end(&mut script);
    script_of(read, script)
}

/// What a reading comes to, by what the reader answered and the bytes that it gave.
fn script_of(read: io::Result<usize>, script: Vec<u8>) -> Result<Vec<u8>, PlayFault>
    ensures memory { IfErr read (λ error. error_kind error ≡ ErrorKind.OutOfMemory
        → IsErrOf result PlayFault.Memory) }
    ensures failed { IfErr read (λ error. error_kind error ≢ ErrorKind.OutOfMemory
        → IsErrOf result PlayFault.Read) }
    ensures faults { OnErr read (IsErrOf result PlayFault.Memory ⊎ IsErrOf result PlayFault.Read) }
    ensures too_long { OnOk read (IsTooLong script.items → IsErrOf result PlayFault.TooLong) }
    ensures whole { OnOk read (length script.items ≤ MOST_SCRIPT → result ≡ Ok script) }
{
    match read {
        Err(error) => Err(read_fault(&error)),
        Ok(_) if script.len() as u64 > MOST_SCRIPT => Err(PlayFault::TooLong),
        Ok(_) => Ok(script),
    }
}

/// What a reading that failed comes to, by the kind of its error.
fn read_fault(error: &Error) -> PlayFault
    ensures memory { error_kind error.now ≡ ErrorKind.OutOfMemory → result ≡ PlayFault.Memory }
    ensures failed { error_kind error.now ≢ ErrorKind.OutOfMemory → result ≡ PlayFault.Read }
    ensures faults { (result ≡ PlayFault.Memory) ⊎ (result ≡ PlayFault.Read) }
{
    match error.kind() {
        ErrorKind::OutOfMemory => PlayFault::Memory,
        _ => PlayFault::Read,
    }
}

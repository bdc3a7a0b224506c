ghost use Rattle.std.specs.Prelude.{◌⊎◌, IsErrOf};
ghost use Rattle.xa_commands.specs.Done.{HasPlayed};
ghost use Rattle.xa_manager.specs.Believed.Opening.{IsBadSetting};

use crate::mistakes::Mistakes;
use std::io::{self, BufWriter};
use xa_manager::Settings;
use xa_play::{PlayFault, play_run};

/// Plays standard input, on a manager by this name, each of whose log's two files may reach this size. Of a line that asks
/// nothing it is told on standard error what is wrong.
pub fn play<R: AllocGlobal + Input + Print + Eprint>(
    rt: &R,
    name: &str,
    log_bytes: u64,
) -> Result<(), PlayFault>
    ensures setting { IsErrOf result PlayFault.Setting → IsBadSetting name.now log_bytes }
    ensures bad { IsBadSetting name.now log_bytes
        → IsErrOf result PlayFault.Setting ⊎ IsErrOf result PlayFault.Memory }
    ensures played { IsErrOf result PlayFault.Memory ⊎ HasPlayed R.Reader.remaining name.now log_bytes result }
{
    let settings = Settings::new(rt.alloc(), name, log_bytes)?;
    let Ok(mut writer) = BufWriter::new(rt.alloc(), io::writer(rt)) else {
        return Err(PlayFault::Memory);
    };
    let mut reader = rt.reader();
    let mut mistakes = Mistakes {
        rt,
        has_disks: true,
        is_typed: false,
    };
    play_run(
        rt.alloc(),
        &mut reader,
        &mut writer,
        &mut mistakes,
        settings,
    )
}

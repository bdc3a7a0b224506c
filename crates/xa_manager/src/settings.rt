use std::alloc::{AllocError, Global};
use xa_codes::Bytes;

/// How a manager is set up: its name, of at most `MOST_INFO` bytes, which an Open has to give, and the size that its
/// log may reach, of `LEAST_LOG` to `MOST_LOG` bytes.
#[derive(Debug, Drop)]
pub struct Settings {
    pub name: Bytes,
    pub log_bytes: u64,
}

impl Settings {
    ghost use Rattle.std.specs.Prelude.{◌≡◌, IfOk};

    /// The settings of a manager of this name, whose log may reach this size. Whether they are within the limits
    /// is checked when a manager is opened.
    pub fn new(alloc: Global, name: &str, log_bytes: u64) -> Result<Settings, AllocError>
        ensures name { IfOk result (λ settings. settings.name ≡ name.now) }
        ensures log_bytes { IfOk result (λ settings. settings.log_bytes ≡ log_bytes) }
    {
        let name = Bytes::from_slice(alloc, name.as_bytes())?;
        Ok(Settings { name, log_bytes })
    }
}

use std::alloc::Global;
use std::path::PathBuf;
use std::{env, process};

/// A path in the directory for temporary files that is this process's alone.
pub fn path_of(rt: &HostRuntime, what: &str) -> Option<PathBuf<Global>> {
    let name = format!(in rt.alloc(); "{what}-{}", process::id(rt.process())).ok()?;
    env::temp_dir(rt).ok()?.join(rt.alloc(), name.as_str()).ok()
}

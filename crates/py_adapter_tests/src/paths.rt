//! Paths of this run's own.
use std::path::PathBuf;
use std::{env, process};

/// A path in the folder for what is temporary, which no other run has. None where there is no such folder, or no memory.
pub(crate) fn temporary(rt: &HostRuntime, name: &str) -> Option<PathBuf> {
    let alloc = rt.alloc();
    let number = process::id(rt.process());
    let name = format!(in alloc; "py_adapter_tests-{name}-{number}").ok()?;
    let folder = env::temp_dir(rt).ok()?;
    folder.join(alloc, name.as_str()).ok()
}

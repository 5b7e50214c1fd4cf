//! Tells how far files are read.

use system_files::Watch;

/// Tells on standard error how far files are read.
#[derive(Clone, Copy)]
pub(crate) struct Shown {
    rt: HostRuntime,
}

impl Shown {
    /// It tells by this runtime.
    pub(crate) fn new(rt: HostRuntime) -> Shown {
        Shown { rt }
    }
}

impl Watch for Shown {
    fn reads(&self, path: &str, at: u64, size: u64) {
        let _ = eprintln!(self.rt; "reads {path}: {at} of {size} bytes");
    }
}

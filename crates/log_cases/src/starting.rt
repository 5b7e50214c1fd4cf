//! Logs that check themselves, which are started.

use crate::frail::Frail;
use crate::opening::open;
use crate::slots::Slots;
use checked_disk::{Beside, CheckedDisk, Found, RecoverFault, RecoverWhy};
use checked_log::{Link, Recovered, digest_of, read_marks};
use std::alloc::Global;
use table_log::{OpenFault, OpenWhy, Opened};
use table_schema::TableSpec;

/// A disk that checks itself, in memory.
pub type Checked = CheckedDisk<Beside<Frail, Slots>>;

/// The files of a log and its mark.
#[derive(Drop)]
pub struct Files {
    pub log: Frail,
    pub mark: Slots,
}

/// A log that was started, and what was found of it.
#[derive(Drop)]
pub struct Started {
    pub opened: Opened<Checked>,
    pub recovered: Recovered,
}

/// Why a log is not started.
#[derive(Clone, Copy, PartialEq, Eq)]
pub enum Why {
    Recover(RecoverWhy),
    Open(OpenWhy),
}

/// The files of a log that was not started.
#[derive(Drop)]
pub struct Unstarted {
    pub files: Files,
    pub why: Why,
}

impl Why {
    /// Whether memory was refused.
    pub fn is_memory(self) -> bool {
        self == Why::Recover(RecoverWhy::Memory) || self == Why::Open(OpenWhy::Memory)
    }
}

/// What a table's log begins behind.
pub fn base_of(spec: &TableSpec) -> Link {
    Link {
        number: 0,
        digest: digest_of(spec.name().as_bytes()),
    }
}

/// The files of a disk.
pub fn files_of(disk: Checked) -> Files {
    let Beside { log, mark } = disk.into_files();
    Files { log, mark }
}

/// Recovers a table's log from its files, loads it and settles it.
pub fn start(alloc: Global, spec: &TableSpec, files: Files) -> Result<Started, Unstarted> {
    let Files { log, mark } = files;
    let size = log.state.bytes.len() as u64;
    let marks = read_marks(&mark.bytes);
    let files = Beside { log, mark };
    let found = match CheckedDisk::recover(alloc, files, size, base_of(spec), marks) {
        Ok(found) => found,
        Err(fault) => {
            let RecoverFault { files, why } = fault;
            let Beside { log, mark } = files;
            return Err(Unstarted {
                files: Files { log, mark },
                why: Why::Recover(why),
            });
        }
    };
    let Found { disk, recovered } = found;
    match open(alloc, spec, disk) {
        Ok(opened) => Ok(Started { opened, recovered }),
        Err(fault) => {
            let OpenFault { disk, why } = fault;
            Err(Unstarted {
                files: files_of(disk),
                why: Why::Open(why),
            })
        }
    }
}

//! Logs that are opened.

use std::alloc::Global;
use table_log::{Disk, LoggedTable, OpenFault, Opened};
use table_schema::TableSpec;

/// Reads a disk's log into an empty table of this declaration, and settles it.
pub fn open<D: Disk>(alloc: Global, spec: &TableSpec, disk: D) -> Result<Opened<D>, OpenFault<D>> {
    match LoggedTable::load(alloc, spec, disk) {
        Ok(loaded) => loaded.settle(),
        Err(fault) => Err(fault),
    }
}

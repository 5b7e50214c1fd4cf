//! Writes the states of a folder's tables, with an empty log behind each.

use crate::fault::Fault;
use crate::files::{files_of, told};
use crate::logs::{OpenLog, tell_left};
use system_files::SystemFolder;

/// Writes the state of each table, with an empty log behind it. Where that fails, the state and log before are still there, and the
/// tables that come before in the schema have their new ones.
pub(crate) fn compact(
    rt: &HostRuntime,
    folder: &SystemFolder,
    logs: Vec<OpenLog<'_>>,
) -> Result<(), Fault> {
    for log in logs {
        compact_table(rt, folder, log)?;
    }
    Ok(())
}

// Closes the log of a table, and writes the table's state, unless it is there. The log before stays until the system has the state's name.
fn compact_table(rt: &HostRuntime, folder: &SystemFolder, log: OpenLog<'_>) -> Result<(), Fault> {
    let OpenLog {
        declared,
        table,
        disk,
        about,
    } = log;
    let base = about.base;
    let last = about.recovered.last;
    let name = declared.spec.name();
    let mut files = files_of(rt, folder, name);
    table_folder::Folder::close_log(&mut files, base.state(), disk.into_files());
    if base == base.at(last) {
        return Ok(());
    }
    let mut left = Vec::new(rt.alloc());
    let done = table_folder::compact(
        rt.alloc(),
        &mut files,
        &table,
        declared.types.as_str(),
        base.declared,
        last,
        &mut left,
    );
    tell_left(rt, folder, name, &left, last.number)?;
    match done {
        Ok(()) => Ok(()),
        Err(fault) => Err(told(&files, fault)),
    }
}

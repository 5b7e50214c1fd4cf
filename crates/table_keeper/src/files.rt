//! The files of a table, and what is told of their faults.

use crate::fault::Fault;
use crate::shown::Shown;
use system_files::{SystemFolder, TableFiles};
use table_folder::{FileName, FolderFault};

/// The files of a table in the folder.
pub(crate) type Files<'a> = TableFiles<'a, Shown>;

/// Those of the table of this name.
pub(crate) fn files_of<'a>(
    rt: &HostRuntime,
    folder: &'a SystemFolder,
    table: &'a str,
) -> Files<'a> {
    folder.watched(table, Shown::new(*rt))
}

/// What a fault of these files is told as.
pub(crate) fn told(files: &Files<'_>, fault: FolderFault) -> Fault {
    if files.is_refused() {
        return Fault::Memory;
    }
    match fault_of(files, fault) {
        Ok(fault) => fault,
        Err(refused) => refused,
    }
}

// The fault with its path, or that of memory.
fn fault_of(files: &Files<'_>, fault: FolderFault) -> Result<Fault, Fault> {
    Ok(match fault {
        FolderFault::Memory => Fault::Memory,
        FolderFault::Names => Fault::File(files.folder_path()?),
        FolderFault::File(name) => Fault::File(files.path(name)?),
        FolderFault::Unwritten(FileName::Declaration | FileName::DeclarationDraft) => {
            Fault::File(files.path(FileName::Declaration)?)
        }
        FolderFault::Unwritten(name) => Fault::Unwritten(files.path(name)?),
        FolderFault::Behind(name) => Fault::Behind(files.path(name)?),
        FolderFault::Lacking(name) => Fault::Lacking(files.path(name)?),
        FolderFault::State => Fault::State(files.path(FileName::State)?),
        FolderFault::StateLine(number) => Fault::StateLine(files.path(FileName::State)?, number),
        FolderFault::Missing(name) => Fault::Missing(files.path(name)?),
        FolderFault::Log(name, why) => Fault::of_opening(why, files.path(name)?),
        FolderFault::Recovery(name, why) => {
            Fault::of_recovery(why, files.path(name)?, files.path(FileName::Mark)?)
        }
        FolderFault::Old(name) => Fault::Old(files.path(name)?),
        FolderFault::Beside(name) => Fault::Beside(files.path(name)?),
    })
}

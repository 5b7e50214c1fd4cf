//! The folder of the logs.

use crate::decided::carry_out;
use crate::fault::Fault;
use crate::files::{files_of, told};
use kept_tables::declares;
use std::io::ErrorKind;
use std::time::Duration;
use std::{fs, thread};
use system_files::{SystemFolder, TakeFault};
use table_folder::{FileName, read_file};
use table_schema::TableSpec;

/// How often a folder is tried to be taken, 20 milliseconds apart.
const TRIES: u32 = 50;

/// Takes the folder at a path, and makes it where nothing stands there. A change of its tables that was decided is carried out.
pub(crate) fn taken(rt: &HostRuntime, path: &str) -> Result<SystemFolder, Fault> {
    match try_to_take(rt, path) {
        Ok(folder) => {
            carry_out(rt, &folder)?;
            Ok(folder)
        }
        Err(TakeFault::Memory) => Err(Fault::Memory),
        Err(TakeFault::Folder) => Err(Fault::File(String::from_str(rt.alloc(), path)?)),
        Err(TakeFault::Lock) => Err(Fault::File(format!(in rt.alloc(); "{path}/lock")?)),
        Err(TakeFault::Taken) => Err(Fault::Taken(String::from_str(rt.alloc(), path)?)),
    }
}

/// The same, where something has to stand there.
pub(crate) fn taken_there(rt: &HostRuntime, path: &str) -> Result<SystemFolder, Fault> {
    match fs::symlink_metadata(rt, path) {
        Err(error) if error.kind() == ErrorKind::NotFound => {
            Err(Fault::Missing(String::from_str(rt.alloc(), path)?))
        }
        _ => taken(rt, path),
    }
}

// Takes a folder. A program that was killed has its lock for a moment longer, so it is tried again for a second.
fn try_to_take(rt: &HostRuntime, path: &str) -> Result<SystemFolder, TakeFault> {
    for _ in 0..TRIES {
        match SystemFolder::take(rt.alloc(), path) {
            Err(TakeFault::Taken) => thread::sleep(rt, Duration::from_millis(20)),
            done => return done,
        }
    }
    SystemFolder::take(rt.alloc(), path)
}

/// Refuses another declaration of the table than this one.
pub(crate) fn check_table(
    rt: &HostRuntime,
    folder: &SystemFolder,
    table: &TableSpec,
) -> Result<(), Fault> {
    let files = files_of(rt, folder, table.name());
    match read_file(rt.alloc(), &files, FileName::Declaration) {
        Ok(None) => Ok(()),
        Ok(Some(found)) => if declares(rt.alloc(), found.as_slice(), table)? {
            Ok(())
        } else {
            Err(Fault::Declared(files.path(FileName::Declaration)?))
        },
        Err(fault) => Err(told(&files, fault)),
    }
}

/// Waits until the system has the folder's names where a crash leaves them.
pub(crate) fn sync(rt: &HostRuntime, folder: &SystemFolder) -> Result<(), Fault> {
    match folder.sync() {
        Ok(()) => Ok(()),
        Err(error) => Err(Fault::of_file(&error, String::from_str(rt.alloc(), folder.path())?)),
    }
}

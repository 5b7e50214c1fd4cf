//! Takes over a folder of an older program: plain logs, and states without digests.

use crate::fault::Fault;
use crate::files::{Files, files_of, told};
use crate::folder::{check_table, sync, taken};
use crate::logs::{Declared, start, tell_unended};
use crate::schema::schema_of;
use keeper_words::Tables;
use system_files::SystemFolder;
use table_folder::{FileName, FolderFault, Older, find_older, refuse_beside, retire, take_over};
use table_schema::{Schema, TableSpec};

/// A table whose files are those of an older program.
#[derive(Drop)]
struct ToTake<'a> {
    /// Its last write is told with the digest of its declaration.
    declared: Declared<'a>,
    older: Older,
}

/// Writes a state in the new form for each table whose files are those of an older program, and takes these away. All tables are
/// decided before one is changed, and it may be done again where it was broken off.
pub(crate) fn upgrade(rt: &HostRuntime, asked: &Tables<'_>) -> Result<(), Fault> {
    let schema = schema_of(rt, asked.schema)?;
    let folder = taken(rt, asked.folder)?;
    let older = find_all(rt, &folder, &schema)?;
    sync(rt, &folder)?;
    for table in older {
        take(rt, &folder, table)?;
    }
    start(rt, &folder, &schema)?;
    Ok(())
}

// The tables whose files are those of an older program.
fn find_all<'a>(
    rt: &HostRuntime,
    folder: &SystemFolder,
    schema: &'a Schema,
) -> Result<Vec<ToTake<'a>>, Fault> {
    let mut older = Vec::new(rt.alloc());
    for table in schema.tables() {
        check_table(rt, folder, table)?;
        if let Some(found) = find(rt, folder, table)? {
            older.push(found)?;
        }
    }
    Ok(older)
}

// A table, if its files are those of an older program. No log and no mark of this one may stand beside them.
fn find<'a>(
    rt: &HostRuntime,
    folder: &SystemFolder,
    table: &'a TableSpec,
) -> Result<Option<ToTake<'a>>, Fault> {
    let declared = Declared::new(rt, table)?;
    let files = files_of(rt, folder, table.name());
    match find_alone(rt, &files, &declared) {
        Ok(Some(older)) => Ok(Some(ToTake { declared, older })),
        Ok(None) => Ok(None),
        Err(fault) => Err(told(&files, fault)),
    }
}

// What the files of an older program leave, if they are there, and nothing stands beside them.
fn find_alone(
    rt: &HostRuntime,
    files: &Files<'_>,
    declared: &Declared<'_>,
) -> Result<Option<Older>, FolderFault> {
    let types = declared.types.as_str();
    let found = find_older(rt.alloc(), files, declared.spec, types, declared.digest())?;
    if found.is_some() {
        refuse_beside(rt.alloc(), files)?;
    }
    Ok(found)
}

// Has the state of a table in the new form, takes its older logs away, and tells which of them are left.
fn take(rt: &HostRuntime, folder: &SystemFolder, table: ToTake<'_>) -> Result<(), Fault> {
    let ToTake { declared, older } = table;
    let mut files = files_of(rt, folder, declared.spec.name());
    let mut left = Vec::new(rt.alloc());
    let done = match &older {
        Older::Table(table) => take_over(
            rt.alloc(),
            &mut files,
            table,
            declared.types.as_str(),
            declared.digest(),
            &mut left,
        ),
        Older::State(number) => retire(rt.alloc(), &mut files, *number, &mut left),
    };
    tell_retired(rt, folder, declared.spec.name(), &left, older.number())?;
    match done {
        Ok(()) => Ok(()),
        Err(fault) => Err(told(&files, fault)),
    }
}

// Tells which logs of an older program are left, beside a state of this number.
fn tell_retired(
    rt: &HostRuntime,
    folder: &SystemFolder,
    table: &str,
    left: &[Option<u64>],
    number: u64,
) -> Result<(), Fault> {
    for begin in left {
        let path = folder.path_of(table, FileName::PlainLogLeft(*begin))?;
        tell_unended(rt, path.as_str(), number);
    }
    Ok(())
}

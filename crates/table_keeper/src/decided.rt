//! A change of tables that is decided: their new states stand beside, under the name of a table that no schema has, and one file tells of which tables they are. From the
//! moment that it is there the change is carried out, at the next start if need be; before that nothing is changed.

use crate::fault::Fault;
use crate::files::{Files, files_of, told};
use crate::folder::sync;
use crate::logs::Declared;
use schema_file::read_schema;
use std::alloc::Global;
use system_files::SystemFolder;
use table_folder::{
    Begin, FileName, Folder, FolderFault, declare, install, put_state, read_begin, read_file,
};
use table_schema::{Schema, SchemaFault, TableSpec};
use table_step::Table;

/// The name beside that of no table, whose declaration is the file that decides.
const ALL: &str = "all.alter";

/// How the name of a state ends that stands beside, and while it is written.
const STATE: &str = ".alter.state";

const STATE_DRAFT: &str = ".alter.state.new";

// The name beside under which the new state of a table stands.
fn beside(alloc: Global, table: &str) -> Result<String, Fault> {
    Ok(format!(in alloc; "{table}.alter")?)
}

/// Writes the new state of a table beside, whose last write has this digest, and reads it back.
pub(crate) fn put_beside(
    rt: &HostRuntime,
    folder: &SystemFolder,
    declared: &Declared<'_>,
    table: &Table,
    digest: u64,
) -> Result<(), Fault> {
    let name = beside(rt.alloc(), declared.spec.name())?;
    let mut files = files_of(rt, folder, name.as_str());
    let types = declared.types.as_str();
    if let Err(fault) = put_state(rt.alloc(), &mut files, table, types, digest) {
        return Err(told(&files, fault));
    }
    read_beside(rt, &files, declared)?;
    Ok(())
}

// The state of a table that stands beside.
fn read_beside(
    rt: &HostRuntime,
    files: &Files<'_>,
    declared: &Declared<'_>,
) -> Result<(Table, u64), Fault> {
    let types = declared.types.as_str();
    match read_begin(rt.alloc(), files, declared.spec, types, declared.digest()) {
        Ok(
            Begin {
                base,
                table: Some(table),
            },
        ) => Ok((table, base.link.digest)),
        Ok(_) => Err(told(files, FolderFault::Missing(FileName::State))),
        Err(fault) => Err(told(files, fault)),
    }
}

/// Decides the change of these tables, whose new states all stand beside.
pub(crate) fn decide_for(
    rt: &HostRuntime,
    folder: &SystemFolder,
    tables: &[Declared<'_>],
) -> Result<(), Fault> {
    let mut text = String::new(rt.alloc());
    for table in tables {
        text.push_str(table.text())?;
    }
    let mut files = files_of(rt, folder, ALL);
    match declare(&mut files, text.as_bytes()) {
        Ok(()) => Ok(()),
        Err(fault) => Err(told(&files, fault)),
    }
}

/// Carries out a change of tables that was decided, if there is one. It may be done again where it was broken off. Where none was decided, what one left beside goes.
pub(crate) fn carry_out(rt: &HostRuntime, folder: &SystemFolder) -> Result<(), Fault> {
    let Some(schema) = decided_in(rt, folder)? else {
        return remove_undecided(rt, folder);
    };
    for table in schema.tables() {
        take_in(rt, folder, table)?;
    }
    let mut files = files_of(rt, folder, ALL);
    remove(&mut files, FileName::Declaration)?;
    sync(rt, folder)?;
    for table in schema.tables() {
        remove_beside(rt, folder, table.name())?;
    }
    Ok(())
}

// The new declarations of the tables whose change is decided.
fn decided_in(rt: &HostRuntime, folder: &SystemFolder) -> Result<Option<Schema>, Fault> {
    let files = files_of(rt, folder, ALL);
    let text = match read_file(rt.alloc(), &files, FileName::Declaration) {
        Ok(Some(text)) => text,
        Ok(None) => return Ok(None),
        Err(fault) => return Err(told(&files, fault)),
    };
    match read_schema(rt.alloc(), text.as_slice()) {
        Ok(schema) => Ok(Some(schema)),
        Err(SchemaFault::Memory) => Err(Fault::Memory),
        Err(_) => Err(Fault::State(files.path(FileName::Declaration)?)),
    }
}

// Puts the state that stands beside, and the new declaration, in the place of all that the folder has of a table.
fn take_in(rt: &HostRuntime, folder: &SystemFolder, table: &TableSpec) -> Result<(), Fault> {
    let declared = Declared::new(rt, table)?;
    let name = beside(rt.alloc(), table.name())?;
    let (new, digest) = read_beside(rt, &files_of(rt, folder, name.as_str()), &declared)?;
    let mut files = files_of(rt, folder, table.name());
    let types = declared.types.as_str();
    let text = declared.text().as_bytes();
    match install(rt.alloc(), &mut files, &new, types, text, digest) {
        Ok(()) => Ok(()),
        Err(fault) => Err(told(&files, fault)),
    }
}

// Removes what a change left beside that was broken off before it was decided, and tells it.
fn remove_undecided(rt: &HostRuntime, folder: &SystemFolder) -> Result<(), Fault> {
    for table in besides(rt, folder)? {
        let name = beside(rt.alloc(), table.as_str())?;
        let path = folder.path_of(name.as_str(), FileName::State)?;
        remove_beside(rt, folder, table.as_str())?;
        let _ = eprintln!(rt; "removed: {path}: of a change that was not decided");
    }
    remove(&mut files_of(rt, folder, ALL), FileName::DeclarationDraft)
}

// The tables of which a state stands beside, whole or not.
fn besides(rt: &HostRuntime, folder: &SystemFolder) -> Result<Vec<String>, Fault> {
    let mut tables = tables_of(rt, folder, STATE)?;
    for table in tables_of(rt, folder, STATE_DRAFT)? {
        tables.push(table)?;
    }
    Ok(tables)
}

// The tables of which the name of a file ends so.
fn tables_of(rt: &HostRuntime, folder: &SystemFolder, end: &str) -> Result<Vec<String>, Fault> {
    match folder.tables_of(end) {
        Ok(tables) => Ok(tables),
        Err(error) => Err(Fault::of_file(&error, String::from_str(rt.alloc(), folder.path())?)),
    }
}

/// Removes what stands beside of a table.
pub(crate) fn remove_beside(
    rt: &HostRuntime,
    folder: &SystemFolder,
    table: &str,
) -> Result<(), Fault> {
    let name = beside(rt.alloc(), table)?;
    let mut files = files_of(rt, folder, name.as_str());
    remove(&mut files, FileName::StateDraft)?;
    remove(&mut files, FileName::State)
}

// Removes a file, where it is there.
fn remove(files: &mut Files<'_>, name: FileName) -> Result<(), Fault> {
    match files.remove(name) {
        Ok(()) => Ok(()),
        Err(_) => Err(told(files, FolderFault::File(name))),
    }
}

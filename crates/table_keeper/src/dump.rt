//! Prints the records of a table.

use crate::fault::Fault;
use crate::files::{files_of, told};
use crate::folder::taken_there;
use crate::logs::compared;
use crate::schema::{schema_of, table_named};
use keeper_words::Dumping;
use std::io::{BufWriter, Write};
use system_files::SystemFolder;
use table_folder::{FileName, decide};
use table_rows::{Unwritten, write_csv, write_inserts};
use table_schema::TableSpec;
use table_step::Table;

/// Prints the records of a table in the order of an index, as commands that insert them or as rows of CSV. Nothing is changed.
pub(crate) fn dump(rt: &HostRuntime, asked: &Dumping<'_>) -> Result<(), Fault> {
    let schema = schema_of(rt, asked.schema)?;
    let spec = table_named(rt, &schema, asked.table)?;
    let folder = taken_there(rt, asked.folder)?;
    let table = kept_table(rt, &folder, spec)?;
    let index = index_named(rt, table.records().spec(), asked.by)?;
    match print(rt, &table, index, asked.csv) {
        Ok(()) => Ok(()),
        Err(Unwritten::Memory) => Err(Fault::Memory),
        Err(Unwritten::Output) => Err(Fault::Output),
    }
}

// A table that a folder has, as a start would have it.
fn kept_table(rt: &HostRuntime, folder: &SystemFolder, spec: &TableSpec) -> Result<Table, Fault> {
    let declared = compared(rt, folder, spec)?;
    let files = files_of(rt, folder, spec.name());
    let mut left = Vec::new(rt.alloc());
    let types = declared.types.as_str();
    let decided = match decide(
        rt.alloc(),
        &files,
        spec,
        types,
        declared.digest(),
        &mut left,
    ) {
        Ok(decided) => decided,
        Err(fault) => return Err(told(&files, fault)),
    };
    if decided.about.base.is_state {
        return Ok(decided.table);
    }
    match table_folder::is_there(&files, FileName::Log(None)) {
        Ok(true) => Ok(decided.table),
        Ok(false) => Err(Fault::Missing(files.path(FileName::Log(None))?)),
        Err(fault) => Err(told(&files, fault)),
    }
}

// The place of the index of this name, the first if there is none.
fn index_named(rt: &HostRuntime, spec: &TableSpec, name: Option<&str>) -> Result<usize, Fault> {
    let Some(name) = name else {
        return Ok(0);
    };
    let mut indices = spec.indices().iter();
    match indices.position(|index| index.name.as_str() == name) {
        Some(place) => Ok(place),
        None => {
            let table = spec.name();
            let text = format!(in rt.alloc();
                "error: the table '{table}' has no index '{name}'\n"
            )?;
            Err(Fault::Words(text))
        }
    }
}

// Prints records in the order of an index.
fn print(rt: &HostRuntime, table: &Table, index: usize, csv: bool) -> Result<(), Unwritten> {
    let alloc = rt.alloc();
    if csv {
        write_csv(alloc, table, index, rt.stdout())?;
        return Ok(());
    }
    let Ok(mut lines) = BufWriter::new(alloc, rt.stdout()) else {
        return Err(Unwritten::Memory);
    };
    write_inserts(alloc, table, index, &mut lines)?;
    match lines.flush() {
        Ok(()) => Ok(()),
        Err(_) => Err(Unwritten::Output),
    }
}

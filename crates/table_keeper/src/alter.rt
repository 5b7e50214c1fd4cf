//! Changes the tables of a folder to those of another schema.

use crate::decided::{carry_out, decide_for, put_beside, remove_beside};
use crate::fault::Fault;
use crate::fill::{Filling, fills_for, read_fillings, table_in};
use crate::folder::{check_table, taken};
use crate::logs::{Declared, OpenLog, start};
use crate::schema::schema_of;
use crate::told::{tell_changes, unaltered};
use keeper_words::Altering;
use system_files::SystemFolder;
use table_alter::altered;
use table_schema::Schema;
use table_step::Table;

/// A table as it is to be.
#[derive(Drop)]
struct Altered<'a> {
    declared: Declared<'a>,
    table: Table,
    /// The digest of its last write.
    digest: u64,
}

/// Changes the tables of a folder to those of another schema, and tells each change before that. Where one of them is refused nothing is changed. It is decided for all tables
/// at once, so a start finds all of them as they were, or as they are to be.
pub(crate) fn alter(rt: &HostRuntime, asked: &Altering<'_>) -> Result<(), Fault> {
    let old = schema_of(rt, asked.schema)?;
    let new = schema_of(rt, asked.new)?;
    let fillings = read_fillings(rt.alloc(), &old, &new, asked.fill)?;
    let folder = taken(rt, asked.folder)?;
    refuse_others(rt, &folder, &old, &new)?;
    let logs = start(rt, &folder, &old)?;
    let tables = all_altered(rt, logs, &new, &fillings)?;
    tell_tables(rt, &old, &new)?;
    if tables.is_empty() {
        return Ok(());
    }
    if let Err(fault) = put_all(rt, &folder, tables) {
        for table in old.tables() {
            let _ = remove_beside(rt, &folder, table.name());
        }
        return Err(fault);
    }
    carry_out(rt, &folder)
}

// Refuses a table that comes, where the folder has one of its name with another declaration.
fn refuse_others(
    rt: &HostRuntime,
    folder: &SystemFolder,
    old: &Schema,
    new: &Schema,
) -> Result<(), Fault> {
    for table in new.tables() {
        if table_in(old, table.name()).is_none() {
            check_table(rt, folder, table)?;
        }
    }
    Ok(())
}

// The tables that change, each as it is to be, once its changes are told.
fn all_altered<'a>(
    rt: &HostRuntime,
    logs: Vec<OpenLog<'_>>,
    new: &'a Schema,
    fillings: &[Filling],
) -> Result<Vec<Altered<'a>>, Fault> {
    let mut tables = Vec::new(rt.alloc());
    for log in logs {
        if let Some(table) = altered_table(rt, log, new, fillings)? {
            tables.push(table)?;
        }
    }
    Ok(tables)
}

// A table as it is to be, if it changes.
fn altered_table<'a>(
    rt: &HostRuntime,
    log: OpenLog<'_>,
    new: &'a Schema,
    fillings: &[Filling],
) -> Result<Option<Altered<'a>>, Fault> {
    let Some(spec) = table_in(new, log.table.name()) else {
        return Ok(None);
    };
    let declared = Declared::new(rt, spec)?;
    let before = log.table.records().spec();
    if !tell_changes(rt, before, spec)? && declared.text() == log.declared.text() {
        return Ok(None);
    }
    let fills = fills_for(rt.alloc(), fillings, spec.name())?;
    match altered(rt.alloc(), &log.table, spec, &fills) {
        Ok(table) => Ok(Some(Altered {
            declared,
            table,
            digest: log.about.recovered.last.digest,
        })),
        Err(why) => Err(unaltered(rt.alloc(), spec, why)),
    }
}

// Tells which tables come and go.
fn tell_tables(rt: &HostRuntime, old: &Schema, new: &Schema) -> Result<(), Fault> {
    for table in old.tables() {
        if table_in(new, table.name()).is_none() {
            let name = table.name();
            if println!(rt; "{name}: left out, its files stay").is_err() {
                return Err(Fault::Output);
            }
        }
    }
    for table in new.tables() {
        if table_in(old, table.name()).is_none() {
            let name = table.name();
            if println!(rt; "{name}: added").is_err() {
                return Err(Fault::Output);
            }
        }
    }
    Ok(())
}

// Writes the new states beside, and decides for all of them once they are there.
fn put_all(rt: &HostRuntime, folder: &SystemFolder, tables: Vec<Altered<'_>>) -> Result<(), Fault> {
    let mut all = Vec::with_capacity(rt.alloc(), tables.len())?;
    for Altered {
        declared,
        table,
        digest,
    } in tables {
        put_beside(rt, folder, &declared, &table, digest)?;
        all.push(declared)?;
    }
    decide_for(rt, folder, &all)
}

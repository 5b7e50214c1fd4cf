//! The tables of a folder. Nothing is changed before all tables are decided.

ghost use Rattle.std.specs.Prelude.{◌≡◌, All, IfOk, length};
ghost use Rattle.kept_tables.specs.Opened.{IsOpened};

use crate::declaration::{declares, text_of};
use crate::fault::OpenFault;
use crate::frame::types_of;
use checked_disk::CheckedDisk;
use checked_log::digest_of;
use std::alloc::Global;
use system_files::{SystemFolder, SystemLog, TableFiles};
use table_folder::{
    Decided, FileName, clean, decide, declare, is_there, read_file, refuse_plain, settle,
};
use table_log::LoggedTable;
use table_schema::{Schema, TableSpec};

/// The disk of a log.
pub type LogDisk = CheckedDisk<SystemLog>;

/// The name beside that of no table, whose declaration decides a change of tables that was not carried out yet.
const ALL: &str = "all.alter";

// A table that may be served, once its log is settled, and the text of its declaration.
#[derive(Drop)]
struct ToServe<'a> {
    spec: &'a TableSpec,
    decided: Decided,
    text: String,
}

// Refuses another declaration of the table than this one.
fn check_declared(
    alloc: Global,
    files: &TableFiles<'_>,
    spec: &TableSpec,
) -> Result<(), OpenFault> {
    match read_file(alloc, files, FileName::Declaration)? {
        Some(found) if !declares(alloc, found.as_slice(), spec)? => Err(OpenFault::Declared),
        _ => Ok(()),
    }
}

// Decides whether a table may be served, and changes nothing.
fn ready<'a>(
    alloc: Global,
    folder: &SystemFolder,
    spec: &'a TableSpec,
) -> Result<ToServe<'a>, OpenFault> {
    let files = folder.files(spec.name());
    check_declared(alloc, &files, spec)?;
    refuse_plain(alloc, &files)?;
    let text = text_of(alloc, spec)?;
    let digest = digest_of(text.as_bytes());
    let types = types_of(alloc, spec)?;
    let mut left = Vec::new(alloc);
    let decided = decide(alloc, &files, spec, types.as_str(), digest, &mut left)?;
    Ok(ToServe {
        spec,
        decided,
        text,
    })
}

// Opens a table's log once its names are settled, makes sure of it, declares the table, and removes what is not needed.
fn open(
    alloc: Global,
    folder: &SystemFolder,
    ready: ToServe<'_>,
) -> Result<LoggedTable<LogDisk>, OpenFault>
    ensures table { IfOk result (λ logged. logged.table ≡ ready.entry.decided.table) }
    ensures opened { IfOk result IsOpened }
{
    let ToServe {
        spec,
        decided,
        text,
    } = ready;
    let Decided { table, about } = decided;
    let mut files = folder.files(spec.name());
    let disk = settle(alloc, &mut files, &about)?;
    if let Err(fault) = declare(&mut files, text.as_bytes()) {
        // (of a draft's path that memory was refused for it tells that the draft can't be written)
        return Err(if files.is_refused() {
            OpenFault::Memory
        } else {
            OpenFault::from(fault)
        });
    }
    clean(&mut files, &about.spent)?;
    let begins_empty = if about.base.is_state {
        None
    } else {
        Some(spec.copy()?)
    };
    match LoggedTable::on(alloc, begins_empty, table, disk) {
        Ok(logged) => Ok(logged),
        Err(_) => Err(OpenFault::Memory),
    }
}

// Decides each table of a schema, and changes nothing.
fn decide_all<'a>(
    alloc: Global,
    folder: &SystemFolder,
    schema: &'a Schema,
) -> Result<Vec<ToServe<'a>>, OpenFault>
    ensures { IfOk result (λ decided. length decided.items ≡ length schema.now) }
{
    let specs = schema.tables();
    let mut decided = Vec::new(alloc);
    for spec in specs {
        decided.push(ready(alloc, folder, spec)?)?;
    }
    Ok(decided)
}

// Opens the logs of tables that are decided.
fn open_each(
    alloc: Global,
    folder: &SystemFolder,
    decided: Vec<ToServe<'_>>,
) -> Result<Vec<LoggedTable<LogDisk>>, OpenFault>
    ensures count { IfOk result (λ tables. length tables.items ≡ length decided.entry.items) }
    ensures opened { IfOk result (λ tables. All IsOpened tables.items) }
{
    let mut tables = Vec::new(alloc);
    for ready in decided {
        let opened = open(alloc, folder, ready)?;
        tables.push(opened)?;
    }
    Ok(tables)
}

/// Opens the tables of a folder, in the order of a start: all are decided, and only then the files of each are settled. Each log is synced. What the
/// files hold is not known to a contract.
pub fn open_all(
    alloc: Global,
    folder: &SystemFolder,
    schema: &Schema,
) -> Result<Vec<LoggedTable<LogDisk>>, OpenFault>
    ensures count { IfOk result (λ tables. length tables.items ≡ length schema.now) }
    ensures opened { IfOk result (λ tables. All IsOpened tables.items) }
{
    if is_there(&folder.files(ALL), FileName::Declaration)? {
        return Err(OpenFault::Hurt);
    }
    let decided = decide_all(alloc, folder, schema)?;
    open_each(alloc, folder, decided)
}

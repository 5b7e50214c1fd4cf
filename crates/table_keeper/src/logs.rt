//! The logs of a folder, and the tables that they leave. Nothing is changed before all tables are decided.

use crate::fault::Fault;
use crate::files::{files_of, told};
use crate::folder::check_table;
use crate::shown::Shown;
use checked_disk::CheckedDisk;
use checked_log::digest_of;
use kept_tables::{text_of, types_of};
use system_files::{SystemFolder, SystemLog};
use table_folder::{
    About, Decided, FileName, FoundLog, clean, decide, declare, refuse_plain, settle,
};
use table_log::LoggedTable;
use table_schema::{Schema, TableSpec};
use table_step::Table;

/// The disk of a log.
pub(crate) type LogDisk = CheckedDisk<SystemLog<Shown>>;

/// A table of the schema, with what its files are compared with.
#[derive(Drop)]
pub(crate) struct Declared<'a> {
    pub(crate) spec: &'a TableSpec,
    /// The text of its declaration, and the digest of that.
    text: String,
    digest: u64,
    /// The types of its columns.
    pub(crate) types: String,
}

impl<'a> Declared<'a> {
    /// A table of the schema.
    pub(crate) fn new(rt: &HostRuntime, spec: &'a TableSpec) -> Result<Declared<'a>, Fault> {
        let text = text_of(rt.alloc(), spec)?;
        let digest = digest_of(text.as_bytes());
        let types = types_of(rt.alloc(), spec)?;
        Ok(Declared {
            spec,
            text,
            digest,
            types,
        })
    }

    /// The text of its declaration.
    pub(crate) fn text(&self) -> &str {
        self.text.as_str()
    }

    /// The digest of its declaration.
    pub(crate) fn digest(&self) -> u64 {
        self.digest
    }
}

/// A table with its log, which is open.
#[derive(Drop)]
pub(crate) struct OpenLog<'a> {
    pub(crate) declared: Declared<'a>,
    pub(crate) table: Table,
    pub(crate) disk: LogDisk,
    pub(crate) about: About,
}

// A table that is decided: it may be served, once its log is settled.
#[derive(Drop)]
struct ToServe<'a> {
    declared: Declared<'a>,
    decided: Decided,
}

/// Makes the tables of a folder, in the order of a start: all are decided, and only then the files of each are settled.
pub(crate) fn start<'a>(
    rt: &HostRuntime,
    folder: &SystemFolder,
    schema: &'a Schema,
) -> Result<Vec<OpenLog<'a>>, Fault> {
    let mut decided = Vec::new(rt.alloc());
    for table in schema.tables() {
        decided.push(ready(rt, folder, table)?)?;
    }
    let mut logs = Vec::new(rt.alloc());
    for table in decided {
        logs.push(open(rt, folder, table)?)?;
    }
    Ok(logs)
}

/// A table, where the declaration that is there is its own, and no file is one of an older program.
pub(crate) fn compared<'a>(
    rt: &HostRuntime,
    folder: &SystemFolder,
    table: &'a TableSpec,
) -> Result<Declared<'a>, Fault> {
    check_table(rt, folder, table)?;
    let files = files_of(rt, folder, table.name());
    if let Err(fault) = refuse_plain(rt.alloc(), &files) {
        return Err(told(&files, fault));
    }
    Declared::new(rt, table)
}

/// Reads what a folder has of a table, up to its log.
pub(crate) fn find_log(
    rt: &HostRuntime,
    folder: &SystemFolder,
    table: &TableSpec,
) -> Result<FoundLog<SystemLog<Shown>>, Fault> {
    let declared = compared(rt, folder, table)?;
    let files = files_of(rt, folder, table.name());
    let mut left = Vec::new(rt.alloc());
    let found = table_folder::find_log(
        rt.alloc(),
        &files,
        table,
        declared.types.as_str(),
        declared.digest,
        &mut left,
    );
    match found {
        Ok(found) => {
            tell_left(
                rt,
                folder,
                table.name(),
                &left,
                found.about.base.link.number,
            )?;
            Ok(found)
        }
        Err(fault) => Err(told(&files, fault)),
    }
}

// Decides whether a table may be served, and changes nothing.
fn ready<'a>(
    rt: &HostRuntime,
    folder: &SystemFolder,
    table: &'a TableSpec,
) -> Result<ToServe<'a>, Fault> {
    let declared = compared(rt, folder, table)?;
    let files = files_of(rt, folder, table.name());
    let mut left = Vec::new(rt.alloc());
    let decided = decide(
        rt.alloc(),
        &files,
        table,
        declared.types.as_str(),
        declared.digest,
        &mut left,
    );
    match decided {
        Ok(decided) => {
            tell_left(
                rt,
                folder,
                table.name(),
                &left,
                decided.about.base.link.number,
            )?;
            Ok(ToServe { declared, decided })
        }
        Err(fault) => Err(told(&files, fault)),
    }
}

// Opens a table's log once its names are settled, makes sure of it, declares the table, and removes what is not needed.
fn open<'a>(
    rt: &HostRuntime,
    folder: &SystemFolder,
    decided: ToServe<'a>,
) -> Result<OpenLog<'a>, Fault> {
    let ToServe { declared, decided } = decided;
    let Decided { table, about } = decided;
    let mut files = files_of(rt, folder, declared.spec.name());
    let disk = match settle(rt.alloc(), &mut files, &about) {
        Ok(disk) => disk,
        Err(fault) => return Err(told(&files, fault)),
    };
    tell(rt, folder, declared.spec.name(), &about)?;
    if let Err(fault) = declare(&mut files, declared.text.as_bytes()) {
        return Err(told(&files, fault));
    }
    if let Err(fault) = clean(&mut files, &about.spent) {
        return Err(told(&files, fault));
    }
    Ok(OpenLog {
        declared,
        table,
        disk,
        about,
    })
}

impl OpenLog<'_> {
    /// The table on its log.
    pub(crate) fn logged(self, rt: &HostRuntime) -> Result<LoggedTable<LogDisk>, Fault> {
        let OpenLog {
            declared,
            table,
            disk,
            about,
        } = self;
        let begins_empty = if about.base.is_state {
            None
        } else {
            Some(declared.spec.copy()?)
        };
        match LoggedTable::on(rt.alloc(), begins_empty, table, disk) {
            Ok(logged) => Ok(logged),
            Err(_) => Err(Fault::Memory),
        }
    }
}

/// Tells which logs are left, beside a state of this last write.
pub(crate) fn tell_left(
    rt: &HostRuntime,
    folder: &SystemFolder,
    table: &str,
    left: &[Option<u64>],
    number: u64,
) -> Result<(), Fault> {
    for begin in left {
        tell_unended(rt, &folder.path_of(table, FileName::Log(*begin))?, number);
    }
    Ok(())
}

/// Tells that a log is left, at this path, which does not end with a write.
pub(crate) fn tell_unended(rt: &HostRuntime, path: &str, number: u64) {
    let _ = eprintln!(rt; "left: {path}: it does not end with write {number}");
}

// Tells what was cut off, and that there was no mark, where the log had writes.
fn tell(rt: &HostRuntime, folder: &SystemFolder, table: &str, about: &About) -> Result<(), Fault> {
    let path = folder.path_of(table, FileName::Log(about.base.state()))?;
    let behind = about.recovered.behind;
    let bytes = behind.bytes;
    let lines = behind.lines;
    match behind.first {
        Some(first) => {
            let _ = eprintln!(rt;
                "torn: {path}: {bytes} bytes were cut off, with {lines} lines from write {first} on"
            );
        }
        None if bytes > 0 => {
            let _ = eprintln!(rt; "torn: {path}: {bytes} bytes were cut off");
        }
        None => {}
    }
    if about.marks.mark.is_none() && about.recovered.end > 0 {
        let mark = folder.path_of(table, FileName::Mark)?;
        let _ = eprintln!(rt; "mark: {mark}: none");
    }
    Ok(())
}

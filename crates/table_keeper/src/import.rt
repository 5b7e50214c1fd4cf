//! Takes a journal or rows of CSV into the log of an empty table.

use crate::fault::Fault;
use crate::files::{Files, files_of};
use crate::folder::{sync, taken};
use crate::logs::{Declared, OpenLog, start};
use crate::mark::NoMark;
use crate::rows::take_rows;
use crate::schema::{schema_of, table_named};
use crate::shown::Shown;
use checked_disk::{Beside, CheckedDisk};
use checked_log::read_marks;
use command_lines::{CommandFault, read_command};
use keeper_words::Importing;
use std::io;
use std::io::{BufRead, BufReader, ErrorKind};
use system_files::{SystemFile, SystemFolder};
use table_folder::{Base, FileName, Folder};
use table_log::{LoggedTable, Opened};
use table_reply::{Out, memory_line};
use table_schema::TableSpec;

/// Where a journal comes from.
const INPUT: &str = "standard input";

/// A log that is not at its name yet.
pub(crate) type DraftDisk = CheckedDisk<Beside<SystemFile<Shown>, NoMark>>;

/// Takes a journal or rows of CSV from standard input into the log of a table that has neither a state nor a write: all of it or nothing.
pub(crate) fn import(rt: &HostRuntime, asked: &Importing<'_>) -> Result<(), Fault> {
    let schema = schema_of(rt, asked.schema)?;
    let table = table_named(rt, &schema, asked.table)?;
    let folder = taken(rt, asked.folder)?;
    refuse_filled(rt, &folder, start(rt, &folder, &schema)?, table.name())?;
    let mut files = files_of(rt, &folder, table.name());
    if let Err(fault) = put_log(rt, &mut files, table, asked.csv) {
        let _ = files.remove(FileName::LogDraft);
        return Err(fault);
    }
    sync(rt, &folder)?;
    start(rt, &folder, &schema)?;
    Ok(())
}

// Refuses a table of this name that has a state or a write.
fn refuse_filled(
    rt: &HostRuntime,
    folder: &SystemFolder,
    logs: Vec<OpenLog<'_>>,
    table: &str,
) -> Result<(), Fault> {
    for log in logs {
        let base = log.about.base;
        let is_filled = base.is_state || log.about.recovered.last.number > 0;
        if log.table.name() == table && is_filled {
            return Err(Fault::Filled(folder.path_of(table, FileName::Log(base.state()))?));
        }
    }
    Ok(())
}

// Takes a journal or rows of CSV into a log beside, and puts it at its name once the system has it.
fn put_log(
    rt: &HostRuntime,
    files: &mut Files<'_>,
    table: &TableSpec,
    csv: bool,
) -> Result<(), Fault> {
    let path = files.path(FileName::LogDraft)?;
    let draft = match files.begin(FileName::LogDraft) {
        Ok(draft) => draft,
        Err(error) => return Err(Fault::of_file(&error, path)),
    };
    let mut logged = open_draft(rt, table, draft, path.as_str())?;
    if csv {
        take_rows(rt, table, &mut logged, path.as_str())?;
    } else {
        take_lines(rt, &mut logged, path.as_str())?;
    }
    if logged.sync().is_err() {
        return Err(Fault::Log(path));
    }
    let Beside { log, mark: _ } = logged.into_disk().into_files();
    let put = files
        .end(FileName::LogDraft, log)
        .and_then(|()| files.put_at(FileName::LogDraft, FileName::Log(None)));
    match put {
        Ok(()) => Ok(()),
        Err(error) => Err(Fault::of_file(&error, path)),
    }
}

// An empty table with an empty log.
fn open_draft(
    rt: &HostRuntime,
    table: &TableSpec,
    draft: SystemFile<Shown>,
    path: &str,
) -> Result<LoggedTable<DraftDisk>, Fault> {
    let base = Base::empty(Declared::new(rt, table)?.digest());
    let files = Beside {
        log: draft,
        mark: NoMark::new(),
    };
    let Ok(found) = CheckedDisk::recover(rt.alloc(), files, 0, base.link, read_marks(&[])) else {
        return Err(Fault::Memory);
    };
    let path = String::from_str(rt.alloc(), path)?;
    let loaded = match LoggedTable::load(rt.alloc(), table, found.disk) {
        Ok(loaded) => loaded,
        Err(fault) => return Err(Fault::of_opening(fault.why, path)),
    };
    match loaded.settle() {
        Ok(Opened { logged, torn: _ }) => Ok(logged),
        Err(fault) => Err(Fault::of_opening(fault.why, path)),
    }
}

// Carries out the lines of standard input.
fn take_lines(
    rt: &HostRuntime,
    logged: &mut LoggedTable<DraftDisk>,
    draft: &str,
) -> Result<(), Fault> {
    let mut reader = match BufReader::new(rt.alloc(), rt.stdin()) {
        Ok(reader) => reader,
        Err(error) => return Err(of_input(&error)),
    };
    let Ok(mut out) = Out::new(rt.alloc()) else {
        return Err(Fault::Memory);
    };
    let mut line = Vec::new(rt.alloc());
    for number in 1..u64::MAX {
        line.clear();
        match reader.read_until(b'\n', &mut line) {
            Ok(0) => break,
            Ok(_) => if !take_line(rt, logged, draft, text_of(&line), &mut out)? {
                return Err(wrong(rt, number));
            },
            Err(error) => return Err(of_input(&error)),
        }
    }
    Ok(())
}

// A line without its newline.
fn text_of(line: &[u8]) -> &[u8] {
    match line.strip_suffix(b"\n") {
        Some(text) => text,
        None => line,
    }
}

// The fault of standard input.
fn of_input(error: &io::Error) -> Fault {
    match error.kind() {
        ErrorKind::OutOfMemory => Fault::Memory,
        _ => Fault::Input,
    }
}

/// Carries out a line, and says whether it is an accepted write.
pub(crate) fn take_line(
    rt: &HostRuntime,
    logged: &mut LoggedTable<DraftDisk>,
    draft: &str,
    text: &[u8],
    out: &mut Out,
) -> Result<bool, Fault> {
    let command = match read_command(rt.alloc(), text) {
        Ok(command) => command,
        Err(CommandFault::Memory) => return Err(Fault::Memory),
        Err(_) => return Ok(false),
    };
    let before = logged.mark();
    let Ok(ready) = out.emptied();
    if logged.call(&command, ready).end().is_err() {
        return Err(Fault::Log(String::from_str(rt.alloc(), draft)?));
    }
    if logged.mark() != before {
        Ok(true)
    } else if out.bytes() == memory_line() {
        Err(Fault::Memory)
    } else {
        Ok(false)
    }
}

// The fault of a line that is no accepted write.
fn wrong(rt: &HostRuntime, number: u64) -> Fault {
    match String::from_str(rt.alloc(), INPUT) {
        Ok(input) => Fault::Line(input, number),
        Err(_) => Fault::Memory,
    }
}
